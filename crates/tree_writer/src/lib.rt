// The words of the counting tree, by recursion: a list of two or more is cut into a left half, rounded down, and the rest. Each function
// writes to the start of the slice that it is lent.
#![tactic(auto)]

ghost use Rattle.std.specs.Prelude.{◌≡◌, [], ◌∷◌, ◌+◌, ◌-◌, ◌/◌, ◌≤◌, min, length};
ghost use Rattle.lists.specs.Loop.{each};
ghost use Rattle.lists.specs.Slice.{filled, Wrote};
ghost use Rattle.formula.specs.Formula.{line};
ghost use Rattle.counting.specs.Over.{variables_over, clauses_over, node_clauses, own_clauses};
ghost use Rattle.tree_writer.specs.Rows.{joining, row};

use counting::{Node, Subtree};
use variables::Variable;

// The words written, and the last variable so far.
#[derive(Clone, Copy)]
pub struct Grown {
    pub words: usize,
    pub next: usize,
}

// The clause of i on the left and j on the right, if not both are 0.
fn put_join(f: &mut [i32], x: i32, y: i32, z: i32, i: usize, j: usize) -> usize
    requires { length (each line (joining x y z i j)) ≤ length f.old }
    ensures { Wrote (each line (joining x y z i j)) f.old f.new result }
{
    match (i, j) {
        (0, 0) => 0,
        (0, _) => clauses::put_clause(f, [y, z]),
        (_, 0) => clauses::put_clause(f, [x, z]),
        _ => clauses::put_clause(f, [x, y, z]),
    }
}

// A node's clauses of i on the left.
fn write_row(f: &mut [i32], d: Node, i: usize) -> usize
    requires bounds { (d.p ≤ 40000) × (d.q ≤ 40000) × (d.o ≤ 40000) × (d.b ≤ 129) × (i ≤ 129) }
    requires i_in_bounds { length (each line (row d.ceiling.c d.p d.q d.o d.b i)) ≤ length f.old }
    ensures { Wrote (each line (row d.ceiling.c d.p d.q d.o d.b i)) f.old f.new result }
{
    let x = variables::negation_of(Variable(d.p + i));
    clauses::write_each(f, d.b + 1, |f, j| {
        let y = variables::negation_of(Variable(d.q + j));
        let z = variables::literal_of(Variable(d.o + d.ceiling.outputs(i + j)));
        put_join(f, x, y, z, i, j)
    })
}

// A node's clauses.
fn write_node(f: &mut [i32], d: Node) -> usize
    requires bounds { (d.p ≤ 40000) × (d.q ≤ 40000) × (d.o ≤ 40000) × (d.a ≤ 129) × (d.b ≤ 129) }
    requires d_in_bounds { length (each line (node_clauses d)) ≤ length f.old }
    ensures { Wrote (each line (node_clauses d)) f.old f.new result }
{
    clauses::write_each(f, d.a + 1, |f, i| write_row(f, d, i))
}

// The clauses of a tree's topmost node, where the left subtree's variables end at u, and the right's at v.
fn write_own(f: &mut [i32], tree: Subtree, u: usize, v: usize) -> usize
    requires bounds { (2 ≤ tree.l) × (u ≤ 40000) × (v ≤ 40000) }
    requires ends { (2 ≤ tree.l / 2 → min (tree.l / 2) (tree.ceiling.c + 1) ≤ u) × (2 ≤ tree.l - tree.l / 2 → min (tree.l - tree.l / 2) (tree.ceiling.c + 1) ≤ v) }
    requires v_in_bounds { length (each line (own_clauses tree.ceiling.c tree.l tree.x u v)) ≤ length f.old }
    ensures { Wrote (each line (own_clauses tree.ceiling.c tree.l tree.x u v)) f.old f.new result }
{
    write_node(f, tree.node(u, v))
}

// A tree, its own variables after y.
pub fn write_tree(f: &mut [i32], tree: Subtree, y: usize) -> Grown
    requires y_most { y + variables_over tree.ceiling.c tree.l ≤ 40000 }
    requires y_in_bounds { length (each line (clauses_over tree.ceiling.c tree.l tree.x y)) ≤ length f.old }
    ensures { (result.words ≡ length (each line (clauses_over tree.ceiling.c tree.l tree.x y))) × (result.next ≡ y + variables_over tree.ceiling.c tree.l) × (f.new ≡ filled (each line (clauses_over tree.ceiling.c tree.l tree.x y)) f.old) }
{
    if tree.l < 2 {
        return Grown { words: 0, next: y };
    }
    let left = write_tree(f, tree.left(), y);
    let middle = left.words;
    let right = write_tree(&mut f[middle..], tree.right(), left.next);
    let end = middle + right.words;
    let own = write_own(&mut f[end..], tree, left.next, right.next);
    Grown {
        words: end + own,
        next: right.next + tree.ceiling.outputs(tree.l),
    }
}
