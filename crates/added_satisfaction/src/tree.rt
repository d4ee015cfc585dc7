// The counting tree's clauses: by recursion as the tree is, and those of a node at once or row by row.
ghost use Rattle.std.specs.Prelude.{◌≡◌, true, ℕ, ◌+◌, ◌-◌, ◌/◌, ◌≤◌, ◌<◌, min, T, length, MatchResult};
ghost use Rattle.counting.specs.Over.{variables_over, clauses_over, node_clauses, own_clauses};
ghost use Rattle.added_satisfaction.specs.Search.{Passes, Fails, Searched, Stops, FirstOf, cell, follows, Within};

use crate::assignment::Assignment;
use counting::{Node, Subtree};

// A tree whose clauses have each a true literal: how many they are, and its last variable.
#[derive(Clone, Copy)]
pub struct Passed {
    pub size: usize,
    pub next: usize,
}

// A node, with the entries of its variables.
#[derive(Clone, Copy)]
struct Outputs<'a> {
    of: Assignment<'a>,
    d: Node,
    ghost within: { Within of.entries.now d },
}

impl<'a> Outputs<'a> {
    // Row i from j = 1 on: has each clause a true literal? Up to i + j = c + 1 the outputs stand one after another, beyond it there is
    // that one.
    fn row_holds(self, i: usize) -> bool
        requires { i ≤ self.d.a }
        ensures { result ≡ true → (j : ℕ) → 1 ≤ j → j < self.entry.d.b + 1 → T (follows self.entry.of.entries.now self.entry.d i j) }
    {
        let most = self.d.ceiling.c + 1;
        let near = self.d.b.min(most - i);
        if !self.of.all_imply(self.d.q, self.d.o + i, near) {
            return false;
        }
        if near == self.d.b {
            return true;
        }
        self.of.is_true(self.d.o + most) || self.of.none_true(self.d.q + near, self.d.b - near)
    }

    // Row i from j = 1 on: the first j that is reached on the right, with the node's output for i and j false.
    fn rest_of_row(self, i: usize) -> Option<usize>
        requires { i ≤ self.d.a }
        ensures { Stops (follows self.entry.of.entries.now self.entry.d i) 1 (self.entry.d.b + 1) result }
    {
        if self.row_holds(i) {
            return None;
        }
        let end = self.d.b + 1;
        for j in 1..end {
            if !self
                .of
                .implies(self.d.q + j, self.d.o + self.d.ceiling.outputs(i + j))
            {
                return Some(j);
            }
        }
        None
    }

    // Row i: the first j whose clause has no true literal. Where output i of the left is false, each has one.
    fn row_fault(self, i: usize) -> Option<usize>
        requires { i ≤ self.d.a }
        ensures { FirstOf (self.entry.d.b + 1) (cell self.entry.of.entries.now self.entry.d i) result }
    {
        if i == 0 {
            return self.rest_of_row(i);
        }
        if !self.of.is_true(self.d.p + i) {
            return None;
        }
        if !self.of.is_true(self.d.o + i) {
            return Some(0);
        }
        self.rest_of_row(i)
    }

    // Are the node's outputs true up to the sum of the last on either side? Then each of its clauses has a true literal. So it is
    // wherever each output has its meaning.
    fn sum_reached(self) -> bool
        ensures { result ≡ true → (i j : ℕ) → i ≤ self.entry.d.a → j ≤ self.entry.d.b → T (cell self.entry.of.entries.now self.entry.d i j) }
    {
        let i = self.of.reached(self.d.p, self.d.a);
        let j = self.of.reached(self.d.q, self.d.b);
        self.of.all_true(self.d.o, self.d.ceiling.outputs(i + j))
    }

    // The clauses of the node.
    fn fault(self) -> Result<usize, usize>
        ensures { Searched self.entry.of.entries.now (node_clauses self.entry.d) result }
    {
        let rows = self.d.a + 1;
        let width = self.d.b + 1;
        let size = rows * width - 1;
        if self.sum_reached() {
            return Ok(size);
        }
        for i in 0..rows {
            if let Some(j) = self.row_fault(i) {
                return Err(i * width + j - 1);
            }
        }
        Ok(size)
    }
}

// The clauses of a tree's topmost node, where the left subtree's variables end at u, and the right's at v.
fn own_fault(of: Assignment, tree: Subtree, u: usize, v: usize) -> Result<usize, usize>
    requires bounds { (2 ≤ tree.l) × (tree.x + tree.l ≤ length of.entries.now) × (u ≤ length of.entries.now) × (v + min tree.l (tree.ceiling.c + 1) ≤ length of.entries.now) }
    requires ends { (2 ≤ tree.l / 2 → min (tree.l / 2) (tree.ceiling.c + 1) ≤ u) × (2 ≤ tree.l - tree.l / 2 → min (tree.l - tree.l / 2) (tree.ceiling.c + 1) ≤ v) }
    ensures { Searched of.entry.entries.now (own_clauses tree.ceiling.c tree.l tree.x u v) result }
{
    let node = Outputs {
        of,
        d: tree.node(u, v),
    };
    node.fault()
}

// A tree, its own variables after y: that it passed, or the place of its first clause without a true literal.
pub fn tree_fault(of: Assignment, tree: Subtree, y: usize) -> Result<Passed, usize>
    requires { (tree.x + tree.l ≤ length of.entries.now) × (y + variables_over tree.ceiling.c tree.l ≤ length of.entries.now) }
    ensures { MatchResult result (λ t. Passes of.entry.entries.now (clauses_over tree.ceiling.c tree.l tree.x y) t.size × (t.next ≡ y + variables_over tree.ceiling.c tree.l)) (Fails of.entry.entries.now (clauses_over tree.ceiling.c tree.l tree.x y)) }
{
    if tree.l < 2 {
        return Ok(Passed { size: 0, next: y });
    }
    let left = tree_fault(of, tree.left(), y)?;
    let right = match tree_fault(of, tree.right(), left.next) {
        Ok(t) => t,
        Err(place) => return Err(left.size + place),
    };
    let before = left.size + right.size;
    match own_fault(of, tree, left.next, right.next) {
        Ok(size) => Ok(Passed {
            size: before + size,
            next: right.next + tree.ceiling.outputs(tree.l),
        }),
        Err(place) => Err(before + place),
    }
}
