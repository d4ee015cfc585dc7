// The entries of the variables that a ceiling adds, for a plan: B, then the counting tree's own.
#![tactic(auto)]

ghost use Rattle.std.specs.Prelude.{◌≡◌, Bool, false, ℕ, ◌++◌, ◌+◌, ◌*◌, ◌≤◌, ◌<◌, min, ltb, length, take, replicate};
ghost use Rattle.lists.specs.Slice.{filled, Wrote};
ghost use Rattle.formula.specs.Variables.{highest};
ghost use Rattle.plan.specs.Plan.{plan_bytes};
ghost use Rattle.ceiling.specs.Tree.{entry_of};
ghost use Rattle.ceiling.specs.Ceiling.{added_variables};
ghost use Rattle.ceiling.specs.Encoded.{busy_entries, counter_entries};
ghost use Rattle.counting.specs.Over.{variables_over};
ghost use Rattle.added_entries.specs.Rest.{rest_times, marks_of, entries_of, entries_over, count_over};

use counting::{Ceiling, Subtree};
use instance::Shape;
use variables::Variable;

// The entries of a tree's own variables that were written, and how many of its inputs are true.
#[derive(Clone, Copy)]
struct Counted {
    entries: usize,
    count: usize,
}

// The agents' times until rest, 0 beyond them.
fn rest_times(s: Shape, p: &[u8]) -> [u8; 16]
    requires { length p.now ≡ plan_bytes s.sizes }
    ensures { result ≡ filled (rest_times s.sizes p.now) (replicate 16 0) }
{
    let k = s.sizes.k;
    let rows = s.sizes.m + 1;
    let mut rest = [0u8; 16];
    for (a, time) in rest[..k].iter_mut().enumerate() {
        *time = plan_check::rest_time(s.sizes, p, rows, a) as u8;
    }
    rest
}

// Of each time and agent, time by time, whether the agent is not yet at rest.
fn marks_of(rest: &[u8; 16], m: usize, k: usize) -> [bool; 512]
    requires { (k ≤ 16) × (m * k ≤ 512) }
    ensures { result ≡ filled (marks_of rest.now k (m * k)) (replicate 512 false) }
{
    let mut marks = [false; 512];
    // By index: of the rows that `chunks_exact_mut` lends, a proof knows no element afterwards.
    for t in 0..m {
        for a in 0..k {
            marks[t * k + a] = t < usize::from(rest[a]);
        }
    }
    marks
}

// A variable's entry.
fn entry_of(b: bool, x: Variable) -> i32
    requires { x.0 ≤ highest }
    ensures { result ≡ entry_of b x.0 }
{
    if b {
        variables::literal_of(x)
    } else {
        variables::negation_of(x)
    }
}

// The entries of n variables, which stand after y: that of number j is true where the test holds at j.
fn write_entries<F: Fn(usize) -> bool>(z: &mut [i32], n: usize, y: usize, test: F)
    requires n_bound { (y + n ≤ highest) × (n ≤ length z.old) }
    requires callable { (j : ℕ) → j < n → F.pre test j }
    ensures { (g : ℕ → Bool) → ((j : ℕ) (b : Bool) → j < n → F.post test j b → b ≡ g j) → z.new ≡ filled (entries_of g n y) z.old }
{
    // By index: j is the place, what is tested and in the variable's number.
    for j in 0..n {
        z[j] = entry_of(test(j), Variable(y + (j + 1)));
    }
}

// The topmost node's outputs, behind the entries of its two subtrees: the first of them are true, as many as inputs are. All stand
// after y.
fn write_node(z: &mut [i32], tree: Subtree, y: usize, left: Counted, right: Counted) -> Counted
    requires count_bound { (left.count ≤ highest) × (right.count ≤ highest) }
    requires room { (y + (left.entries + right.entries + min tree.l (tree.ceiling.c + 1)) ≤ highest) × (left.entries + right.entries + min tree.l (tree.ceiling.c + 1) ≤ length z.old) }
    ensures count_value { result.count ≡ left.count + right.count }
    ensures wrote { Wrote (take (left.entries + right.entries) z.old ++ entries_of (λ j. ltb j (left.count + right.count)) (min tree.l (tree.ceiling.c + 1)) (y + (left.entries + right.entries))) z.old z.new result.entries }
{
    let at = left.entries + right.entries;
    let count = left.count + right.count;
    let w = tree.ceiling.outputs(tree.l);
    write_entries(&mut z[at..], w, y + at, |j| j < count);
    Counted {
        entries: at + w,
        count,
    }
}

// The tree over input x alone.
fn leaf(marks: &[bool; 512], x: usize) -> Counted
    requires { x < 512 }
    ensures { (result.entries ≡ 0) × (result.count ≡ count_over marks.now 1 x) }
{
    Counted {
        entries: 0,
        count: usize::from(marks[x]),
    }
}

// A tree over inputs that are numbered from 0, its own variables after y. Half of all calls would be for one input: two are taken at
// once.
fn write_tree(z: &mut [i32], marks: &[bool; 512], tree: Subtree, y: usize) -> Counted
    requires { (tree.x + tree.l ≤ 512) × (y + variables_over tree.ceiling.c tree.l ≤ highest) × (variables_over tree.ceiling.c tree.l ≤ length z.old) }
    ensures count_value { result.count ≡ count_over marks.now tree.l tree.x }
    ensures wrote { Wrote (entries_over marks.now tree.ceiling.c tree.l tree.x y) z.old z.new result.entries }
{
    if tree.l < 2 {
        return leaf(marks, tree.x);
    }
    if tree.l == 2 {
        let first = leaf(marks, tree.x);
        let second = leaf(marks, tree.x + 1);
        return write_node(z, tree, y, first, second);
    }
    let left = write_tree(z, marks, tree.left(), y);
    let at = left.entries;
    let right = write_tree(&mut z[at..], marks, tree.right(), y + at);
    write_node(z, tree, y, left, right)
}

// What is added: B, then the tree's own variables. At m 0 that is nothing.
pub fn write_added(z: &mut [i32], s: Shape, ceiling: Ceiling, p: &[u8])
    requires { (length p.now ≡ plan_bytes s.sizes) × (added_variables s.sizes ceiling.c ≤ length z.old) }
    ensures { z.new ≡ filled (busy_entries s.sizes p.now ++ counter_entries s.sizes p.now ceiling.c) z.old }
{
    let k = s.sizes.k;
    let l = s.sizes.m * k;
    if l == 0 {
        return;
    }
    let n = counts::variable_count(s);
    let rest = rest_times(s, p);
    let marks = marks_of(&rest, s.sizes.m, k);
    write_entries(z, l, n, |i| marks[i]);
    let tree = Subtree { ceiling, l, x: 0 };
    write_tree(&mut z[l..], &marks, tree, n + l);
}
