// Question 24 with a ceiling: the first clause without a true literal among those that the ceiling adds, in their order. The plan is
// known, so of an agent and a step only one moving can fail: that of the vertex that the agent leaves.
#![tactic(auto)]

mod assignment;
mod tree;

ghost use Rattle.std.specs.Prelude.{◌≡◌, ◌||◌, [], ◌∷◌, ◌++◌, ◌+◌, ◌*◌, ◌≤◌, ◌<◌, min, length, get_or, ltb, eqb};
ghost use Rattle.lists.specs.Loop.{when};
ghost use Rattle.formula.specs.Variables.{variable_count};
ghost use Rattle.plan.specs.Plan.{plan_bytes, plan_row};
ghost use Rattle.valuation.specs.Valuation.{true?};
ghost use Rattle.valuation.specs.Satisfying.{Valuation};
ghost use Rattle.valuation.specs.Places.{Places};
ghost use Rattle.ceiling.specs.Tree.{on, off};
ghost use Rattle.ceiling.specs.Ceiling.{moves, chain, counters, limit, added_clauses, ceiling_variables};
ghost use Rattle.counting.specs.Over.{variables_over, before_outputs};
ghost use Rattle.added_satisfaction.specs.Search.{Searched};

use assignment::Assignment;
use counting::{Ceiling, Subtree};
use instance::Shape;
use tree::tree_fault;

// Does the agent of byte i of the plan keep its vertex in the step, or is the variable true?
fn keeps_or(of: Assignment, p: &[u8], k: usize, i: usize, z: usize) -> bool
    requires k_in_bounds { i + k < length p.now }
    requires z_bound { (1 ≤ z) × (z ≤ length of.entries.now) }
    ensures { result ≡ (eqb (get_or p.now i 0) (get_or p.now (i + k) 0) || true? of.entry.entries.now (on z)) }
{
    p[i] == p[i + k] || of.is_true(z)
}

// The moves: the first agent and step with the vertex left and B false, and of its moves that of the vertex.
// By index: a byte is of its place, of the one a row on and of a variable.
fn moves_fault(s: Shape, of: Assignment, p: &[u8]) -> Result<usize, usize>
    requires entries_len { variable_count s.sizes + s.sizes.m * s.sizes.k ≤ length of.entries.now }
    requires p_len { (length p.now ≡ plan_bytes s.sizes) × Places s.sizes (true? of.entries.now) (plan_row s.sizes p.now) }
    ensures { Searched of.entry.entries.now (moves s.sizes) result }
{
    let n = s.sizes.n;
    let k = s.sizes.k;
    let count = s.sizes.m * k;
    let first = counts::variable_count(s) + 1;
    for i in 0..count {
        if !keeps_or(of, p, k, i, first + i) {
            return Err(i * n + usize::from(p[i]));
        }
    }
    Ok(count * n)
}

// The chain: the first B that is false where the agent's next is true.
fn chain_fault(s: Shape, of: Assignment) -> Result<usize, usize>
    requires m_nonzero { 1 ≤ s.sizes.m }
    requires entries_len { variable_count s.sizes + s.sizes.m * s.sizes.k ≤ length of.entries.now }
    ensures { Searched of.entry.entries.now (chain s.sizes) result }
{
    let k = s.sizes.k;
    let size = (s.sizes.m - 1) * k;
    let first = counts::variable_count(s) + 1;
    for i in 0..size {
        if !of.implies(first + i + k, first + i) {
            return Err(i);
        }
    }
    Ok(size)
}

// The limit on a tree whose own variables end at `next`: one clause, or none.
fn limit_fault(of: Assignment, tree: Subtree, next: usize) -> Result<usize, usize>
    requires bounds { (tree.x + tree.l ≤ length of.entries.now) × (next ≤ length of.entries.now) }
    requires outputs_within { 2 ≤ tree.l → min tree.l (tree.ceiling.c + 1) ≤ next }
    ensures { Searched of.entry.entries.now (when (ltb tree.ceiling.c tree.l) ((off (before_outputs tree.ceiling.c tree.l tree.x next + (tree.ceiling.c + 1)) ∷ []) ∷ [])) result }
{
    if tree.l <= tree.ceiling.c {
        return Ok(0);
    }
    if of.is_true(tree.before_outputs(next) + (tree.ceiling.c + 1)) {
        return Err(0);
    }
    Ok(1)
}

// The clauses of the counting tree, and the limit.
fn counted_fault(s: Shape, ceiling: Ceiling, of: Assignment) -> Result<usize, usize>
    requires m_nonzero { 1 ≤ s.sizes.m }
    requires entries_len { variable_count s.sizes + s.sizes.m * s.sizes.k + variables_over ceiling.c (s.sizes.m * s.sizes.k) ≤ length of.entries.now }
    ensures { Searched of.entry.entries.now (counters s.sizes ceiling.c ++ limit s.sizes ceiling.c) result }
{
    let tree = Subtree {
        ceiling,
        l: s.sizes.m * s.sizes.k,
        x: counts::variable_count(s),
    };
    let passed = tree_fault(of, tree, tree.x + tree.l)?;
    match limit_fault(of, tree, passed.next) {
        Ok(size) => Ok(passed.size + size),
        Err(place) => Err(passed.size + place),
    }
}

// The number of the added clauses, or the place of the first without a true literal.
pub fn added_fault(s: Shape, ceiling: Ceiling, entries: &[i32], p: &[u8]) -> Result<usize, usize>
    requires valuation { Valuation (ceiling_variables s.sizes ceiling.c) entries.now }
    requires p_len { (length p.now ≡ plan_bytes s.sizes) × Places s.sizes (true? entries.now) (plan_row s.sizes p.now) }
    ensures { Searched entries.now (added_clauses s.sizes ceiling.c) result }
{
    if s.sizes.m == 0 {
        return Ok(0);
    }
    let of = Assignment { entries };
    let moves = moves_fault(s, of, p)?;
    let before = match chain_fault(s, of) {
        Ok(chain) => moves + chain,
        Err(place) => return Err(moves + place),
    };
    match counted_fault(s, ceiling, of) {
        Ok(size) => Ok(before + size),
        Err(place) => Err(before + place),
    }
}
