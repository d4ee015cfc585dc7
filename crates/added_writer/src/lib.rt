// The words of what a ceiling adds to the formula: moves, chain, the counting tree and its limit. B(t,a) says that agent a is not
// yet at rest at time t. And the words of the whole formula with a ceiling.
#![tactic(auto)]

ghost use Rattle.std.specs.Prelude.{◌≡◌, ◌++◌, ◌+◌, ◌*◌, ◌≤◌, ◌<◌, length};
ghost use Rattle.lists.specs.Loop.{for, each};
ghost use Rattle.lists.specs.Slice.{filled, Wrote};
ghost use Rattle.instance.specs.Problem.{checked_of};
ghost use Rattle.formula.specs.Variables.{variable_count, highest};
ghost use Rattle.formula.specs.Formula.{line};
ghost use Rattle.formula.specs.Blocks.{held, family};
ghost use Rattle.ceiling.specs.Ceiling.{busy_number, moves, chain, counters, limit, added_clauses};
ghost use Rattle.counting.specs.Over.{variables_over};
ghost use Rattle.added_writer.specs.Moves.{agent_moves, step_moves};

use counting::{Ceiling, Subtree};
use instance::{Problem, Shape, Sizes};
use variables::{Agent, Step, Variable, Vertex};

// The variable B(t,a).
fn busy(s: Shape, t: Step, a: Agent) -> Variable
    requires { (t.0 < s.sizes.m) × (a.0 < s.sizes.k) }
    ensures { (result.0 ≡ busy_number s.sizes t.0 a.0) × (result.0 ≤ highest) }
{
    Variable(counts::variable_count(s) + t.0 * s.sizes.k + a.0 + 1)
}

// The moves of time t and agent a.
fn write_block(f: &mut [i32], s: Shape, t: Step, a: Agent) -> usize
    requires t_lt_m { (t.0 < s.sizes.m) × (a.0 < s.sizes.k) }
    requires a_in_bounds { length (each line (agent_moves s.sizes t.0 a.0)) ≤ length f.old }
    ensures { Wrote (each line (agent_moves s.sizes t.0 a.0)) f.old f.new result }
{
    let next = Step(t.0 + 1);
    let z = variables::literal_of(busy(s, t, a));
    clauses::write_each(f, s.sizes.n, |f, v| {
        let literals = [
            clauses::negative(s, t, a, Vertex(v)),
            clauses::positive(s, next, a, Vertex(v)),
            z,
        ];
        clauses::put_clause(f, literals)
    })
}

// The moves of time t.
fn write_step(f: &mut [i32], s: Shape, t: Step) -> usize
    requires t_lt_m { t.0 < s.sizes.m }
    requires t_in_bounds { length (each line (step_moves s.sizes t.0)) ≤ length f.old }
    ensures { Wrote (each line (step_moves s.sizes t.0)) f.old f.new result }
{
    clauses::write_each(f, s.sizes.k, |f, a| write_block(f, s, t, Agent(a)))
}

// The moves.
fn write_moves(f: &mut [i32], s: Shape) -> usize
    requires { length (each line (moves s.sizes)) ≤ length f.old }
    ensures { Wrote (each line (moves s.sizes)) f.old f.new result }
{
    clauses::write_each(f, s.sizes.m, |f, t| write_step(f, s, Step(t)))
}

// The chain, in the order of its clauses: a B of the next time stands k behind.
fn write_chain(f: &mut [i32], s: Shape) -> usize
    requires m_nonzero { 0 < s.sizes.m }
    requires s_in_bounds { length (each line (chain s.sizes)) ≤ length f.old }
    ensures { Wrote (each line (chain s.sizes)) f.old f.new result }
{
    let Sizes { k, m, .. } = s.sizes;
    let first = counts::variable_count(s) + 1;
    clauses::write_each(f, (m - 1) * k, |f, i| {
        let literals = [
            variables::negation_of(Variable(first + i + k)),
            variables::literal_of(Variable(first + i)),
        ];
        clauses::put_clause(f, literals)
    })
}

// The limit, where the tree's variables end at `next`.
fn write_limit(f: &mut [i32], s: Shape, ceiling: Ceiling, next: usize) -> usize
    requires next_value { next ≡ variable_count s.sizes + s.sizes.m * s.sizes.k + variables_over ceiling.c (s.sizes.m * s.sizes.k) }
    requires c_in_bounds { length (each line (limit s.sizes ceiling.c)) ≤ length f.old }
    ensures { Wrote (each line (limit s.sizes ceiling.c)) f.old f.new result }
{
    let c = ceiling.c;
    let l = s.sizes.m * s.sizes.k;
    if l <= c {
        return 0;
    }
    let tree = Subtree {
        ceiling,
        l,
        x: counts::variable_count(s),
    };
    let before = tree.before_outputs(next);
    clauses::put_clause(f, [variables::negation_of(Variable(before + c + 1))])
}

// The tree that counts the B, and the limit.
fn write_counters(f: &mut [i32], s: Shape, ceiling: Ceiling) -> usize
    requires m_nonzero { 0 < s.sizes.m }
    requires c_in_bounds { length (each line (counters s.sizes ceiling.c ++ limit s.sizes ceiling.c)) ≤ length f.old }
    ensures { Wrote (each line (counters s.sizes ceiling.c ++ limit s.sizes ceiling.c)) f.old f.new result }
{
    let l = s.sizes.m * s.sizes.k;
    let first = counts::variable_count(s);
    let inputs = Subtree {
        ceiling,
        l,
        x: first,
    };
    let tree = tree_writer::write_tree(f, inputs, first + l);
    let at = tree.words;
    at + write_limit(&mut f[at..], s, ceiling, tree.next)
}

// All that a ceiling adds, to a slice with room for it. With the horizon 0 it is nothing.
pub fn write_added(f: &mut [i32], s: Shape, ceiling: Ceiling)
    requires { length (each line (added_clauses s.sizes ceiling.c)) ≤ length f.old }
    ensures { f.new ≡ filled (each line (added_clauses s.sizes ceiling.c)) f.old }
{
    if s.sizes.m == 0 {
        return;
    }
    let moved = write_moves(f, s);
    let chained = moved + write_chain(&mut f[moved..], s);
    write_counters(&mut f[chained..], s, ceiling);
}

// The seven families of a problem, then what a ceiling adds, to a slice with room for all.
pub fn write_all(f: &mut [i32], problem: &Problem, ceiling: Ceiling)
    requires { length (each line (for 7 (family (held (checked_of problem.now))) ++ added_clauses problem.now.shape.sizes ceiling.c)) ≤ length f.old }
    ensures { f.new ≡ filled (each line (for 7 (family (held (checked_of problem.now))) ++ added_clauses problem.now.shape.sizes ceiling.c)) f.old }
{
    let at = formula_writer::write_words(f, problem);
    write_added(&mut f[at..], problem.shape, ceiling);
}
