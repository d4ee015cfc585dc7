// The writer of the pruned formula: the seven families, then family H. Of an agent, `from` has the distances of the vertices from its
// start, `to` those from its goal.
#![tactic(auto)]

ghost use Rattle.std.specs.Prelude.{◌≡◌, [], ◌∷◌, ◌++◌, ◌≤◌, ◌<◌, length};
ghost use Rattle.lists.specs.Loop.{for, when, each};
ghost use Rattle.lists.specs.Slice.{filled, Wrote};
ghost use Rattle.answers.specs.Returned.{answer_of};
ghost use Rattle.instance.specs.Problem.{checked_of};
ghost use Rattle.formula.specs.Variables.{¬X};
ghost use Rattle.formula.specs.Formula.{line};
ghost use Rattle.formula.specs.Blocks.{held, family};
ghost use Rattle.formula.specs.Pruned.{too_far, pruned};
ghost use Rattle.calls.specs.Calls.{write_answer, write_slice};
ghost use Rattle.pruned_writer.specs.ByTable.{block_by_table, step_by_table, by_table_h};

use answers::Refusal;
use instance::{Problem, Shape};
use variables::{Agent, Step, Vertex};

// Is a vertex at distance x from the start and y from the goal too far at time t? The mark is more than any time.
fn too_far(m: usize, t: usize, x: u8, y: u8) -> bool
    requires { (t ≤ m) × (m ≤ 32) }
    ensures { result ≡ too_far m t x y }
{
    (t < usize::from(x)) | (m - t < usize::from(y))
}

// H, of time t, agent a and vertex v, which is at distance x from the start and y from the goal.
fn write_vertex(f: &mut [i32], s: Shape, t: Step, a: Agent, v: Vertex, x: u8, y: u8) -> usize
    requires t_le_m { (t.0 ≤ s.sizes.m) × (a.0 < s.sizes.k) × (v.0 < s.sizes.n) }
    requires v_in_bounds { length (each line (when (too_far s.sizes.m t.0 x y) ((¬X s.sizes t.0 a.0 v.0 ∷ []) ∷ []))) ≤ length f.old }
    ensures { Wrote (each line (when (too_far s.sizes.m t.0 x y) ((¬X s.sizes t.0 a.0 v.0 ∷ []) ∷ []))) f.old f.new result }
{
    if too_far(s.sizes.m, t.0, x, y) {
        return clauses::put_clause(f, [clauses::negative(s, t, a, v)]);
    }
    0
}

// H, of time t and agent a.
fn write_block(f: &mut [i32], problem: &Problem, table: &[[u8; 64]], t: Step, a: Agent) -> usize
    requires t_le_m { (t.0 ≤ problem.now.shape.sizes.m) × (a.0 < problem.now.shape.sizes.k) × (length table.now ≡ 64) }
    requires a_in_bounds { length (each line (block_by_table problem.now.shape.sizes table.now problem.now.starts problem.now.goals t.0 a.0)) ≤ length f.old }
    ensures { Wrote (each line (block_by_table problem.now.shape.sizes table.now problem.now.starts problem.now.goals t.0 a.0)) f.old f.new result }
{
    let s = problem.shape;
    let from = distance_table::row_for(table, &problem.starts, a.0);
    let to = distance_table::goal_row(table, &problem.goals, a.0);
    clauses::write_each(
        f,
        s.sizes.n,
        |f, v| write_vertex(f, s, t, a, Vertex(v), from[v], to[v]),
    )
}

// H, of time t.
fn write_step(f: &mut [i32], problem: &Problem, table: &[[u8; 64]], t: usize) -> usize
    requires t_le_m { (t ≤ problem.now.shape.sizes.m) × (length table.now ≡ 64) }
    requires t_in_bounds { length (each line (step_by_table problem.now.shape.sizes table.now problem.now.starts problem.now.goals t)) ≤ length f.old }
    ensures { Wrote (each line (step_by_table problem.now.shape.sizes table.now problem.now.starts problem.now.goals t)) f.old f.new result }
{
    clauses::write_each(
        f,
        problem.shape.sizes.k,
        |f, a| write_block(f, problem, table, Step(t), Agent(a)),
    )
}

// H.
fn write_h(f: &mut [i32], problem: &Problem, table: &[[u8; 64]]) -> usize
    requires table_len { length table.now ≡ 64 }
    requires table_in_bounds { length (each line (by_table_h problem.now.shape.sizes table.now problem.now.starts problem.now.goals)) ≤ length f.old }
    ensures { Wrote (each line (by_table_h problem.now.shape.sizes table.now problem.now.starts problem.now.goals)) f.old f.new result }
{
    let times = problem.shape.sizes.m + 1;
    clauses::write_each(f, times, |f, t| write_step(f, problem, table, t))
}

// The seven families of a checked instance, then H, to a slice with room for all.
fn write_all(f: &mut [i32], problem: &Problem, table: &[[u8; 64]])
    requires table_len { length table.now ≡ 64 }
    requires table_in_bounds { length (each line (for 7 (family (held (checked_of problem.now))) ++ by_table_h problem.now.shape.sizes table.now problem.now.starts problem.now.goals)) ≤ length f.old }
    ensures { f.new ≡ filled (each line (for 7 (family (held (checked_of problem.now))) ++ by_table_h problem.now.shape.sizes table.now problem.now.starts problem.now.goals)) f.old }
{
    let at = formula_writer::write_words(f, problem);
    write_h(&mut f[at..], problem, table);
}

// Questions 1 to 10, 31 and 12. A refusal changes no word of the slice.
pub fn write_pruned(b: &[u8], m: usize, rule: usize, f: &mut [i32]) -> Result<usize, Refusal>
    ensures value { answer_of result ≡ write_answer pruned b.now m rule (length f.old) }
    ensures f_after { f.new ≡ write_slice pruned b.now m rule f.old }
{
    let problem = instance_check::check_instance(b, m, rule)?;
    let s = problem.shape;
    let table = distance_table::table_of(&problem.near, s.sizes.n);
    let more = formula_size::count_h(&problem, &table);
    let needed = formula_size::pruned_words(s, more);
    formula_writer::ask_room(needed, f.len())?;
    write_all(f, &problem, &table);
    Ok(0)
}
