// The decoder with a ceiling: from a list of entries of all variables to the plan that it names, which costs at most c. The base
// formula's entries stand first, and its clauses are asked of them alone; what the ceiling adds comes behind.
#![tactic(auto)]

ghost use Rattle.std.specs.Prelude.{◌≡◌, ℕ, ◌≤◌, ◌<◌, T, length, take, IsNone, IfOk};
ghost use Rattle.answers.specs.Answers.{decide};
ghost use Rattle.answers.specs.Returned.{answer_of};
ghost use Rattle.answers.specs.Fault.{FirstFailing};
ghost use Rattle.instance.specs.Instance.{Instance, Edges, Endpoints};
ghost use Rattle.instance.specs.Problem.{ShowsAll};
ghost use Rattle.formula.specs.Variables.{variable_count};
ghost use Rattle.plan.specs.Plan.{plan_bytes};
ghost use Rattle.valuation.specs.Valuation.{right_entry, named_plan};
ghost use Rattle.valuation.specs.Satisfying.{Valuation};
ghost use Rattle.satisfaction.specs.Rows.{Failing, Read};
ghost use Rattle.ceiling.specs.Ceiling.{ceiling_variables, under_ceiling};
ghost use Rattle.ceiling_decoder.specs.Shown.{Shown};
ghost use Rattle.calls.specs.Calls.{decode_rest};
ghost use Rattle.calls.specs.Ceiling.{ceiling_decode_answer, ceiling_decode_slice};

use answers::{Reason, Refusal};
use counting::Ceiling;
use instance::{Problem, Shape};
use variables::Variable;

// Is each entry from `low` on its variable or its negative? The loop has one way out, so that the compiler may take several at once; an
// index, since a closure would be asked of numbers that are no variable's.
fn all_right(entries: &[i32], low: usize) -> bool
    requires { (low ≤ length entries.now) × (length entries.now ≤ 38912) }
    ensures { T result → (i : ℕ) → low ≤ i → i < length entries.now → T (right_entry entries.now i) }
{
    let end = entries.len();
    let mut all = true;
    for i in low..end {
        let e = entries[i];
        all = all & variables::is_entry(e, Variable(i + 1));
    }
    all
}

// The first wrong entry of all. Where none is wrong, `vertices` is left with the vertex of each time and agent.
fn entry_fault(vertices: &mut [u8], entries: &[i32], s: Shape) -> Option<usize>
    requires { (variable_count s.sizes ≤ length entries.now) × (length entries.now ≤ 38912) × (length vertices.old ≡ 528) }
    ensures first_wrong { FirstFailing (length entries.now) (right_entry entries.now) result }
    ensures vertices_len { length vertices.new ≡ 528 }
    ensures read { IsNone result → Read s.sizes (take (variable_count s.sizes) entries.now) (take (plan_bytes s.sizes) vertices.new) }
{
    let count = counts::variable_count(s);
    if let Some(wrong) = satisfaction::read_entries(vertices, &entries[..count], s) {
        return Some(wrong);
    }
    if all_right(entries, count) {
        return None;
    }
    satisfaction::first_wrong(entries, count, entries.len())
}

// The first clause without a true literal, of the base formula's and those added.
fn clause_fault(problem: &Problem, ceiling: Ceiling, entries: &[i32], p: &[u8]) -> Option<usize>
    requires shown { Shown problem.now.shape.sizes problem.now.starts problem.now.goals problem.now.near }
    requires valuation { Valuation (ceiling_variables problem.now.shape.sizes ceiling.c) entries.now × Read problem.now.shape.sizes (take (variable_count problem.now.shape.sizes) entries.now) p.now }
    ensures { (I : Instance) → ShowsAll I problem.now → Endpoints I → Edges I → Failing entries.now (under_ceiling ceiling.c I).clauses result }
{
    let n = counts::variable_count(problem.shape);
    if let Some(fault) = satisfaction::clause_fault(problem, &entries[..n], p) {
        return Some(fault);
    }
    let count = counts::clause_count(problem.shape);
    match added_satisfaction::added_fault(problem.shape, ceiling, entries, p) {
        Ok(_) => None,
        Err(place) => Some(count + place),
    }
}

// Questions 14, 15, 23 and 24, for a plan slice of the given size: the plan's bytes. Where they are passed, the plan stands first in
// `vertices`.
fn ask_entries(
    vertices: &mut [u8],
    problem: &Problem,
    ceiling: Ceiling,
    entries: &[i32],
    size: usize,
) -> Result<usize, Refusal>
    requires shown { Shown problem.now.shape.sizes problem.now.starts problem.now.goals problem.now.near }
    requires vertices_len { length vertices.old ≡ 528 }
    ensures value { (I : Instance) → ShowsAll I problem.now → Endpoints I → Edges I → (answer_of result ≡ decide (decode_rest I (under_ceiling ceiling.c I) entries.now size) (plan_bytes I.sizes)) × IfOk result (λ bytes. (bytes ≡ plan_bytes problem.now.shape.sizes) × (take (plan_bytes problem.now.shape.sizes) vertices.new ≡ named_plan problem.now.shape.sizes entries.now)) }
    ensures vertices_len_2 { length vertices.new ≡ 528 }
{
    let len = entries.len();
    if len != ceiling_size::variables(problem.shape, ceiling) {
        return Err(Reason::ValuationLength.at(len));
    }
    let bytes = counts::plan_bytes(problem.shape);
    if size < bytes {
        return Err(Reason::PlanRoom.at(bytes));
    }
    if let Some(wrong) = entry_fault(vertices, entries, problem.shape) {
        return Err(Reason::WrongEntry.at(wrong));
    }
    if let Some(fault) = clause_fault(problem, ceiling, entries, &vertices[..bytes]) {
        return Err(Reason::FalseClause.at(fault));
    }
    Ok(bytes)
}

// The call, for every byte string, every three numbers, every list of entries and every slice.
pub fn decode_ceiling(
    b: &[u8],
    m: usize,
    rule: usize,
    c: usize,
    entries: &[i32],
    plan: &mut [u8],
) -> Result<usize, Refusal>
    ensures value { answer_of result ≡ ceiling_decode_answer b.now m rule c entries.now (length plan.old) }
    ensures plan_after { plan.new ≡ ceiling_decode_slice b.now m rule c entries.now plan.old }
{
    let (problem, ceiling) = ceiling_size::check_ceiling(b, m, rule, c)?;
    let mut vertices = [0u8; 528];
    let bytes = ask_entries(&mut vertices, &problem, ceiling, entries, plan.len())?;
    plan[..bytes].copy_from_slice(&vertices[..bytes]);
    Ok(bytes)
}
