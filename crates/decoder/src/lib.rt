// The decoder: from a list of entries, of any length and with any numbers, to the plan that it names.
#![tactic(auto)]

ghost use Rattle.std.specs.Prelude.{◌≡◌, length, take, IfOk};
ghost use Rattle.answers.specs.Answers.{decide};
ghost use Rattle.answers.specs.Returned.{answer_of};
ghost use Rattle.formula.specs.Formula.{formula};
ghost use Rattle.plan.specs.Plan.{plan_bytes};
ghost use Rattle.valuation.specs.Valuation.{named_plan};
ghost use Rattle.instance.specs.Instance.{Instance, Edges};
ghost use Rattle.instance.specs.Problem.{ShowsAll};
ghost use Rattle.calls.specs.Calls.{decode_rest, decode_answer, decode_slice};

use answers::{Reason, Refusal};
use instance::Problem;

// Questions 14, 15, 23 and 24, for a plan slice of the given size: the plan's bytes. Where they are passed, the plan stands first in
// `vertices`.
fn ask_entries(
    vertices: &mut [u8],
    problem: &Problem,
    entries: &[i32],
    size: usize,
) -> Result<usize, Refusal>
    requires { length vertices.old ≡ 528 }
    ensures value { (I : Instance) → ShowsAll I problem.now → Edges I → (answer_of result ≡ decide (decode_rest I (formula I) entries.now size) (plan_bytes I.sizes)) × IfOk result (λ bytes. (bytes ≡ plan_bytes problem.now.shape.sizes) × (take (plan_bytes problem.now.shape.sizes) vertices.new ≡ named_plan problem.now.shape.sizes entries.now)) }
    ensures vertices_len { length vertices.new ≡ 528 }
{
    let len = entries.len();
    if len != counts::variable_count(problem.shape) {
        return Err(Reason::ValuationLength.at(len));
    }
    let bytes = counts::plan_bytes(problem.shape);
    if size < bytes {
        return Err(Reason::PlanRoom.at(bytes));
    }
    if let Some(wrong) = satisfaction::read_entries(vertices, entries, problem.shape) {
        return Err(Reason::WrongEntry.at(wrong));
    }
    if let Some(fault) = satisfaction::clause_fault(problem, entries, &vertices[..bytes]) {
        return Err(Reason::FalseClause.at(fault));
    }
    Ok(bytes)
}

// The call, for every byte string, every two numbers, every list of entries and every slice.
pub fn decode(
    b: &[u8],
    m: usize,
    rule: usize,
    entries: &[i32],
    plan: &mut [u8],
) -> Result<usize, Refusal>
    ensures value { answer_of result ≡ decode_answer b.now m rule entries.now (length plan.old) }
    ensures plan_after { plan.new ≡ decode_slice b.now m rule entries.now plan.old }
{
    let problem = instance_check::check_instance(b, m, rule)?;
    let mut vertices = [0u8; 528];
    let bytes = ask_entries(&mut vertices, &problem, entries, plan.len())?;
    plan[..bytes].copy_from_slice(&vertices[..bytes]);
    Ok(bytes)
}
