// The encoder: the valuation of a plan.
#![tactic(auto)]

ghost use Rattle.std.specs.Prelude.{◌≡◌, cond, [], ◌∷◌, ◌+◌, ◌≤◌, length, eqb, pos, neg_ℤ, IfOk};
ghost use Rattle.lists.specs.Loop.{for};
ghost use Rattle.lists.specs.Slice.{filled};
ghost use Rattle.formula.specs.Variables.{variable_count, highest};
ghost use Rattle.answers.specs.Answers.{decide};
ghost use Rattle.answers.specs.Returned.{answered, answer_of};
ghost use Rattle.plan.specs.Plan.{plan_bytes};
ghost use Rattle.valuation.specs.Valuation.{plan_valuation};
ghost use Rattle.instance.specs.Instance.{Instance};
ghost use Rattle.instance.specs.Shows.{Shows};
ghost use Rattle.calls.specs.Calls.{encode_rest, encode_answer, encode_slice};

use answers::{Reason, Refusal};
use instance::{Shape, Sizes};
use variables::{Agent, Step, Variable, Vertex};

// The entries of an agent at one time, for the n variables from `first` on: the negatives of all, then the one that is true.
fn write_agent(z: &mut [i32], n: usize, first: Variable, at: Vertex)
    requires { (first.0 + n ≤ highest) × (n ≤ length z.old) }
    ensures { z.new ≡ filled (for n λ v. cond (eqb at.0 v) (pos (first.0 + v)) (neg_ℤ (pos (first.0 + v))) ∷ []) z.old }
{
    let vertex = at.0;
    // By index: v is the place and in the variable's number. Without a branch, so that the compiler takes several entries at a time.
    for v in 0..n {
        z[v] = variables::negation_after(first, v);
    }
    if vertex < n {
        z[vertex] = variables::literal_of(Variable(first.0 + vertex));
    }
}

// The valuation of a plan, first in the slice: one agent after another and one time after another.
pub fn write_valuation(z: &mut [i32], s: Shape, p: &[u8])
    requires { (length p.now ≡ plan_bytes s.sizes) × (variable_count s.sizes ≤ length z.old) }
    ensures { z.new ≡ filled (plan_valuation s.sizes p.now) z.old }
{
    let Sizes { n, k, m, .. } = s.sizes;
    let rows = m + 1;
    // By index: the plan's bytes stand time by time, the entries agent by agent.
    for a in 0..k {
        for t in 0..rows {
            let at = variables::first_entry(s, Step(t), Agent(a));
            let vertex = Vertex(usize::from(p[t * k + a]));
            write_agent(&mut z[at..], n, Variable(at + 1), vertex);
        }
    }
}

// Questions 13, 16 and 17 to 22, for a valuation of so many variables and a slice of the given size.
pub fn ask_encoding(
    count: usize,
    s: Shape,
    starts: &[u8; 16],
    goals: &[u8; 16],
    near: &[u64; 64],
    p: &[u8],
    size: usize,
) -> Result<(), Refusal>
    ensures value { (I : Instance) → Shows I s.sizes starts.now goals.now near.now → answered (λ _. count) result ≡ decide (encode_rest I count p.now size) count }
    ensures p_len { IfOk result (λ _. (length p.now ≡ plan_bytes s.sizes) × (count ≤ size)) }
{
    if p.len() != counts::plan_bytes(s) {
        return Err(Reason::PlanLength.at(p.len()));
    }
    if size < count {
        return Err(Reason::ValuationRoom.at(count));
    }
    plan_check::ask_plan(s, starts, goals, near, p)
}

// The call, for every byte string, every two numbers, all bytes given as a plan and every slice. The count is that of the variables.
pub fn encode(b: &[u8], m: usize, rule: usize, p: &[u8], z: &mut [i32]) -> Result<usize, Refusal>
    ensures value { answer_of result ≡ encode_answer b.now m rule p.now (length z.old) }
    ensures z_after { z.new ≡ encode_slice b.now m rule p.now z.old }
{
    let problem = instance_check::check_instance(b, m, rule)?;
    let s = problem.shape;
    let count = counts::variable_count(s);
    ask_encoding(
        count,
        s,
        &problem.starts,
        &problem.goals,
        &problem.near,
        p,
        z.len(),
    )?;
    write_valuation(z, s, p);
    Ok(count)
}
