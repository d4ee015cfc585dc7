// The plan check: questions 1 to 10, 31, 13 and 17 to 22, of any bytes and any numbers given as horizon and rule.
#![tactic(auto)]

ghost use Rattle.std.specs.Prelude.{◌≡◌, suc, ◌+◌, ◌-◌, ◌<◌, ◌≤◌, length, get_or, T, ltb, eqb, ◌||◌, ◌≢◌};
ghost use Rattle.lists.specs.Loop.{for};
ghost use Rattle.answers.specs.Answers.{decide};
ghost use Rattle.answers.specs.Returned.{number_of, asked, answer_of};
ghost use Rattle.answers.specs.Fault.{FirstFailing};
ghost use Rattle.plan.specs.Plan.{row, plan_bytes, plan_row, condition2, occupant_leaves, rest_time, cost};
ghost use Rattle.calls.specs.Questions.{occupied_number, second_number};
ghost use Rattle.calls.specs.Calls.{step_questions, plan_questions, check_answer};
ghost use Rattle.instance.specs.Instance.{Instance, free};
ghost use Rattle.instance.specs.Shows.{Shows, ShowsGraph};
ghost use Rattle.conditions.specs.Inside.{Inside};

use answers::{Reason, Refusal};
use conditions::Condition;
use instance::{Shape, Sizes};

// Under rule 1 the reason for which agent a is refused, which enters an occupied vertex in step t: by what the occupant does.
fn occupied_reason(s: Sizes, p: &[u8], t: usize, a: usize) -> Reason
    requires p_len { (length p.now ≡ plan_bytes s) × (t < s.m) × (a < s.k) }
    requires rule_nonzero { (s.rule ≢ 2) × (T (condition2 s (plan_row s p.now t) (plan_row s p.now (suc t)) a) → ⊥) }
    ensures { number_of result ≡ occupied_number (occupant_leaves s (plan_row s p.now t) (plan_row s p.now (suc t)) a) }
{
    let row = t * s.k;
    let next = row + s.k;
    let old = p[row + a];
    let entered = p[next + a];
    let Some(occupant) = conditions::first_on(&p[row..next], entered) else {
        unreachable!()
    };
    let end = p[next + occupant];
    if end == entered {
        return Reason::Occupied;
    }
    if end == old {
        return Reason::Exchange;
    }
    Reason::ClosingUp
}

// That for agent a, which fails condition 2 in step t: under rule 2 it exchanges vertices with another.
fn second_reason(s: Sizes, p: &[u8], t: usize, a: usize) -> Reason
    requires p_len { (length p.now ≡ plan_bytes s) × (t < s.m) × (a < s.k) }
    requires fact { T (condition2 s (plan_row s p.now t) (plan_row s p.now (suc t)) a) → ⊥ }
    ensures { number_of result ≡ second_number s (plan_row s p.now t) (plan_row s p.now (suc t)) a }
{
    if s.rule != 2 {
        return occupied_reason(s, p, t, a);
    }
    Reason::Exchange
}

// Questions 19 to 21 of step t.
fn ask_step(s: Sizes, near: &[u64; 64], p: &[u8], t: usize) -> Result<(), Refusal>
    requires { (length p.now ≡ plan_bytes s) × (t < s.m) × Inside p.now }
    ensures { (I : Instance) → ShowsGraph I s near.now → asked result ≡ decide (step_questions I p.now t) 0 }
{
    let next = (t + 1) * s.k;
    if let Some(a) = conditions::step_fault(s, near, Condition::Crossing, p, t) {
        return Err(Reason::Jump.at(next + a));
    }
    if let Some(a) = conditions::step_fault(s, near, Condition::Entering, p, t) {
        return Err(second_reason(s, p, t, a).at(next + a));
    }
    if let Some(a) = conditions::step_fault(s, near, Condition::Sharing, p, t) {
        return Err(Reason::Shared.at(next + a));
    }
    Ok(())
}

// Questions 19 to 21 of each step, step by step.
fn ask_steps(s: Sizes, near: &[u64; 64], p: &[u8]) -> Result<(), Refusal>
    requires { (length p.now ≡ plan_bytes s) × Inside p.now }
    ensures { (I : Instance) → ShowsGraph I s near.now → asked result ≡ decide (for s.m (step_questions I p.now)) 0 }
{
    for t in 0..s.m {
        ask_step(s, near, p, t)?;
    }
    Ok(())
}

// The first byte of the plan that is no vertex.
fn byte_fault(p: &[u8], n: usize) -> Option<usize>
    ensures { FirstFailing (length p.now) (λ i. ltb (get_or p.now i 0) n) result }
{
    p.iter().position(|v| n <= usize::from(*v))
}

// The first agent of a row that is not at its start.
fn start_fault(here: &[u8], starts: &[u8; 16]) -> Option<usize>
    requires { length here.now ≤ 16 }
    ensures { FirstFailing (length here.now) (λ a. eqb (row here.now a) (get_or starts.now a 0)) result }
{
    here.iter().zip(starts).position(|(v, start)| *v != *start)
}

// The first agent of a row that is not at its goal. Free agents are passed over.
fn goal_fault(here: &[u8], goals: &[u8; 16]) -> Option<usize>
    requires { length here.now ≤ 16 }
    ensures { FirstFailing (length here.now) (λ a. free (get_or goals.now a 0) || eqb (row here.now a) (get_or goals.now a 0)) result }
{
    here.iter()
        .zip(goals)
        .position(|(v, goal)| !(goals::is_free(*goal) | (*v == *goal)))
}

// Questions 17 to 22 of a plan of the right length; its count is 0. It is lent the parts of a problem one by one, since
// `encoder::ask_encoding`, which docs/DECISIONS.md names, asks no more of them than the limits.
pub fn ask_plan(
    s: Shape,
    starts: &[u8; 16],
    goals: &[u8; 16],
    near: &[u64; 64],
    p: &[u8],
) -> Result<(), Refusal>
    requires { length p.now ≡ plan_bytes s.sizes }
    ensures { (I : Instance) → Shows I s.sizes starts.now goals.now near.now → asked result ≡ decide (plan_questions I p.now) 0 }
{
    let Sizes { n, k, m, .. } = s.sizes;
    if let Some(i) = byte_fault(p, n) {
        return Err(Reason::NoVertex.at(i));
    }
    if let Some(a) = start_fault(&p[..k], starts) {
        return Err(Reason::NotAtStart.at(a));
    }
    ask_steps(s.sizes, near, p)?;
    let last = m * k;
    if let Some(a) = goal_fault(&p[last..], goals) {
        return Err(Reason::NotAtGoal.at(last + a));
    }
    Ok(())
}

// The time until rest of agent a in the first `rows` rows: where its last move there ends, or 0.
pub fn rest_time(s: Sizes, p: &[u8], rows: usize, a: usize) -> usize
    requires { (length p.now ≡ plan_bytes s) × (rows ≤ s.m + 1) × (a < s.k) }
    ensures { result ≡ rest_time (rows - 1) (plan_row s p.now) a }
{
    let mut rest = 0;
    let steps = rows.saturating_sub(1);
    for t in 0..steps {
        let row = t * s.k;
        let next = row + s.k;
        if p[row + a] != p[next + a] {
            rest = t + 1;
        }
    }
    rest
}

// The plan's cost: the sum of its agents' times until rest.
pub fn plan_cost(s: Shape, p: &[u8]) -> usize
    requires { length p.now ≡ plan_bytes s.sizes }
    ensures { result ≡ cost s.sizes p.now }
{
    let rows = s.sizes.m + 1;
    let mut cost = 0;
    for a in 0..s.sizes.k {
        cost += rest_time(s.sizes, p, rows, a);
    }
    cost
}

// The plan check, for every input: the plan's cost, or number and place of the first no.
pub fn check_plan(b: &[u8], m: usize, rule: usize, p: &[u8]) -> Result<usize, Refusal>
    ensures { answer_of result ≡ check_answer b.now m rule p.now }
{
    let problem = instance_check::check_instance(b, m, rule)?;
    if p.len() != counts::plan_bytes(problem.shape) {
        return Err(Reason::PlanLength.at(p.len()));
    }
    ask_plan(
        problem.shape,
        &problem.starts,
        &problem.goals,
        &problem.near,
        p,
    )?;
    Ok(plan_cost(problem.shape, p))
}
