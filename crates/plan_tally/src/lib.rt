// The plan check, counted in a record: question 34, then the plan check, of any record, any bytes and any numbers.
#![tactic(auto)]

ghost use Rattle.std.specs.Prelude.{◌≡◌, ◌≤◌, ◌<◌, min};
ghost use Rattle.answers.specs.Returned.{number_of, answer_of};
ghost use Rattle.tally.specs.Tally.{under, total, takes_more, with_pass, with_refusal};
ghost use Rattle.calls.specs.Tally.{tally_answer, tally_record};

use answers::{Reason, Refusal};
use tally::Tally;

// A call's answer, and the record after it.
#[derive(Clone, Copy)]
pub struct Tallied {
    pub answer: Result<usize, Refusal>,
    pub tally: Tally,
}

// The total of the counts, where it is below 65,535. Each count is taken as at most that, so that no sum is too large.
fn total_of(t: &Tally) -> usize
    ensures { min result 65535 ≡ min (total t.now) 65535 }
{
    let mut sum = t.passed.min(65535);
    for count in &t.refused {
        sum += (*count).min(65535);
    }
    sum
}

// Question 34.
fn takes_more(t: &Tally) -> bool
    ensures { result ≡ takes_more t.now }
{
    if total_of(t) < 65535 {
        return t.sum <= 512 * t.passed;
    }
    false
}

// Counts one more plan that passed.
fn count_pass(t: &mut Tally, cost: usize)
    requires { (t.old.passed < 65535) × (t.old.sum < 2147483648) × (cost ≤ 512) }
    ensures { t.new ≡ with_pass t.old cost }
{
    if t.passed == 0 {
        t.least = cost;
        t.greatest = cost;
    }
    t.passed += 1;
    t.sum += cost;
    t.least = t.least.min(cost);
    t.greatest = t.greatest.max(cost);
}

// Counts one more refusal for a reason.
fn count_refusal(t: &mut Tally, reason: Reason)
    requires { under t.old (number_of reason) < 65535 }
    ensures { t.new ≡ with_refusal t.old (number_of reason) }
{
    t.refused[reason.number() as usize] += 1;
}

// The call, for every input. The record goes in by value and comes back, as document 01 and README have it.
pub fn tally_plan(t: Tally, b: &[u8], m: usize, rule: usize, p: &[u8]) -> Tallied
    ensures { (answer_of result.answer ≡ tally_answer b.now m rule p.now t) × (result.tally ≡ tally_record b.now m rule p.now t) }
{
    let mut tally = t;
    if !takes_more(&tally) {
        return Tallied {
            answer: Err(Reason::FullRecord.at(65535)),
            tally,
        };
    }
    let answer = plan_check::check_plan(b, m, rule, p);
    match answer {
        Ok(cost) => count_pass(&mut tally, cost),
        Err(refusal) => count_refusal(&mut tally, refusal.reason),
    }
    Tallied { answer, tally }
}
