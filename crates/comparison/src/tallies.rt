// The plan check counted in a record. In a case the record stands before the plan: 40 numbers of eight bytes, the plans passed, the
// refusals under 0 to 35, the sum, the least and the greatest cost.
ghost use Rattle.std.specs.Prelude.{◌≤◌, length};

use crate::case::Case;
use crate::lent::mixed;
use crate::outcome::Outcome;
use tally::Tally;

fn record_of(s: &[u8]) -> Tally
    requires { 320 ≤ length s.now }
{
    let mut refused = [0usize; 36];
    for (q, n) in refused.iter_mut().enumerate() {
        *n = numbers::eight_bytes(s, 8 + 8 * q);
    }
    Tally {
        passed: numbers::eight_bytes(s, 0),
        refused,
        sum: numbers::eight_bytes(s, 296),
        least: numbers::eight_bytes(s, 304),
        greatest: numbers::eight_bytes(s, 312),
    }
}

// The hash with the eight bytes of each number more, low byte first.
fn hash_numbers(before: u32, numbers: &[usize]) -> u32 {
    let mut h = before;
    for n in numbers {
        for byte in n.to_le_bytes() {
            h = mixed(h, u32::from(byte));
        }
    }
    h
}

fn hash_record(t: Tally) -> u32 {
    let counts = hash_numbers(hash_numbers(1, &[t.passed]), &t.refused);
    hash_numbers(counts, &[t.sum, t.least, t.greatest])
}

pub fn tally_plan(case: Case) -> Option<Outcome> {
    let s = case.payload;
    if s.len() < 320 {
        return None;
    }
    let (record, plan) = s.split_at(320);
    let r = plan_tally::tally_plan(record_of(record), case.instance, case.m, case.rule, plan);
    Some(Outcome::new(r.answer, hash_record(r.tally)))
}
