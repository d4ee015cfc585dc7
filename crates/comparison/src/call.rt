// The call of a case.
ghost use Rattle.std.specs.Prelude.{◌≤◌, length};

use crate::case::{Case, Kind, read_entries};
use crate::lent::lending;
use crate::outcome::Outcome;
use crate::tallies::tally_plan;

// Runs a case. `words` and `plan` hold the slices that are lent, of at most 40,000 entries. None where it is skipped.
pub fn run(case: Case, words: &mut [i32], plan: &mut [u8]) -> Option<Outcome>
    requires { 40000 ≤ length words.old }
{
    let m = case.m;
    let rule = case.rule;
    let number = case.number;
    let lent = case.lent;
    let b = case.instance;
    let s = case.payload;
    match case.kind? {
        Kind::Writer => lending(
            words,
            lent,
            |z| formula_writer::write_formula(b, m, rule, z),
        ),
        Kind::Clause => lending(words, lent, |z| one_clause::clause(b, m, rule, number, z)),
        Kind::PlanCheck => Some(Outcome::from(plan_check::check_plan(b, m, rule, s))),
        Kind::Decoder => {
            let entries = read_entries(s, &mut words[..40000])?;
            lending(plan, lent, |p| decoder::decode(b, m, rule, entries, p))
        }
        Kind::Encoder => lending(
            &mut words[..40000],
            lent,
            |z| encoder::encode(b, m, rule, s, z),
        ),
        Kind::Reader => lending(
            &mut words[..40000],
            lent,
            |z| reader::read_valuation(b, m, rule, s, z),
        ),
        Kind::Floor => Some(Outcome::from(floor::floor_of(b))),
        Kind::PrunedWriter => lending(words, lent, |z| pruned_writer::write_pruned(b, m, rule, z)),
        Kind::Size => Some(Outcome::from(formula_size::formula_size(b, m, rule))),
        Kind::PrunedSize => Some(Outcome::from(formula_size::pruned_size(b, m, rule))),
        Kind::CeilingSize => Some(Outcome::from(ceiling_size::ceiling_size(b, m, rule, number))),
        Kind::CeilingWriter => lending(
            words,
            lent,
            |z| ceiling_writer::write_ceiling(b, m, rule, number, z),
        ),
        Kind::CeilingDecoder => {
            let entries = read_entries(s, &mut words[..40000])?;
            lending(
                plan,
                lent,
                |p| ceiling_decoder::decode_ceiling(b, m, rule, number, entries, p),
            )
        }
        Kind::CeilingEncoder => lending(&mut words[..40000], lent, |z| {
            ceiling_encoder::encode_ceiling(b, m, rule, number, s, z)
        }),
        Kind::CeilingReader => lending(&mut words[..40000], lent, |z| {
            ceiling_reader::read_ceiling(b, m, rule, number, s, z)
        }),
        Kind::Tally => tally_plan(case),
    }
}
