// The calls for programs in other languages; include/runglaet.h declares them for C.
#![tactic(auto)]

ghost use Rattle.std.specs.Prelude.{◌≡◌, length};
ghost use Rattle.formula.specs.Formula.{formula};
ghost use Rattle.formula.specs.Pruned.{pruned};
ghost use Rattle.calls.specs.Calls.{size_answer, write_answer, write_slice, clause_answer, clause_slice, check_answer, decode_answer, decode_slice, encode_answer, encode_slice, read_answer, read_slice, floor_answer};
ghost use Rattle.calls.specs.Ceiling.{ceiling_size_answer, ceiling_write_answer, ceiling_write_slice, ceiling_decode_answer, ceiling_decode_slice, ceiling_encode_answer, ceiling_encode_slice, ceiling_read_answer, ceiling_read_slice};
ghost use Rattle.calls.specs.Tally.{tally_answer, tally_record};

use answers::{Answer, Size};
use tally::Tally;

#[unsafe(no_mangle)]
pub extern "C" fn runglaet_formula_size(instance: &[u8], horizon: u64, rule: u64) -> Size
    ensures { result ≡ size_answer formula instance.now horizon rule }
{
    Size::from(formula_size::formula_size(instance, horizon as usize, rule as usize))
}

#[unsafe(no_mangle)]
pub extern "C" fn runglaet_write_formula(
    instance: &[u8],
    horizon: u64,
    rule: u64,
    words: &mut [i32],
) -> Answer
    ensures value { result ≡ write_answer formula instance.now horizon rule (length words.old) }
    ensures words_after { words.new ≡ write_slice formula instance.now horizon rule words.old }
{
    Answer::from(formula_writer::write_formula(instance, horizon as usize, rule as usize, words))
}

#[unsafe(no_mangle)]
pub extern "C" fn runglaet_clause(
    instance: &[u8],
    horizon: u64,
    rule: u64,
    clause_number: u64,
    words: &mut [i32],
) -> Answer
    ensures value { result ≡ clause_answer instance.now horizon rule clause_number (length words.old) }
    ensures words_after { words.new ≡ clause_slice instance.now horizon rule clause_number words.old }
{
    Answer::from(one_clause::clause(
        instance,
        horizon as usize,
        rule as usize,
        clause_number as usize,
        words,
    ))
}

#[unsafe(no_mangle)]
pub extern "C" fn runglaet_check_plan(
    instance: &[u8],
    horizon: u64,
    rule: u64,
    plan: &[u8],
) -> Answer
    ensures { result ≡ check_answer instance.now horizon rule plan.now }
{
    Answer::from(plan_check::check_plan(instance, horizon as usize, rule as usize, plan))
}

// The record that is lent goes to the call by value, and what comes back takes its place.
#[unsafe(no_mangle)]
pub extern "C" fn runglaet_tally_plan(
    instance: &[u8],
    horizon: u64,
    rule: u64,
    plan: &[u8],
    tally: &mut Tally,
) -> Answer
    ensures { (result ≡ tally_answer instance.now horizon rule plan.now tally.old) × (tally.new ≡ tally_record instance.now horizon rule plan.now tally.old) }
{
    let tallied = plan_tally::tally_plan(*tally, instance, horizon as usize, rule as usize, plan);
    *tally = tallied.tally;
    Answer::from(tallied.answer)
}

#[unsafe(no_mangle)]
pub extern "C" fn runglaet_decode(
    instance: &[u8],
    horizon: u64,
    rule: u64,
    entries: &[i32],
    plan: &mut [u8],
) -> Answer
    ensures value { result ≡ decode_answer instance.now horizon rule entries.now (length plan.old) }
    ensures plan_after { plan.new ≡ decode_slice instance.now horizon rule entries.now plan.old }
{
    Answer::from(decoder::decode(instance, horizon as usize, rule as usize, entries, plan))
}

#[unsafe(no_mangle)]
pub extern "C" fn runglaet_encode(
    instance: &[u8],
    horizon: u64,
    rule: u64,
    plan: &[u8],
    entries: &mut [i32],
) -> Answer
    ensures value { result ≡ encode_answer instance.now horizon rule plan.now (length entries.old) }
    ensures entries_after { entries.new ≡ encode_slice instance.now horizon rule plan.now entries.old }
{
    Answer::from(encoder::encode(instance, horizon as usize, rule as usize, plan, entries))
}

#[unsafe(no_mangle)]
pub extern "C" fn runglaet_read_valuation(
    instance: &[u8],
    horizon: u64,
    rule: u64,
    text: &[u8],
    entries: &mut [i32],
) -> Answer
    ensures value { result ≡ read_answer instance.now horizon rule text.now (length entries.old) }
    ensures entries_after { entries.new ≡ read_slice instance.now horizon rule text.now entries.old }
{
    Answer::from(reader::read_valuation(instance, horizon as usize, rule as usize, text, entries))
}

#[unsafe(no_mangle)]
pub extern "C" fn runglaet_floor(instance: &[u8]) -> Answer
    ensures { result ≡ floor_answer instance.now }
{
    Answer::from(floor::floor_of(instance))
}

#[unsafe(no_mangle)]
pub extern "C" fn runglaet_pruned_size(instance: &[u8], horizon: u64, rule: u64) -> Size
    ensures { result ≡ size_answer pruned instance.now horizon rule }
{
    Size::from(formula_size::pruned_size(instance, horizon as usize, rule as usize))
}

#[unsafe(no_mangle)]
pub extern "C" fn runglaet_write_pruned(
    instance: &[u8],
    horizon: u64,
    rule: u64,
    words: &mut [i32],
) -> Answer
    ensures value { result ≡ write_answer pruned instance.now horizon rule (length words.old) }
    ensures words_after { words.new ≡ write_slice pruned instance.now horizon rule words.old }
{
    Answer::from(pruned_writer::write_pruned(instance, horizon as usize, rule as usize, words))
}

#[unsafe(no_mangle)]
pub extern "C" fn runglaet_ceiling_size(
    instance: &[u8],
    horizon: u64,
    rule: u64,
    ceiling: u64,
) -> Size
    ensures { result ≡ ceiling_size_answer instance.now horizon rule ceiling }
{
    Size::from(ceiling_size::ceiling_size(
        instance,
        horizon as usize,
        rule as usize,
        ceiling as usize,
    ))
}

#[unsafe(no_mangle)]
pub extern "C" fn runglaet_write_ceiling(
    instance: &[u8],
    horizon: u64,
    rule: u64,
    ceiling: u64,
    words: &mut [i32],
) -> Answer
    ensures value { result ≡ ceiling_write_answer instance.now horizon rule ceiling (length words.old) }
    ensures words_after { words.new ≡ ceiling_write_slice instance.now horizon rule ceiling words.old }
{
    Answer::from(ceiling_writer::write_ceiling(
        instance,
        horizon as usize,
        rule as usize,
        ceiling as usize,
        words,
    ))
}

#[unsafe(no_mangle)]
pub extern "C" fn runglaet_decode_ceiling(
    instance: &[u8],
    horizon: u64,
    rule: u64,
    ceiling: u64,
    entries: &[i32],
    plan: &mut [u8],
) -> Answer
    ensures value { result ≡ ceiling_decode_answer instance.now horizon rule ceiling entries.now (length plan.old) }
    ensures plan_after { plan.new ≡ ceiling_decode_slice instance.now horizon rule ceiling entries.now plan.old }
{
    Answer::from(ceiling_decoder::decode_ceiling(
        instance,
        horizon as usize,
        rule as usize,
        ceiling as usize,
        entries,
        plan,
    ))
}

#[unsafe(no_mangle)]
pub extern "C" fn runglaet_encode_ceiling(
    instance: &[u8],
    horizon: u64,
    rule: u64,
    ceiling: u64,
    plan: &[u8],
    entries: &mut [i32],
) -> Answer
    ensures value { result ≡ ceiling_encode_answer instance.now horizon rule ceiling plan.now (length entries.old) }
    ensures entries_after { entries.new ≡ ceiling_encode_slice instance.now horizon rule ceiling plan.now entries.old }
{
    Answer::from(ceiling_encoder::encode_ceiling(
        instance,
        horizon as usize,
        rule as usize,
        ceiling as usize,
        plan,
        entries,
    ))
}

#[unsafe(no_mangle)]
pub extern "C" fn runglaet_read_ceiling(
    instance: &[u8],
    horizon: u64,
    rule: u64,
    ceiling: u64,
    text: &[u8],
    entries: &mut [i32],
) -> Answer
    ensures value { result ≡ ceiling_read_answer instance.now horizon rule ceiling text.now (length entries.old) }
    ensures entries_after { entries.new ≡ ceiling_read_slice instance.now horizon rule ceiling text.now entries.old }
{
    Answer::from(ceiling_reader::read_ceiling(
        instance,
        horizon as usize,
        rule as usize,
        ceiling as usize,
        text,
        entries,
    ))
}
