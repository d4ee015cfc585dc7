// Runs the calls on cases made elsewhere, at most two million of them. A case: the kind of call (1 byte: 1 the formula writer,
// 2 one clause, 3 the plan check, 4 the decoder, 5 the encoder, 6 the reader, 7 the floor, 8 the pruned writer, 9 the formula's size,
// 10 the pruned formula's size, and with a ceiling 11 the size, 12 the writer, 13 the decoder, 14 the encoder, 15 the reader; 16 the plan
// check counted in a record), the horizon, the rule and the clause number or the ceiling (8 bytes each), the instance's length (2 bytes),
// the payload's length in bytes and the lent slice's length in elements (4 bytes each), low bytes first; then the instance, then the
// payload: a plan, entries of 4 bytes, a text, or a record and a plan. Each case prints a line: the answer's number, its second number, the
// clauses (0 but for a size), and a hash of the lent slice or of the record after the call; or "skip" where the slice is longer than the
// array here, or there is no record.
#![tactic(auto)]

mod call;
mod case;
mod lent;
mod outcome;
mod tallies;

ghost use Rattle.std.specs.Prelude.{◌≡◌, length};

use case::Case;

// So many zeros. A long array stands in a function of its own, which says no more than its length.
fn zeros<T: From<u8> + Copy, const N: usize>() -> [T; N]
    ensures { length result ≡ N }
{
    [T::from(0); N]
}

// A line that cannot be written is passed over.
fn main(rt: HostRuntime) {
    let mut stdin = rt.stdin();
    let mut input = zeros::<u8, 540672>();
    let mut words = zeros::<i32, 65536>();
    let mut plan = zeros::<u8, 1024>();
    for _ in 0..2_000_000 {
        let Some(case) = Case::read(&mut stdin, &mut input) else {
            break;
        };
        let written = match call::run(case, &mut words, &mut plan) {
            Some(outcome) => println!(rt; "{outcome}"),
            None => println!(rt; "skip"),
        };
        written.unwrap_or(());
    }
}
