// Runs the instance check on stored cases. A case is the horizon and the rule in 8 bytes each and the instance's length in 2, low bytes
// first, and then the instance. Each prints a line: the number, and the place of a refusal.
#![tactic(auto)]

ghost use Rattle.std.specs.Prelude.{◌<◌, ◌≤◌, length, IfSome};

use std::io::Read;

#[derive(Clone, Copy)]
struct Case<'a> {
    horizon: usize,
    rule: usize,
    instance: &'a [u8],
}

// The first case, and the bytes behind it. None where there is no whole case.
fn split_case(cases: &[u8]) -> Option<(Case<'_>, &[u8])>
    ensures { IfSome result (λ p. length p.1.now < length cases.now) }
{
    let (horizon, rest) = cases.split_first_chunk()?;
    let (rule, rest) = rest.split_first_chunk()?;
    let (len, rest) = rest.split_first_chunk()?;
    let (instance, rest) = rest.split_at_checked(usize::from(u16::from_le_bytes(*len)))?;
    let case = Case {
        horizon: usize::from_le_bytes(*horizon),
        rule: usize::from_le_bytes(*rule),
        instance,
    };
    Some((case, rest))
}

// Reads until the space is full or the input ends. A read that fails counts as the end.
fn read_cases<R: Read>(reader: &mut R, space: &mut [u8]) -> usize
    ensures { result ≤ length space.new }
{
    let mut at: usize = 0;
    while at < space.len() {
        let n = reader.read(&mut space[at..]).unwrap_or(0);
        if n == 0 {
            break;
        }
        at += n;
    }
    at
}

// A line is written in four pieces, and one that cannot be written is passed over.
fn main(rt: HostRuntime) {
    let mut space = [0u8; 65536];
    let n = read_cases(&mut rt.stdin(), &mut space);
    let mut rest = &space[..n];
    while let Some((case, behind)) = split_case(rest) {
        let answer = instance_check::check_instance(case.instance, case.horizon, case.rule);
        let (number, place) = match answer {
            Ok(_) => (0, 0),
            Err(refusal) => (refusal.reason.number(), refusal.place),
        };
        print!(rt; "{number}").unwrap_or(());
        print!(rt; " ").unwrap_or(());
        print!(rt; "{place}").unwrap_or(());
        print!(rt; "\n").unwrap_or(());
        rest = behind;
    }
}
