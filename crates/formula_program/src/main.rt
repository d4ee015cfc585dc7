// The formula program: reads at most 4,070 bytes, the byte m and an instance, and prints the formula's text. It ends with an error where
// a read or a write fails, and else with 0; tools/formula_program gives it an exit status for a refusal.
#![tactic(auto)]

use formula_printer::Status;
use std::io;

fn main(rt: HostRuntime) -> io::Result<()> {
    if formula_printer::run(&mut rt.stdin())? == Status::Failed {
        return Err(io::Error::other("the output cannot be written"));
    }
    Ok(())
}
