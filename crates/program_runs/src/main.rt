// Prints what the formula program prints for each of many inputs, at most a million, one after another. The standard input holds
// for each the input's length in 2 bytes, low byte first, and then the input, of at most 4,070 bytes. The runs end where that is
// not so, or a write fails.
#![tactic(auto)]

use formula_printer::Status;
use std::io::Read;

// Reads an input into the space for it. None where there is none.
fn read_input<'a, R: Read>(reader: &mut R, space: &'a mut [u8]) -> Option<&'a [u8]> {
    let mut len = [0u8; 2];
    reader.read_exact(&mut len).ok()?;
    let n = usize::from(u16::from_le_bytes(len));
    if space.len() < n {
        return None;
    }
    reader.read_exact(&mut space[..n]).ok()?;
    Some(&space[..n])
}

fn main(rt: HostRuntime) {
    let mut stdin = rt.stdin();
    let mut space = [0u8; 4070];
    let mut words = [0i32; 6048];
    let mut text = formula_printer::zeros::<113920>();
    let mut texts = formula_printer::zeros::<540680>();
    for _ in 0..1_000_000 {
        let Some(input) = read_input(&mut stdin, &mut space) else {
            break;
        };
        if formula_printer::print_input(&mut words, &mut text, &mut texts, input)
            == Status::Failed
        {
            break;
        }
    }
}
