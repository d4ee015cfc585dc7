// Numbers from bytes: of one byte, and of two, four and eight, low byte first.
#![tactic(auto)]

ghost use Rattle.std.specs.Prelude.{◌≡◌, ◌+◌, ◌*◌, ◌≤◌, ◌<◌, length};
ghost use Rattle.numbers.specs.Numbers.{two_bytes, four_bytes, eight_bytes};

// A byte as a number.
pub fn wide(x: u8) -> usize
    ensures { (result ≡ x) × (result < 256) }
{
    x as usize
}

pub fn two_bytes(s: &[u8], at: usize) -> usize
    requires { at + 2 ≤ length s.now }
    ensures { (result ≡ two_bytes s.now at) × (result < 65536) }
{
    usize::from(u16::from_le_bytes(*s[at..].first_chunk().unwrap()))
}

pub fn four_bytes(s: &[u8], at: usize) -> usize
    requires { at + 4 ≤ length s.now }
    ensures { (result ≡ four_bytes s.now at) × (result < 4294967296) }
{
    u32::from_le_bytes(*s[at..].first_chunk().unwrap()) as usize
}

pub fn eight_bytes(s: &[u8], at: usize) -> usize
    requires { at + 8 ≤ length s.now }
    ensures { result ≡ eight_bytes s.now at }
{
    usize::from_le_bytes(*s[at..].first_chunk().unwrap())
}
