// Words of 64 bits.
#![tactic(auto)]

ghost use Rattle.std.specs.Prelude.{◌≡◌, not, ◌&&◌, ℕ, ◌+◌, ◌^◌, ◌≤◌, ◌<◌, leb, ltb};
ghost use Rattle.std.specs.Int.Bits.{bit_or};
ghost use Rattle.bits.specs.Bits.{set?, word, Others};

// Is bit w set?
pub fn has_bit(x: u64, w: usize) -> bool
    requires { w < 64 }
    ensures { result ≡ set? x w }
{
    (x >> w as u64) % 2 == 1
}

// The word with bit w set.
pub fn with_bit(x: u64, w: usize) -> u64
    requires { w < 64 }
    ensures { result ≡ bit_or x (2 ^ w) }
{
    x | 1u64 << w as u64
}

// The word whose lowest n bits are set.
fn lowest_bits(n: usize) -> u64
    requires { n ≤ 64 }
    ensures { result + 1 ≡ 2 ^ n }
{
    if n == 64 {
        return u64::MAX;
    }
    (1u64 << n as u64) - 1
}

// The word whose bits from one on, up to and without another, are set.
pub fn bits_from(from: usize, to: usize) -> u64
    requires { (from ≤ to) × (to ≤ 64) }
    ensures { result ≡ word to (leb from) }
{
    lowest_bits(to) - lowest_bits(from)
}

// The word with those of the lowest n bits set that are not.
pub fn others(x: u64, n: usize) -> u64
    requires { (n ≤ 64) × (x < 2 ^ n) }
    ensures { Others n x result }
{
    lowest_bits(n) ^ x
}

// The bits of x that y has not.
pub fn without(x: u64, y: u64) -> u64
    ensures { (w : ℕ) → set? result w ≡ set? x w && not (set? y w) }
{
    (x | y) ^ y
}

// The bits of x above bit u.
pub fn above(x: u64, u: usize) -> u64
    requires { u < 64 }
    ensures { (result ≤ x) × ((w : ℕ) → set? result w ≡ ltb u w && set? x w) }
{
    bits_from(u + 1, 64) & x
}
