// What a lent slice holds before a call, and a hash of what it holds after one.
ghost use Rattle.std.specs.Prelude.{◌<◌};

use crate::outcome::Outcome;
use answers::Refusal;

// An element of a lent slice: a byte or a word.
pub trait Element: From<u8> + Copy {
    // What goes into the hash: no negative number.
    fn hashed(self) -> u32;
}

impl Element for u8 {
    fn hashed(self) -> u32 {
        u32::from(self)
    }
}

impl Element for i32 {
    fn hashed(self) -> u32 {
        self.cast_unsigned().wrapping_add(2147483648)
    }
}

fn fill<T: Element>(z: &mut [T]) {
    for (i, x) in z.iter_mut().enumerate() {
        *x = T::from((7 * (i % 32) + 3) as u8);
    }
}

pub fn mixed(h: u32, y: u32) -> u32
    ensures { result < 2147483647 }
{
    ((u64::from(h) * 131 + u64::from(y)) % 2147483647) as u32
}

fn hash<T: Element>(z: &[T]) -> u32 {
    z.iter().fold(1, |h, x| mixed(h, x.hashed()))
}

// What comes of a call that is lent the first `len` elements of the space. None where it has not so many.
pub fn lending<T: Element, F: FnOnce(&mut [T]) -> Result<usize, Refusal>>(
    space: &mut [T],
    len: usize,
    call: F,
) -> Option<Outcome>
    requires { F.IsAlwaysCallable call }
{
    if space.len() < len {
        return None;
    }
    let z = &mut space[..len];
    fill(z);
    let returned = call(z);
    Some(Outcome::new(returned, hash(z)))
}
