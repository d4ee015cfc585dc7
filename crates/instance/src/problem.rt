// What an accepted instance is as it travels: the same, with what is known of it.

ghost use Rattle.instance.specs.Limits.{Limits};
ghost use Rattle.instance.specs.Ready.{Ready};

use crate::Sizes;

// The sizes of an accepted instance and horizon.
#[derive(Clone, Copy)]
pub struct Shape {
    pub sizes: Sizes,
    pub ghost limits: { Limits sizes },
}

// An accepted instance with its horizon and rule. Its parts are those of `Checked`.
#[derive(Clone, Copy)]
pub struct Problem {
    pub shape: Shape,
    pub starts: [u8; 16],
    pub goals: [u8; 16],
    pub near: [u64; 64],
    pub ghost ready: { Ready shape.sizes starts goals near },
}
