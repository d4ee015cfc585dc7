// The record in which checked plans are counted.
#![tactic(auto)]

// How many passed, how many were refused under each number, and the sum, the least and the greatest cost of those that passed. Least and
// greatest are 0 while none has passed.
#[repr(C)]
#[derive(Clone, Copy)]
pub struct Tally {
    pub passed: usize,
    pub refused: [usize; 36],
    pub sum: usize,
    pub least: usize,
    pub greatest: usize,
}
