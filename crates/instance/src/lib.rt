// The instance as it travels after the check.
#![tactic(auto)]

mod problem;

pub use problem::{Problem, Shape};

// Vertices, agents, edges, the horizon and the movement rule that were given beside the instance, and how many agents have a goal.
#[derive(Clone, Copy)]
pub struct Sizes {
    pub n: usize,
    pub k: usize,
    pub e: usize,
    pub m: usize,
    pub rule: usize,
    pub g: usize,
}

// The checked instance. Starts and goals are in arrays for 16 agents, 0 beyond agent k - 1; the goal of a free agent is 255. The
// neighbours are words, one for each of 64 vertices: bit w of word v is set where w is a neighbour of v.
#[derive(Clone, Copy)]
pub struct Checked {
    pub sizes: Sizes,
    pub starts: [u8; 16],
    pub goals: [u8; 16],
    pub near: [u64; 64],
}
