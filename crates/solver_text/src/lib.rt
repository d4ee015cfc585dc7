// The text that a solver prints: its lines, their kinds, its tokens, what may follow what, and what it says. There is no code here but
// the structs that travel.
#![tactic(auto)]

// What the s lines have said so far: whether one was SATISFIABLE, and the offset of the first.
#[derive(Clone, Copy)]
pub struct Verdict {
    pub satisfiable: bool,
    pub place: usize,
}

// What the lines have said so far: the verdict, where there was an s line, and whether the token 0 has come.
#[derive(Clone, Copy)]
pub struct Said {
    pub verdict: Option<Verdict>,
    pub closed: bool,
}
