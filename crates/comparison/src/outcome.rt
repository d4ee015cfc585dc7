// What came of a case, and its line.
use answers::{Answer, Extent, Refusal, Size};
use std::fmt;

#[derive(Clone, Copy)]
pub struct Outcome {
    number: u32,
    second: usize,
    clauses: usize,
    hash: u32,
}

impl Outcome {
    pub fn new(returned: Result<usize, Refusal>, hash: u32) -> Outcome {
        let answer = Answer::from(returned);
        Outcome {
            number: answer.number,
            second: answer.second,
            clauses: 0,
            hash,
        }
    }
}

// A call that is lent nothing: the hash of an empty slice.
impl From<Result<usize, Refusal>> for Outcome {
    fn from(returned: Result<usize, Refusal>) -> Outcome {
        Outcome::new(returned, 1)
    }
}

impl From<Result<Extent, Refusal>> for Outcome {
    fn from(returned: Result<Extent, Refusal>) -> Outcome {
        let size = Size::from(returned);
        Outcome {
            number: size.number,
            second: size.second,
            clauses: size.clauses,
            hash: 1,
        }
    }
}

impl fmt::Display for Outcome {
    fn fmt<W: fmt::Write>(&self, f: &mut fmt::Formatter<W>) -> fmt::Result {
        write!(
            f,
            "{} {} {} {}",
            self.number, self.second, self.clauses, self.hash
        )
    }
}
