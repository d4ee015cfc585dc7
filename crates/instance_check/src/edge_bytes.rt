// The edges of an instance, read from its bytes.

ghost use Rattle.std.specs.Prelude.{◌≡◌, false, ◌&&◌, List, ◌∷◌, suc, ◌+◌, ◌-◌, ◌<◌, ◌≤◌, length};
ghost use Rattle.lists.specs.Loop.{every};
ghost use Rattle.answers.specs.Answers.{Question, decide};
ghost use Rattle.answers.specs.Returned.{refused};
ghost use Rattle.answers.specs.Fault.{FirstFailing};
ghost use Rattle.instance.specs.Instance.{edges};
ghost use Rattle.instance.specs.Questions.{question6, question7, proper_edge, later_edge};

use answers::{Reason, Refusal};

// Bytes that have room for their edges: e low ends from 4 on, then e high ends.
#[derive(Clone, Copy)]
pub struct EdgeBytes<'a> {
    pub b: &'a [u8],
    pub e: usize,
    pub ghost counted: { e ≡ edges b.now },
    pub ghost long: { 4 + e + e ≤ length b.now },
}

impl<'a> EdgeBytes<'a> {
    // Edge j: low end < high end < n?
    pub fn is_proper(&self, j: usize) -> bool
        requires { j < self.now.e }
        ensures { result ≡ proper_edge self.now.b.now j }
    {
        let b = self.b;
        let high = b[4 + self.e + j];
        (b[4 + j] < high) & (high < b[0])
    }

    // Edge i + 1 comes after edge i, by low end, then high end?
    pub fn is_later(&self, i: usize) -> bool
        requires { suc i < self.now.e }
        ensures { result ≡ later_edge self.now.b.now (suc i) i }
    {
        let b = self.b;
        let low = b[4 + i];
        let next = b[5 + i];
        (low < next) | (low == next) & (b[4 + self.e + i] < b[5 + self.e + i])
    }

    // Every edge proper? The loop has one way out and no branch, so that the compiler takes many edges at a time.
    pub fn all_proper(&self) -> bool
        ensures { result ≡ every (edges self.now.b.now) (proper_edge self.now.b.now) }
    {
        let mut all = true;
        for j in 0..self.e {
            all = all & self.is_proper(j);
        }
        all
    }

    // Every edge after the one before it? Also with one way out.
    pub fn all_later(&self) -> bool
        ensures { result ≡ every (edges self.now.b.now - 1) (λ i. later_edge self.now.b.now (suc i) i) }
    {
        let mut all = true;
        let pairs = self.e.saturating_sub(1);
        for i in 0..pairs {
            all = all & self.is_later(i);
        }
        all
    }

    // The first edge that is not proper.
    fn first_improper(&self) -> Option<usize>
        ensures { FirstFailing (edges self.now.b.now) (proper_edge self.now.b.now) result }
    {
        for j in 0..self.e {
            if !self.is_proper(j) {
                return Some(j);
            }
        }
        None
    }

    // The first i such that edge i + 1 does not come after edge i.
    fn first_unordered(&self) -> Option<usize>
        ensures { FirstFailing (edges self.now.b.now - 1) (λ i. later_edge self.now.b.now (suc i) i) result }
    {
        let pairs = self.e.saturating_sub(1);
        for i in 0..pairs {
            if !self.is_later(i) {
                return Some(i);
            }
        }
        None
    }

    // Questions 6 and 7, where some edge fails one of them: the refusal, whatever is asked later.
    pub fn refusal(&self) -> Refusal
        requires { every (edges self.now.b.now) (proper_edge self.now.b.now) && every (edges self.now.b.now - 1) (λ i. later_edge self.now.b.now (suc i) i) ≡ false }
        ensures { (later : List Question) → refused result ≡ decide (question6 self.now.b.now ∷ question7 self.now.b.now ∷ later) 0 }
    {
        if let Some(j) = self.first_improper() {
            return Reason::ImproperEdge.at(4 + j);
        }
        Reason::EdgeOrder.at(5 + self.first_unordered().unwrap())
    }
}
