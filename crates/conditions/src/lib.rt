// The three conditions of a valid step, asked of the bytes of a row and of the next row, and of two rows of a plan.
#![tactic(auto)]

ghost use Rattle.std.specs.Prelude.{◌≡◌, not, ◌&&◌, suc, ◌<◌, ◌≤◌, min, length, get_or, eqb};
ghost use Rattle.answers.specs.Fault.{FirstFailing};
ghost use Rattle.instance.specs.Instance.{joined};
ghost use Rattle.plan.specs.Plan.{row, plan_bytes, plan_row, condition, condition1, condition2, condition3};
ghost use Rattle.conditions.specs.Inside.{Inside, Standing};
ghost use Rattle.conditions.specs.Conditions.{place_of};

use instance::Sizes;

// The conditions, in their order: of crossing an edge, of entering a vertex, of sharing one.
#[derive(Clone, Copy, PartialEq, Eq)]
pub enum Condition {
    Crossing,
    Entering,
    Sharing,
}

// By its number, from 0; a higher number than 2 counts as 2, as in the definitions.
impl From<usize> for Condition {
    ghost from_gives = { λ number which. place_of which ≡ min number 2 };

    fn from(number: usize) -> Condition {
        match number {
            0 => Condition::Crossing,
            1 => Condition::Entering,
            _ => Condition::Sharing,
        }
    }
}

// The first agent of a row that stands on x.
pub fn first_on(here: &[u8], x: u8) -> Option<usize>
    ensures { FirstFailing (length here.now) (λ a. not (eqb (row here.now a) x)) result }
{
    here.iter().position(|v| *v == x)
}

// The first agent that goes from x to y.
pub fn first_going(here: &[u8], next: &[u8], x: u8, y: u8) -> Option<usize>
    requires { length here.now ≤ length next.now }
    ensures { FirstFailing (length here.now) (λ a. not (eqb (row here.now a) x && eqb (row next.now a) y)) result }
{
    here.iter()
        .zip(next)
        .position(|(v, w)| (*v == x) & (*w == y))
}

// The vertices on which the agents of a row stand, as a word.
fn occupied(here: &[u8]) -> u64
    requires { Inside here.now }
    ensures { Standing (row here.now) (length here.now) result }
{
    let mut word = 0u64;
    for v in here {
        word = bits::with_bit(word, usize::from(*v));
    }
    word
}

// A row and the next row of the k agents. Every byte has a word, and a bit in each.
#[derive(Clone, Copy)]
struct Rows<'a> {
    sizes: Sizes,
    near: &'a [u64; 64],
    here: &'a [u8],
    next: &'a [u8],
    ghost long: { (length here.now ≡ sizes.k) × (length next.now ≡ sizes.k) },
    ghost inside: { Inside here.now × Inside next.now },
}

impl<'a> Rows<'a> {
    // Condition 1 of agent a: it keeps its vertex or crosses an edge, that is to a vertex whose bit is set?
    fn crosses(&self, a: usize) -> bool
        requires { a < self.now.sizes.k }
        ensures { result ≡ condition1 (joined self.now.near.now) (row self.now.here.now) (row self.now.next.now) a }
    {
        let v = usize::from(self.here[a]);
        let w = usize::from(self.next[a]);
        if v == w {
            return true;
        }
        bits::has_bit(self.near[v], w)
    }

    // Condition 2 of agent a: it keeps its vertex, or goes to one on which no agent stood; or, under rule 2, no agent goes from there to
    // its vertex?
    fn enters(&self, stood: u64, a: usize) -> bool
        requires { (a < self.now.sizes.k) × Standing (row self.now.here.now) self.now.sizes.k stood }
        ensures { result ≡ condition2 self.now.sizes (row self.now.here.now) (row self.now.next.now) a }
    {
        let v = self.here[a];
        let w = self.next[a];
        if v != w {
            if self.sizes.rule == 2 {
                return first_going(self.here, self.next, w, v).is_none();
            }
            return !bits::has_bit(stood, usize::from(w));
        }
        true
    }

    // Condition 3 of agent a: it shares its vertex in the next row with no lower agent?
    fn stands_alone(&self, taken: u64, a: usize) -> bool
        requires { (a < self.now.sizes.k) × Standing (row self.now.next.now) a taken }
        ensures { result ≡ condition3 (row self.now.next.now) a }
    {
        !bits::has_bit(taken, usize::from(self.next[a]))
    }

    // A condition of agent a, before whom the lower agents have taken their vertices in the next row.
    fn passes(&self, which: Condition, stood: u64, taken: u64, a: usize) -> bool
        requires { (a < self.now.sizes.k) × Standing (row self.now.here.now) self.now.sizes.k stood × Standing (row self.now.next.now) a taken }
        ensures { result ≡ condition self.now.sizes (joined self.now.near.now) (place_of which) (row self.now.here.now) (row self.now.next.now) a }
    {
        match which {
            Condition::Crossing => self.crosses(a),
            Condition::Entering => self.enters(stood, a),
            Condition::Sharing => self.stands_alone(taken, a),
        }
    }

    // The first agent that fails it. By index: a condition is asked of an agent, in both rows.
    fn fault(&self, which: Condition) -> Option<usize>
        ensures { FirstFailing self.now.sizes.k (condition self.now.sizes (joined self.now.near.now) (place_of which) (row self.now.here.now) (row self.now.next.now)) result }
    {
        let stood = occupied(self.here);
        let mut taken = 0u64;
        for a in 0..self.sizes.k {
            if !self.passes(which, stood, taken, a) {
                return Some(a);
            }
            taken = bits::with_bit(taken, usize::from(self.next[a]));
        }
        None
    }
}

// The first agent that fails it between rows t and t + 1 of a plan.
pub fn step_fault(s: Sizes, near: &[u64; 64], which: Condition, p: &[u8], t: usize) -> Option<usize>
    requires p_len { (length p.now ≡ plan_bytes s) × (t < s.m) }
    requires inside { Inside p.now }
    ensures { FirstFailing s.k (condition s (joined near.now) (place_of which) (plan_row s p.now t) (plan_row s p.now (suc t))) result }
{
    let k = s.k;
    let row = t * k;
    let next = row + k;
    let end = next + k;
    let rows = Rows {
        sizes: s,
        near,
        here: &p[row..next],
        next: &p[next..end],
    };
    rows.fault(which)
}
