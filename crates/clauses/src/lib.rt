// The words of single clauses, each written to the start of the slice that is lent. The answer is the number of words.
#![tactic(auto)]

ghost use Rattle.std.specs.Prelude.{◌≡◌, List, [], ◌∷◌, ℕ, ◌^◌, ◌≤◌, ◌<◌, length};
ghost use Rattle.lists.specs.Loop.{for, each};
ghost use Rattle.lists.specs.Slice.{filled, Wrote};
ghost use Rattle.bits.specs.Bits.{set?};
ghost use Rattle.formula.specs.Variables.{X, ¬X};
ghost use Rattle.formula.specs.Formula.{Clause, line, somewhere, nearby, onward};
ghost use Rattle.clauses.specs.Blocks.{Takes, Writes};

use instance::Shape;
use variables::{Agent, Step, Vertex};

// The words of blocks 0, 1, .. below count, one after another: `write` writes those of a block to the start of what it is lent.
pub fn write_each<W: Fn(&mut [i32], usize) -> usize>(f: &mut [i32], count: usize, write: W) -> usize
    requires { (blocks : ℕ → List Clause) × (length (each line (for count blocks)) ≤ length f.old) × Takes count blocks (W.pre write) × Writes count blocks (W.post write) }
    ensures { (blocks : ℕ → List Clause) → Writes count blocks (W.post write) → length (each line (for count blocks)) ≤ length f.old → Wrote (each line (for count blocks)) f.old f.new result }
{
    let mut at: usize = 0;
    for i in 0..count {
        at += write(&mut f[at..], i);
    }
    at
}

// The literal X(t,a,v).
pub fn positive(s: Shape, t: Step, a: Agent, v: Vertex) -> i32
    requires { (t.0 ≤ s.sizes.m) × (a.0 < s.sizes.k) × (v.0 < s.sizes.n) }
    ensures { result ≡ X s.sizes t.0 a.0 v.0 }
{
    variables::literal_of(variables::variable_of(s, t, a, v))
}

// The literal not X(t,a,v).
pub fn negative(s: Shape, t: Step, a: Agent, v: Vertex) -> i32
    requires { (t.0 ≤ s.sizes.m) × (a.0 < s.sizes.k) × (v.0 < s.sizes.n) }
    ensures { result ≡ ¬X s.sizes t.0 a.0 v.0 }
{
    variables::negation_of(variables::variable_of(s, t, a, v))
}

// A clause of so many literals.
pub fn put_clause<const N: usize>(f: &mut [i32], literals: [i32; N]) -> usize
    requires { N < length f.old }
    ensures { Wrote (line literals.entry) f.old f.new result }
{
    for i in 0..N {
        let x = literals[i];
        f[i] = x;
    }
    f[N] = 0;
    N + 1
}

// A clause of family C: agent a is at some vertex at time t.
pub fn put_somewhere(f: &mut [i32], s: Shape, t: Step, a: Agent) -> usize
    requires t_le_m { (t.0 ≤ s.sizes.m) × (a.0 < s.sizes.k) }
    requires a_in_bounds { length (line (somewhere s.sizes t.0 a.0)) ≤ length f.old }
    ensures { Wrote (line (somewhere s.sizes t.0 a.0)) f.old f.new result }
{
    let n = s.sizes.n;
    for (v, x) in f[..n].iter_mut().enumerate() {
        *x = positive(s, t, a, Vertex(v));
    }
    f[n] = 0;
    n + 1
}

// X(t,a,w) for each bit w of a word, rising, and the 0: from the lowest bit to the highest.
fn put_few(f: &mut [i32], s: Shape, word: u64, t: Step, a: Agent)
    requires t_le_m { (t.0 ≤ s.sizes.m) × (a.0 < s.sizes.k) × (word < 2 ^ s.sizes.n) }
    requires a_in_bounds { length (line (nearby s.sizes (set? word) t.0 a.0)) ≤ length f.old }
    ensures { f.new ≡ filled (line (nearby s.sizes (set? word) t.0 a.0)) f.old }
{
    let mut rest = word;
    let mut at: usize = 0;
    while rest != 0 {
        let w = u64::trailing_zeros(rest) as usize;
        f[at] = positive(s, t, a, Vertex(w));
        at += 1;
        rest = rest & (rest - 1);
    }
    f[at] = 0;
}

// The same, from one vertex that is no neighbour to the next: those between them are written by a loop without a test, which the
// compiler takes several at a time.
fn put_many(f: &mut [i32], s: Shape, word: u64, t: Step, a: Agent)
    requires t_le_m { (t.0 ≤ s.sizes.m) × (a.0 < s.sizes.k) × (word < 2 ^ s.sizes.n) }
    requires a_in_bounds { length (line (nearby s.sizes (set? word) t.0 a.0)) ≤ length f.old }
    ensures { f.new ≡ filled (line (nearby s.sizes (set? word) t.0 a.0)) f.old }
{
    let n = s.sizes.n;
    let mut gaps = bits::others(word, n);
    let mut at: usize = 0;
    let mut w: usize = 0;
    while gaps != 0 {
        let gap = u64::trailing_zeros(gaps) as usize;
        while w < gap {
            f[at] = positive(s, t, a, Vertex(w));
            at += 1;
            w += 1;
        }
        w = gap + 1;
        gaps = gaps & (gaps - 1);
    }
    while w < n {
        f[at] = positive(s, t, a, Vertex(w));
        at += 1;
        w += 1;
    }
    f[at] = 0;
}

// The same, by whichever is faster: where more than three of four vertices are neighbours on the average, or not.
fn put_near(f: &mut [i32], s: Shape, word: u64, t: Step, a: Agent)
    requires t_le_m { (t.0 ≤ s.sizes.m) × (a.0 < s.sizes.k) × (word < 2 ^ s.sizes.n) }
    requires a_in_bounds { length (line (nearby s.sizes (set? word) t.0 a.0)) ≤ length f.old }
    ensures { f.new ≡ filled (line (nearby s.sizes (set? word) t.0 a.0)) f.old }
{
    if 3 * s.sizes.n * s.sizes.n < 8 * s.sizes.e {
        put_many(f, s, word, t, a);
        return;
    }
    put_few(f, s, word, t, a);
}

// A clause of family F: agent a at v at time t keeps v or goes to a neighbour, that is to a vertex whose bit is set. The ones are the
// degree of v, and so give the length.
pub fn put_onward(f: &mut [i32], s: Shape, word: u64, t: Step, a: Agent, v: Vertex) -> usize
    requires t_lt_m { (t.0 < s.sizes.m) × (a.0 < s.sizes.k) × (v.0 < s.sizes.n) × (word < 2 ^ s.sizes.n) }
    requires v_in_bounds { length (line (onward s.sizes (set? word) t.0 a.0 v.0)) ≤ length f.old }
    ensures { Wrote (line (onward s.sizes (set? word) t.0 a.0 v.0)) f.old f.new result }
{
    let next = Step(t.0 + 1);
    f[0] = negative(s, t, a, v);
    f[1] = positive(s, next, a, v);
    put_near(&mut f[2..], s, word, next, a);
    u64::count_ones(word) as usize + 3
}
