// What is worked out from the sizes: how many bytes a plan has, how many variables, clauses and words a formula, and how many blocks
// a family. And how many pairs there are of so many vertices or agents.
#![tactic(auto)]

ghost use Rattle.std.specs.Prelude.{◌≡◌, cond, ◌≤◌, ◌<◌};
ghost use Rattle.formula.specs.Variables.{variable_count};
ghost use Rattle.formula.specs.Blocks.{times, blocks_at};
ghost use Rattle.plan.specs.Plan.{plan_bytes};
ghost use Rattle.formula.specs.Counts.{clauses_by, clause_count, word_count};
ghost use Rattle.lists.specs.Loop.{pairs};
ghost use Rattle.lists.specs.Pairs.{pairs_below};
ghost use Rattle.instance.specs.Instance.{following};
ghost use Rattle.counts.specs.Families.{place_of};

use instance::{Shape, Sizes};

// The families of clauses, in their order.
#[derive(Clone, Copy, PartialEq, Eq)]
pub enum Family {
    A,
    B,
    C,
    D,
    E,
    F,
    G,
}

impl Family {
    // All of them.
    pub const ALL: [Family; 7] = [
        Family::A,
        Family::B,
        Family::C,
        Family::D,
        Family::E,
        Family::F,
        Family::G,
    ];
}

// A number for each family.
#[derive(Clone, Copy)]
pub struct Families {
    pub a: usize,
    pub b: usize,
    pub c: usize,
    pub d: usize,
    pub e: usize,
    pub f: usize,
    pub g: usize,
}

// The bytes of a plan, (m+1)·k.
pub fn plan_bytes(s: Shape) -> usize
    ensures { (result ≡ plan_bytes s.sizes) × (result ≤ 528) }
{
    (s.sizes.m + 1) * s.sizes.k
}

// The variables of the formula, N.
pub fn variable_count(s: Shape) -> usize
    ensures { (result ≡ variable_count s.sizes) × (result ≤ 33792) }
{
    s.sizes.n * s.sizes.k * (s.sizes.m + 1)
}

// How many times t a family has.
pub fn times_of(s: Shape, family: Family) -> usize
    ensures { (result ≡ times s.sizes (place_of family)) × (result ≤ 33) }
{
    match family {
        Family::A | Family::B => 1,
        Family::C | Family::D | Family::E => s.sizes.m + 1,
        Family::F | Family::G => s.sizes.m,
    }
}

// How many blocks G has for each time: of an agent, or under rule 2 of a low end.
fn ends_at(s: Shape) -> usize
    ensures { (result ≡ cond (following s.sizes) s.sizes.n s.sizes.k) × (result ≤ 64) }
{
    if s.sizes.rule == 2 {
        return s.sizes.n;
    }
    s.sizes.k
}

// How many blocks it has for each: of an agent; of a vertex in E, and in G under rule 2.
pub fn blocks_at(s: Shape, family: Family) -> usize
    ensures { (result ≡ blocks_at s.sizes (place_of family)) × (result ≤ 64) }
{
    match family {
        Family::E => s.sizes.n,
        Family::G => ends_at(s),
        Family::A | Family::B | Family::C | Family::D | Family::F => s.sizes.k,
    }
}

// Pairs of two different numbers below n.
pub fn pair_count(n: usize) -> usize
    requires { n ≤ 64 }
    ensures { (result ≡ pairs n) × (result ≤ 2016) }
{
    if n == 0 {
        return 0;
    }
    n * (n - 1) / 2
}

// How many of these pairs, the lower number first, begin with a number lower than v.
pub fn pairs_below(n: usize, v: usize) -> usize
    requires { (v < n) × (n ≤ 64) }
    ensures { (result ≡ pairs_below n v) × (result ≤ 2016) }
{
    v * (2 * n - v - 1) / 2
}

// Clauses of G: under rule 2 for each edge and two agents, under rule 1 for each two agents and vertex.
fn clauses_of_g(s: Shape) -> usize
    ensures { (result ≡ (clauses_by s.sizes).G) × (result ≤ 15482880) }
{
    if s.sizes.rule == 2 {
        return s.sizes.m * s.sizes.e * (s.sizes.k * (s.sizes.k - 1));
    }
    s.sizes.m * s.sizes.k * (s.sizes.k - 1) * s.sizes.n
}

// The words of one of them.
fn words_in_g(s: Sizes) -> usize
    ensures { (result ≡ cond (following s) 5 3) × (result ≤ 5) }
{
    if s.rule == 2 {
        return 5;
    }
    3
}

// Clauses by family.
pub fn clauses_by(s: Shape) -> Families
    ensures a_value { (result.a ≡ (clauses_by s.sizes).A) × (result.b ≡ (clauses_by s.sizes).B) × (result.c ≡ (clauses_by s.sizes).C) × (result.d ≡ (clauses_by s.sizes).D) × (result.e ≡ (clauses_by s.sizes).E) × (result.f ≡ (clauses_by s.sizes).F) × (result.g ≡ (clauses_by s.sizes).G) }
    ensures a_bound { (result.a ≤ 16) × (result.b ≤ 16) × (result.c ≤ 528) × (result.d ≤ 1064448) × (result.e ≤ 253440) × (result.f ≤ 32768) × (result.g ≤ 15482880) }
{
    let Sizes { n, k, m, g, .. } = s.sizes;
    let vertex_pairs = pair_count(n);
    let agent_pairs = pair_count(k);
    Families {
        a: k,
        b: g,
        c: (m + 1) * k,
        d: (m + 1) * k * vertex_pairs,
        e: (m + 1) * n * agent_pairs,
        f: m * k * n,
        g: clauses_of_g(s),
    }
}

// Clauses in all.
pub fn clause_count(s: Shape) -> usize
    ensures { result ≡ clause_count s.sizes }
{
    let c = clauses_by(s);
    c.a + c.b + c.c + c.d + c.e + c.f + c.g
}

// Words in all, zeros included.
pub fn word_count(s: Shape) -> usize
    ensures { result ≡ word_count s.sizes }
{
    let Sizes { n, k, e, m, g, .. } = s.sizes;
    let c = clauses_by(s);
    2 * k
        + 2 * g
        + (m + 1) * k * (n + 1)
        + 3 * c.d
        + 3 * c.e
        + m * k * (3 * n + 2 * e)
        + words_in_g(s.sizes) * c.g
}
