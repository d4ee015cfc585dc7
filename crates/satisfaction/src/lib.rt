// Questions 23 and 24: the first wrong entry, and the first clause without a true literal. The clauses are those of the definitions;
// none is written out. One pass over the entries finds the wrong one and, of each agent at each time, its one vertex, or that there
// is none or several: this is the plan where families C and D hold, and then E, F and G are asked of the plan alone, F and G by the
// conditions of the plan check.
#![tactic(auto)]

mod family_g;

ghost use Rattle.std.specs.Prelude.{◌≡◌, ◌||◌, ℕ, ◌+◌, ◌-◌, ◌<◌, ◌≤◌, length, get_or, take, T, ℤ, List, IsNone};
ghost use Rattle.lists.specs.Loop.{for};
ghost use Rattle.lists.specs.Pairs.{pairs_below};
ghost use Rattle.answers.specs.Fault.{FirstFailing};
ghost use Rattle.instance.specs.Instance.{free, joined};
ghost use Rattle.formula.specs.Variables.{highest, variable_count, X};
ghost use Rattle.formula.specs.Formula.{block_c, block_d, block_e, block_f};
ghost use Rattle.formula.specs.Blocks.{times, family, held};
ghost use Rattle.instance.specs.Problem.{checked_of};
ghost use Rattle.counts.specs.Families.{place_of};
ghost use Rattle.conditions.specs.Inside.{Inside};
ghost use Rattle.plan.specs.Plan.{plan_bytes, plan_row};
ghost use Rattle.valuation.specs.Valuation.{true?, right_entry};
ghost use Rattle.valuation.specs.Satisfying.{Valuation};
ghost use Rattle.valuation.specs.Places.{Places};
ghost use Rattle.satisfaction.specs.Rows.{Failing, Stopping, Tallied, says, denies, Came, byte_of, Read, LowestShared, row, Before};

use conditions::Condition;
use counts::Family;
use family_g::fault_g;
use instance::{Problem, Shape, Sizes};
use variables::{Agent, Step, Variable};

// Which vertices the entries of one agent and time say.
#[derive(Clone, Copy)]
pub enum Said {
    Nothing,
    One(usize),
    Several,
}

impl Said {
    // As a byte of `vertices`: n for nothing, n + 1 for several.
    fn byte(self, n: usize) -> u8
        requires { (n ≤ 64) × (byte_of n self ≤ 65) }
        ensures { result ≡ byte_of n self }
    {
        match self {
            Said::Nothing => n as u8,
            Said::One(v) => v as u8,
            Said::Several => (n + 1) as u8,
        }
    }
}

// Of the entries of one agent and time: how many are not their variables' negatives, and the sum of their vertices.
#[derive(Clone, Copy)]
struct Undenied {
    count: u32,
    sum: u32,
}

// Is entry v from `base` on its variable's negative?
fn denied(entries: &[i32], base: usize, v: usize) -> bool
    requires { (base + v < length entries.now) × (base + v < highest) }
    ensures { result ≡ denies entries.now (base + v) }
{
    let e = entries[base + v];
    variables::is_negation(e, Variable(base + 1), v)
}

// Is entry i its variable or its negative?
fn is_right(entries: &[i32], i: usize) -> bool
    requires { (i < length entries.now) × (i < highest) }
    ensures { result ≡ right_entry entries.now i }
{
    let e = entries[i];
    variables::is_entry(e, Variable(i + 1))
}

// The n entries from `base` on. The loop has one way out, so that the compiler may take several entries at once; it counts by hand, since
// two counts of one pass are no chain of the library's.
fn tally_row(entries: &[i32], base: usize, n: usize) -> Undenied
    requires { (base + n ≤ length entries.now) × (base + n ≤ highest) × (n ≤ 64) }
    ensures { Tallied (λ v. denies entries.now (base + v)) n result.count result.sum }
{
    let mut negatives: u32 = 0;
    let mut sum: u32 = 0;
    for v in 0..n {
        if denied(entries, base, v) {
            negatives += 1;
        } else {
            sum += v as u32;
        }
    }
    Undenied {
        count: n as u32 - negatives,
        sum,
    }
}

// The first entry from `low` on, below `end`, that is not its variable's negative. A loop, since a closure for `find` would be asked of
// numbers that have no entry.
pub fn first_undenied(entries: &[i32], low: usize, end: usize) -> Option<usize>
    requires { (low ≤ end) × (end ≤ length entries.now) × (end ≤ highest) }
    ensures { Stopping (denies entries.now) low end result }
{
    for i in low..end {
        if !denied(entries, 0, i) {
            return Some(i);
        }
    }
    None
}

// The first that is neither its variable nor its negative. Also a loop.
pub fn first_wrong(entries: &[i32], low: usize, end: usize) -> Option<usize>
    requires { (low ≤ end) × (end ≤ length entries.now) × (end ≤ highest) }
    ensures { Stopping (right_entry entries.now) low end result }
{
    for i in low..end {
        if !is_right(entries, i) {
            return Some(i);
        }
    }
    None
}

// The n entries from `base` on: the first wrong one, or what they say.
fn read_row(entries: &[i32], base: usize, n: usize) -> Result<Said, usize>
    requires { (base + n ≤ length entries.now) × (base + n ≤ highest) × (n ≤ 64) }
    ensures { Came entries.now base n result }
{
    let t = tally_row(entries, base, n);
    if t.count == 0 {
        return Ok(Said::Nothing);
    }
    if t.count == 1 {
        let v = t.sum as usize;
        let at = base + v;
        if is_right(entries, at) {
            return Ok(Said::One(v));
        }
        return Err(at);
    }
    match first_wrong(entries, base, base + n) {
        None => Ok(Said::Several),
        Some(wrong) => Err(wrong),
    }
}

// The first wrong one of all entries, in their order: one agent after another and one time after another. Where none is wrong, `vertices`
// is left with the vertex of each time and agent.
pub fn read_entries(vertices: &mut [u8], entries: &[i32], s: Shape) -> Option<usize>
    requires { (length entries.now ≡ variable_count s.sizes) × (length vertices.old ≡ 528) }
    ensures first_wrong { FirstFailing (variable_count s.sizes) (right_entry entries.now) result }
    ensures vertices_len { length vertices.new ≡ 528 }
    ensures read { IsNone result → Read s.sizes entries.now (take (plan_bytes s.sizes) vertices.new) }
{
    let Sizes { n, k, m, .. } = s.sizes;
    let rows = m + 1;
    for a in 0..k {
        for t in 0..rows {
            let base = variables::first_entry(s, Step(t), Agent(a));
            match read_row(entries, base, n) {
                Ok(said) => vertices[t * k + a] = said.byte(n),
                Err(wrong) => return Some(wrong),
            }
        }
    }
    None
}

// Row t of a plan.
fn row_at(s: Shape, p: &[u8], t: usize) -> &[u8]
    requires { (length p.now ≡ plan_bytes s.sizes) × (t ≤ s.sizes.m) }
    ensures { (length result.now ≡ s.sizes.k) × ((a : ℕ) → a < s.sizes.k → get_or result.now a 0 ≡ plan_row s.sizes p.now t a) }
{
    let k = s.sizes.k;
    let at = t * k;
    &p[at..at + k]
}

// Families A and B: the first agent that is not at its vertex of the array at time t. Free agents are passed over; as starts there are none.
// A loop, since a closure for `position` would be asked of agents beyond k.
fn unit_fault(entries: &[i32], s: Shape, t: usize, ends: &[u8; 16]) -> Option<usize>
    requires valuation { Valuation (variable_count s.sizes) entries.now }
    requires t_le_m { (t ≤ s.sizes.m) × ((a : ℕ) → a < s.sizes.k → (T (free (get_or ends.now a 0)) → ⊥) → get_or ends.now a 0 < s.sizes.n) }
    ensures { FirstFailing s.sizes.k (λ a. free (get_or ends.now a 0) || true? entries.now (X s.sizes t a (get_or ends.now a 0))) result }
{
    for a in 0..s.sizes.k {
        let end = ends[a];
        if !goals::is_free(end) {
            let base = variables::first_entry(s, Step(t), Agent(a));
            if denied(entries, base, usize::from(end)) {
                return Some(a);
            }
        }
    }
    None
}

// Family A: the first agent that is not at its start.
fn fault_a(problem: &Problem, entries: &[i32]) -> Option<usize>
    requires { Valuation (variable_count problem.now.shape.sizes) entries.now }
    ensures { (t : ℕ) → Failing entries.now (row (held (checked_of problem.now)) 0 t) result }
{
    unit_fault(entries, problem.shape, 0, &problem.starts)
}

// Family B: the first agent that is not at its goal, counted among those that have one.
fn fault_b(problem: &Problem, entries: &[i32]) -> Option<usize>
    requires { Valuation (variable_count problem.now.shape.sizes) entries.now }
    ensures { (t : ℕ) → Failing entries.now (row (held (checked_of problem.now)) 1 t) result }
{
    let a = unit_fault(
        entries,
        problem.shape,
        problem.shape.sizes.m,
        &problem.goals,
    )?;
    Some(goals::count(&problem.goals, a))
}

// Family C at time t: the first agent with no vertex.
fn fault_c(p: &[u8], s: Shape, t: usize) -> Option<usize>
    requires { (length p.now ≡ plan_bytes s.sizes) × (t ≤ s.sizes.m) }
    ensures { (es : List ℤ) → Read s.sizes es p.now → Failing es (for s.sizes.k (block_c s.sizes t)) result }
{
    conditions::first_on(row_at(s, p, t), s.sizes.n as u8)
}

// The place of a pair among the pairs v < w below n: of v and the number that stands `gap` numbers after the next.
fn pair_at(n: usize, v: usize, gap: usize) -> usize
    requires { (v < n) × (n ≤ 64) × (gap ≤ 64) }
    ensures { (result ≡ pairs_below n v + gap) × (result ≤ 2080) }
{
    counts::pairs_below(n, v) + gap
}

// Family D at time t: the first two vertices of the first agent with several.
fn fault_d(entries: &[i32], p: &[u8], s: Shape, t: usize) -> Option<usize>
    requires read { Read s.sizes entries.now p.now }
    requires t_le_m { t ≤ s.sizes.m }
    ensures { Failing entries.now (for s.sizes.k (block_d s.sizes t)) result }
{
    let n = s.sizes.n;
    let a = conditions::first_on(row_at(s, p, t), (n + 1) as u8)?;
    let base = variables::first_entry(s, Step(t), Agent(a));
    let end = base + n;
    let first = first_undenied(entries, base, end).unwrap();
    let second = first_undenied(entries, first + 1, end).unwrap();
    Some(a * counts::pair_count(n) + pair_at(n, first - base, second - first - 1))
}

// `low`, or the vertex of agent a of a row where it is below n and `low` and a lower agent stands on it too.
fn lower(here: &[u8], a: usize, low: Option<usize>, n: usize) -> Option<usize>
    requires { (a < length here.now) × LowestShared a (λ i. get_or here.now i 0) n low }
    ensures { LowestShared (a + 1) (λ i. get_or here.now i 0) n result }
{
    let x = here[a];
    let v = usize::from(x);
    if low.unwrap_or(n) <= v {
        return low;
    }
    if conditions::first_on(&here[..a], x).is_some() {
        return Some(v);
    }
    low
}

// The lowest vertex on which two agents of a row stand. By index, since of each agent the part of the row before it is looked at.
fn lowest_shared(here: &[u8], n: usize) -> Option<usize>
    ensures { LowestShared (length here.now) (λ i. get_or here.now i 0) n result }
{
    let mut low = None;
    for a in 0..here.len() {
        low = lower(here, a, low, n);
    }
    low
}

// Family E at time t: the first two agents on the lowest vertex that is shared.
fn fault_e(p: &[u8], s: Shape, t: usize) -> Option<usize>
    requires { (length p.now ≡ plan_bytes s.sizes) × (t ≤ s.sizes.m) }
    ensures { (es : List ℤ) → Valuation (variable_count s.sizes) es → Places s.sizes (true? es) (plan_row s.sizes p.now) → Failing es (for s.sizes.n (block_e s.sizes t)) result }
{
    let Sizes { n, k, .. } = s.sizes;
    let here = row_at(s, p, t);
    let v = lowest_shared(here, n)?;
    let a = conditions::first_on(here, v as u8).unwrap();
    let gap = conditions::first_on(&here[a + 1..], v as u8).unwrap();
    Some(v * counts::pair_count(k) + pair_at(k, a, gap))
}

// Family F at time t: the vertex of the first agent that fails condition 1.
fn fault_f(problem: &Problem, p: &[u8], t: usize) -> Option<usize>
    requires { (length p.now ≡ plan_bytes problem.now.shape.sizes) × (t < problem.now.shape.sizes.m) × Inside p.now }
    ensures { (es : List ℤ) → Valuation (variable_count problem.now.shape.sizes) es → Places problem.now.shape.sizes (true? es) (plan_row problem.now.shape.sizes p.now) → Failing es (for problem.now.shape.sizes.k (block_f problem.now.shape.sizes (joined problem.now.near) t)) result }
{
    let a = conditions::step_fault(
        problem.shape.sizes,
        &problem.near,
        Condition::Crossing,
        p,
        t,
    )?;
    Some(a * problem.shape.sizes.n + usize::from(row_at(problem.shape, p, t)[a]))
}

// How many clauses a row of a family has.
fn row_size(problem: &Problem, family: Family) -> usize
    ensures { ((t : ℕ) → length (row (held (checked_of problem.now)) (place_of family) t) ≡ result) × (result ≤ 483840) }
{
    let Sizes {
        n,
        k,
        e,
        rule,
        g,
        ..
    } = problem.shape.sizes;
    match family {
        Family::A | Family::C => k,
        Family::B => g,
        Family::D => k * counts::pair_count(n),
        Family::E => n * counts::pair_count(k),
        Family::F => k * n,
        Family::G => {
            if rule == 2 {
                e * (k * (k - 1))
            } else {
                k * ((k - 1) * n)
            }
        }
    }
}

// Row t of a family, where the families before it have a true literal in every clause.
fn row_fault(
    problem: &Problem,
    entries: &[i32],
    p: &[u8],
    family: Family,
    t: usize,
) -> Option<usize>
    requires read { Read problem.now.shape.sizes entries.now p.now }
    requires before { (t < times problem.now.shape.sizes (place_of family)) × Before (held (checked_of problem.now)) entries.now (place_of family) }
    ensures { Failing entries.now (row (held (checked_of problem.now)) (place_of family) t) result }
{
    match family {
        Family::A => fault_a(problem, entries),
        Family::B => fault_b(problem, entries),
        Family::C => fault_c(p, problem.shape, t),
        Family::D => fault_d(entries, p, problem.shape, t),
        Family::E => fault_e(p, problem.shape, t),
        Family::F => fault_f(problem, p, t),
        Family::G => fault_g(problem, p, t),
    }
}

// The first clause without a true literal.
pub fn clause_fault(problem: &Problem, entries: &[i32], p: &[u8]) -> Option<usize>
    requires { Read problem.now.shape.sizes entries.now p.now }
    ensures { Failing entries.now (for 7 (family (held (checked_of problem.now)))) result }
{
    let mut at: usize = 0;
    for family in Family::ALL {
        let size = row_size(problem, family);
        for t in 0..counts::times_of(problem.shape, family) {
            if let Some(fault) = row_fault(problem, entries, p, family, t) {
                return Some(at + fault);
            }
            at += size;
        }
    }
    None
}
