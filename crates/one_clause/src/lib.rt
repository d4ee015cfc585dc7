// One clause of the formula, asked by number.
#![tactic(auto)]

ghost use Rattle.std.specs.Prelude.{◌≡◌, [], ◌∷◌, ◌≢◌, ℕ, suc, ◌*◌, ◌-◌, ◌^◌, ◌≤◌, ◌<◌, length, get_or, ℤ};
ghost use Rattle.lists.specs.Loop.{for, sum, pairs};
ghost use Rattle.lists.specs.Slice.{Wrote};
ghost use Rattle.answers.specs.Returned.{answer_of};
ghost use Rattle.instance.specs.Instance.{HasGoal, joined};
ghost use Rattle.instance.specs.Ready.{Ready};
ghost use Rattle.instance.specs.Problem.{checked_of};
ghost use Rattle.formula.specs.Variables.{Literal, X};
ghost use Rattle.formula.specs.Formula.{line, no_two, no_following, exchange};
ghost use Rattle.formula.specs.Blocks.{times, blocks_at, by_blocks, held, block, family};
ghost use Rattle.formula.specs.Counts.{clauses_by, total, clause_count};
ghost use Rattle.calls.specs.Calls.{clause_answer, clause_slice};
ghost use Rattle.counts.specs.Families.{place_of};
ghost use Rattle.one_clause.specs.Spot.{count, count_each, Stands, Slot, PairAt, line_at};

use answers::{Reason, Refusal};
use counts::Family;
use edges::Edge;
use instance::{Problem, Shape, Sizes};
use variables::{Agent, Step, Vertex};

// Where a clause stands: its family, how many slots each of the family's blocks has, and the place in the family.
#[derive(Clone, Copy)]
struct Spot {
    family: Family,
    each: usize,
    place: usize,
}

#[derive(Clone, Copy)]
struct Pair {
    low: usize,
    high: usize,
}

// The family whose range of clause numbers holds the number. A block of G, under rule 1, has a slot for each other agent and vertex.
fn spot_of(s: Shape, number: usize) -> Spot
    requires { number < total (clauses_by s.sizes) }
    ensures { Stands s.sizes number (place_of result.family) result.each result.place }
{
    let Sizes { n, k, .. } = s.sizes;
    let count = counts::clauses_by(s);
    let before_g = [
        (Family::A, count.a, 1),
        (Family::B, count.b, 1),
        (Family::C, count.c, 1),
        (Family::D, count.d, counts::pair_count(n)),
        (Family::E, count.e, counts::pair_count(k)),
        (Family::F, count.f, n),
    ];
    let mut place = number;
    for (family, clauses, each) in before_g {
        if place < clauses {
            return Spot {
                family,
                each,
                place,
            };
        }
        place -= clauses;
    }
    Spot {
        family: Family::G,
        each: (k - 1) * n,
        place,
    }
}

// The slot of the clause at a place of a family. In B free agents have no clause, so it is that of the agent at this place among those
// that have a goal.
fn slot_of(problem: &Problem, family: Family, place: usize) -> usize
    requires { place < count problem.now.shape.sizes (place_of family) }
    ensures { Slot problem.now.shape.sizes (λ a. get_or problem.now.goals a 0) (place_of family) place result }
{
    match family {
        Family::B => goals::agent_at(&problem.goals, problem.shape.sizes.k, place),
        _ => place,
    }
}

// Pair number p of the numbers below n: its lower number is the greatest whose count of pairs below is not above p.
fn pair_of(n: usize, p: usize) -> Pair
    requires { (n ≤ 64) × (p < pairs n) }
    ensures { PairAt n p result.low result.high }
{
    let mut low: usize = 0;
    let mut end = n;
    // The count of `low` is not above p, that of `end` is. (`partition_point` searches a slice: the counts are worked out, not stored.)
    while low + 1 < end {
        let middle = (low + end) / 2;
        if counts::pairs_below(n, middle) <= p {
            low = middle;
        } else {
            end = middle;
        }
    }
    Pair {
        low,
        high: low + 1 + (p - counts::pairs_below(n, low)),
    }
}

// Family A: agent a is at its start; family B: at its goal. Byte a of the row names its vertex.
fn put_end_of(f: &mut [i32], s: Shape, t: Step, row: &[u8; 16], a: usize) -> usize
    requires { (t.0 ≤ s.sizes.m) × (a < s.sizes.k) × (get_or row.now a 0 < s.sizes.n) × (2 ≤ length f.old) }
    ensures { Wrote (line (X s.sizes t.0 a (get_or row.now a 0) ∷ [])) f.old f.new result }
{
    let v = row[a];
    clauses::put_clause(
        f,
        [clauses::positive(s, t, Agent(a), Vertex(usize::from(v)))],
    )
}

// Families D and E: clause p of those that two different numbers below n are not both true, by the literal of each.
fn put_two<L: Fn(usize) -> i32>(f: &mut [i32], n: usize, p: usize, literal: L) -> usize
    requires p_bound { (n ≤ 64) × (p < pairs n) }
    requires room { (¬x : ℕ → Literal) × (length (line_at (no_two n ¬x) p) ≤ length f.old) }
    requires callable { (v : ℕ) → v < n → L.pre literal v }
    ensures { (¬x : ℕ → Literal) → ((v : ℕ) (r : ℤ) → v < n → L.post literal v r → r ≡ ¬x v) → Wrote (line_at (no_two n ¬x) p) f.old f.new result }
{
    let pair = pair_of(n, p);
    clauses::put_clause(f, [literal(pair.low), literal(pair.high)])
}

// The agent at a place among those other than a.
fn other(a: usize, place: usize) -> usize
    requires { place < 16 }
    ensures { (place < a → result ≡ place) × (a ≤ place → result ≡ suc place) × (result ≤ suc place) }
{
    if place < a {
        return place;
    }
    place + 1
}

// Family G under rule 1: clause p of time t and agent a.
fn put_following(f: &mut [i32], s: Shape, t: Step, a: Agent, p: usize) -> usize
    requires t_lt_m { (t.0 < s.sizes.m) × (a.0 < s.sizes.k) × (p < (s.sizes.k - 1) * s.sizes.n) }
    requires p_in_bounds { length (line_at (no_following s.sizes t.0 a.0) p) ≤ length f.old }
    ensures { Wrote (line_at (no_following s.sizes t.0 a.0) p) f.old f.new result }
{
    let b = Agent(other(a.0, p / s.sizes.n));
    let v = Vertex(p % s.sizes.n);
    let next = Step(t.0 + 1);
    let literals = [
        clauses::negative(s, t, b, v),
        clauses::negative(s, next, a, v),
    ];
    clauses::put_clause(f, literals)
}

// Family G under rule 2: agents a and b do not exchange the ends of an edge.
fn put_exchange(f: &mut [i32], s: Shape, t: Step, edge: Edge, a: Agent, b: Agent) -> usize
    requires { (t.0 < s.sizes.m) × (edge.low < s.sizes.n) × (edge.high < s.sizes.n) × (a.0 < s.sizes.k) × (b.0 < s.sizes.k) × (5 ≤ length f.old) }
    ensures { Wrote (line (exchange s.sizes t.0 edge.low edge.high a.0 b.0)) f.old f.new result }
{
    let low = Vertex(edge.low);
    let high = Vertex(edge.high);
    let next = Step(t.0 + 1);
    let literals = [
        clauses::negative(s, t, a, low),
        clauses::negative(s, next, a, high),
        clauses::negative(s, t, b, high),
        clauses::negative(s, next, b, low),
    ];
    clauses::put_clause(f, literals)
}

// Family G under rule 2: the clause at a place, by time, edge and two agents.
fn put_exchange_at(f: &mut [i32], problem: &Problem, place: usize) -> usize
    requires rule_2 { problem.now.shape.sizes.rule ≡ 2 }
    requires place_bound { (place < problem.now.shape.sizes.m * problem.now.shape.sizes.e * (problem.now.shape.sizes.k * (problem.now.shape.sizes.k - 1))) × (length (line_at (by_blocks problem.now.shape.sizes (joined problem.now.near)) place) ≤ length f.old) }
    ensures { Wrote (line_at (by_blocks problem.now.shape.sizes (joined problem.now.near)) place) f.old f.new result }
{
    let s = problem.shape;
    let Sizes { n, k, e, .. } = s.sizes;
    let others = k - 1;
    let each = k * others;
    let at = place / each;
    let edge = edges::edge_at(&problem.near, n, at % e);
    let p = place % each;
    let a = p / others;
    let b = other(a, p % others);
    put_exchange(f, s, Step(at / e), edge, Agent(a), Agent(b))
}

// The clause at a place of the block of t and x. It is not in G under rule 2.
fn put_clause(
    f: &mut [i32],
    problem: &Problem,
    family: Family,
    t: usize,
    x: usize,
    place: usize,
) -> usize
    requires x_bound { (t < times problem.now.shape.sizes (place_of family)) × (x < blocks_at problem.now.shape.sizes (place_of family)) × (place < count_each problem.now.shape.sizes (place_of family)) × (place_of family ≡ 1 → HasGoal (get_or problem.now.goals x 0)) × (place_of family ≡ 6 → problem.now.shape.sizes.rule ≢ 2) }
    requires place_in_bounds { length (line_at (block (held (checked_of problem.now)) (place_of family) t x) place) ≤ length f.old }
    ensures { Wrote (line_at (block (held (checked_of problem.now)) (place_of family) t x) place) f.old f.new result }
{
    let s = problem.shape;
    match family {
        Family::A => put_end_of(f, s, Step(0), &problem.starts, x),
        Family::B => put_end_of(f, s, Step(s.sizes.m), &problem.goals, x),
        Family::C => clauses::put_somewhere(f, s, Step(t), Agent(x)),
        Family::D => put_two(
            f,
            s.sizes.n,
            place,
            |v| clauses::negative(s, Step(t), Agent(x), Vertex(v)),
        ),
        Family::E => put_two(
            f,
            s.sizes.k,
            place,
            |a| clauses::negative(s, Step(t), Agent(a), Vertex(x)),
        ),
        Family::F => {
            clauses::put_onward(f, s, problem.near[place], Step(t), Agent(x), Vertex(place))
        }
        Family::G => put_following(f, s, Step(t), Agent(x), place),
    }
}

// The clause with a number.
fn put_number(f: &mut [i32], problem: &Problem, number: usize) -> usize
    requires { (number < clause_count problem.now.shape.sizes) × (length (line_at (for 7 (family (held (checked_of problem.now)))) number) ≤ length f.old) }
    ensures { Wrote (line_at (for 7 (family (held (checked_of problem.now)))) number) f.old f.new result }
{
    let s = problem.shape;
    let Spot {
        family,
        each,
        place,
    } = spot_of(s, number);
    if (family == Family::G) & (s.sizes.rule == 2) {
        return put_exchange_at(f, problem, place);
    }
    let slot = slot_of(problem, family, place);
    let block = slot / each;
    let width = counts::blocks_at(s, family);
    put_clause(
        f,
        problem,
        family,
        block / width,
        block % width,
        slot % each,
    )
}

// One clause by number: questions 1 to 10, 31, 11 and 12. A refusal changes no word of the slice.
pub fn clause(
    b: &[u8],
    m: usize,
    rule: usize,
    number: usize,
    f: &mut [i32],
) -> Result<usize, Refusal>
    ensures value { answer_of result ≡ clause_answer b.now m rule number (length f.old) }
    ensures f_after { f.new ≡ clause_slice b.now m rule number f.old }
{
    let problem = instance_check::check_instance(b, m, rule)?;
    let count = counts::clause_count(problem.shape);
    if count <= number {
        return Err(Reason::ClauseNumber.at(count));
    }
    let mut line = [0i32; 66];
    let words = put_number(&mut line, &problem, number);
    if f.len() < words {
        return Err(Reason::FormulaRoom.at(words));
    }
    f[..words].copy_from_slice(&line[..words]);
    Ok(words)
}
