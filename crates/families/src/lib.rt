// The writers of the families. Each writes the words of its clauses to the start of the slice that it is lent, and answers how
// many they are: the next begin at the word after them. A family is its blocks, and only `write_block` asks which family it is.
#![tactic(auto)]

ghost use Rattle.std.specs.Prelude.{◌≡◌, [], ◌∷◌, ℕ, suc, ◌+◌, ◌*◌, ◌^◌, ◌≤◌, ◌<◌, length, get_or};
ghost use Rattle.lists.specs.Loop.{for, each};
ghost use Rattle.lists.specs.Slice.{Wrote};
ghost use Rattle.formula.specs.Variables.{X, ¬X, highest};
ghost use Rattle.bits.specs.Bits.{set?};
ghost use Rattle.formula.specs.Formula.{line, no_two, block_b, block_d, block_e, block_f, no_following, no_exchange};
ghost use Rattle.formula.specs.Blocks.{times, blocks_at, no_exchange_from, block_g, held, block, family};
ghost use Rattle.instance.specs.Instance.{GoalBelow, joined};
ghost use Rattle.instance.specs.Problem.{checked_of};
ghost use Rattle.counts.specs.Families.{place_of};
ghost use Rattle.families.specs.Runs.{nots, above, apart, exchanging};

use counts::Family;
use instance::{Problem, Shape};
use variables::{Agent, Step, Variable, Vertex};

// Variables at one distance from each to the next.
#[derive(Clone, Copy)]
pub struct Run {
    pub first: Variable,
    pub stride: usize,
    pub count: usize,
}

// A, and B where there is a goal, of agent a: it is at time t where its byte of a row says.
fn write_unit(f: &mut [i32], s: Shape, t: Step, row: &[u8; 16], a: Agent) -> usize
    requires { (t.0 ≤ s.sizes.m) × (a.0 < s.sizes.k) × (get_or row.now a.0 0 < s.sizes.n) × (2 ≤ length f.old) }
    ensures { Wrote (line (X s.sizes t.0 a.0 (get_or row.now a.0 0) ∷ [])) f.old f.new result }
{
    let v = Vertex(usize::from(row[a.0]));
    clauses::put_clause(f, [clauses::positive(s, t, a, v)])
}

// B, of agent a: at time m it is at its goal, if it has one.
fn write_goal(f: &mut [i32], s: Shape, goals: &[u8; 16], a: Agent) -> usize
    requires a_lt_k { (a.0 < s.sizes.k) × GoalBelow s.sizes.n (get_or goals.now a.0 0) }
    requires a_in_bounds { length (each line (block_b s.sizes (λ i. get_or goals.now i 0) a.0)) ≤ length f.old }
    ensures { Wrote (each line (block_b s.sizes (λ i. get_or goals.now i 0) a.0)) f.old f.new result }
{
    if goals::is_free(goals[a.0]) {
        return 0;
    }
    write_unit(f, s, Step(s.sizes.m), goals, a)
}

// The negation of variable i of a run.
fn not_in(run: Run, i: usize) -> i32
    requires { run.first.0 + i * run.stride ≤ highest }
    ensures { result ≡ nots run i }
{
    variables::negation_of(Variable(run.first.0 + i * run.stride))
}

// Of a run, i and each that comes after it do not both hold.
fn write_above(f: &mut [i32], run: Run, i: usize) -> usize
    requires i_lt_count { (i < run.count) × (run.first.0 + run.count * run.stride ≤ highest) }
    requires i_in_bounds { length (each line (for run.count (above (nots run) i))) ≤ length f.old }
    ensures { Wrote (each line (for run.count (above (nots run) i))) f.old f.new result }
{
    let next = i + 1;
    let x = not_in(run, i);
    clauses::write_each(
        f,
        run.count - next,
        |f, j| clauses::put_clause(f, [x, not_in(run, next + j)]),
    )
}

// No two of a run hold.
fn write_no_two(f: &mut [i32], run: Run) -> usize
    requires stride_bound { run.first.0 + run.count * run.stride ≤ highest }
    requires run_in_bounds { length (each line (no_two run.count (nots run))) ≤ length f.old }
    ensures { Wrote (each line (no_two run.count (nots run))) f.old f.new result }
{
    clauses::write_each(f, run.count, |f, i| write_above(f, run, i))
}

// D, of time t and agent a: the vertices are a run.
fn write_d(f: &mut [i32], s: Shape, t: Step, a: Agent) -> usize
    requires t_le_m { (t.0 ≤ s.sizes.m) × (a.0 < s.sizes.k) }
    requires a_in_bounds { length (each line (block_d s.sizes t.0 a.0)) ≤ length f.old }
    ensures { Wrote (each line (block_d s.sizes t.0 a.0)) f.old f.new result }
{
    let first = variables::variable_of(s, t, a, Vertex(0));
    let run = Run {
        first,
        stride: 1,
        count: s.sizes.n,
    };
    write_no_two(f, run)
}

// E, of time t and vertex v: the agents are a run, each a whole history after the one before.
fn write_e(f: &mut [i32], s: Shape, t: Step, v: Vertex) -> usize
    requires t_le_m { (t.0 ≤ s.sizes.m) × (v.0 < s.sizes.n) }
    requires v_in_bounds { length (each line (block_e s.sizes t.0 v.0)) ≤ length f.old }
    ensures { Wrote (each line (block_e s.sizes t.0 v.0)) f.old f.new result }
{
    let first = variables::variable_of(s, t, Agent(0), v);
    let run = Run {
        first,
        stride: (s.sizes.m + 1) * s.sizes.n,
        count: s.sizes.k,
    };
    write_no_two(f, run)
}

// F, of time t and agent a.
fn write_f(f: &mut [i32], problem: &Problem, t: Step, a: Agent) -> usize
    requires t_lt_m { (t.0 < problem.now.shape.sizes.m) × (a.0 < problem.now.shape.sizes.k) }
    requires a_in_bounds { length (each line (block_f problem.now.shape.sizes (joined problem.now.near) t.0 a.0)) ≤ length f.old }
    ensures { Wrote (each line (block_f problem.now.shape.sizes (joined problem.now.near) t.0 a.0)) f.old f.new result }
{
    let s = problem.shape;
    clauses::write_each(
        f,
        s.sizes.n,
        |f, v| clauses::put_onward(f, s, problem.near[v], t, a, Vertex(v)),
    )
}

// Of G under rule 1, time t and agents a and b: where they are two, a does not go where b was.
fn write_apart(f: &mut [i32], s: Shape, t: Step, a: Agent, b: Agent) -> usize
    requires t_lt_m { (t.0 < s.sizes.m) × (a.0 < s.sizes.k) × (b.0 < s.sizes.k) }
    requires b_in_bounds { length (each line (apart s.sizes t.0 a.0 b.0)) ≤ length f.old }
    ensures { Wrote (each line (apart s.sizes t.0 a.0 b.0)) f.old f.new result }
{
    if a.0 == b.0 {
        return 0;
    }
    let next = Step(t.0 + 1);
    clauses::write_each(f, s.sizes.n, |f, v| {
        let literals = [
            clauses::negative(s, t, b, Vertex(v)),
            clauses::negative(s, next, a, Vertex(v)),
        ];
        clauses::put_clause(f, literals)
    })
}

// G under rule 1, of time t and agent a.
fn write_following(f: &mut [i32], s: Shape, t: Step, a: Agent) -> usize
    requires t_lt_m { (t.0 < s.sizes.m) × (a.0 < s.sizes.k) }
    requires a_in_bounds { length (each line (no_following s.sizes t.0 a.0)) ≤ length f.old }
    ensures { Wrote (each line (no_following s.sizes t.0 a.0)) f.old f.new result }
{
    clauses::write_each(f, s.sizes.k, |f, b| write_apart(f, s, t, a, Agent(b)))
}

// Of G under rule 2, time t and agent b: the clause that begins with x and y, which say that another agent does not go from u to v.
fn put_partner(
    f: &mut [i32],
    s: Shape,
    t: Step,
    u: Vertex,
    v: Vertex,
    x: i32,
    y: i32,
    b: usize,
) -> usize
    requires { (t.0 < s.sizes.m) × (u.0 < s.sizes.n) × (v.0 < s.sizes.n) × (b < s.sizes.k) × (5 ≤ length f.old) }
    ensures { Wrote (line (x ∷ y ∷ ¬X s.sizes t.0 b v.0 ∷ ¬X s.sizes (suc t.0) b u.0 ∷ [])) f.old f.new result }
{
    let next = Step(t.0 + 1);
    let literals = [
        x,
        y,
        clauses::negative(s, t, Agent(b), v),
        clauses::negative(s, next, Agent(b), u),
    ];
    clauses::put_clause(f, literals)
}

// Of G under rule 2, time t and agent a: with no other agent it exchanges u and v. Those below it and those above it have loops of their
// own, without a test.
fn write_exchanges(f: &mut [i32], s: Shape, t: Step, u: Vertex, v: Vertex, a: Agent) -> usize
    requires t_lt_m { (t.0 < s.sizes.m) × (u.0 < s.sizes.n) × (v.0 < s.sizes.n) × (a.0 < s.sizes.k) }
    requires a_in_bounds { length (each line (for s.sizes.k (exchanging s.sizes t.0 u.0 v.0 a.0))) ≤ length f.old }
    ensures { Wrote (each line (for s.sizes.k (exchanging s.sizes t.0 u.0 v.0 a.0))) f.old f.new result }
{
    let next = Step(t.0 + 1);
    let x = clauses::negative(s, t, a, u);
    let y = clauses::negative(s, next, a, v);
    let below = a.0;
    let above = below + 1;
    let at = clauses::write_each(f, below, |f, b| put_partner(f, s, t, u, v, x, y, b));
    let more = s.sizes.k - above;
    at + clauses::write_each(
        &mut f[at..],
        more,
        |f, b| put_partner(f, s, t, u, v, x, y, above + b),
    )
}

// The same, of each agent.
fn write_no_exchange(f: &mut [i32], s: Shape, t: Step, u: Vertex, v: Vertex) -> usize
    requires t_lt_m { (t.0 < s.sizes.m) × (u.0 < s.sizes.n) × (v.0 < s.sizes.n) }
    requires v_in_bounds { length (each line (no_exchange s.sizes t.0 u.0 v.0)) ≤ length f.old }
    ensures { Wrote (each line (no_exchange s.sizes t.0 u.0 v.0)) f.old f.new result }
{
    clauses::write_each(
        f,
        s.sizes.k,
        |f, a| write_exchanges(f, s, t, u, v, Agent(a)),
    )
}

// G under rule 2, of time t and the edges with the low end u: each high end is a neighbour above it, and the neighbours of u are the
// bits of a word.
fn write_from(f: &mut [i32], s: Shape, word: u64, t: Step, u: Vertex) -> usize
    requires t_lt_m { (t.0 < s.sizes.m) × (u.0 < s.sizes.n) × (word < 2 ^ s.sizes.n) }
    requires u_in_bounds { length (each line (no_exchange_from s.sizes (λ _. set? word) t.0 u.0)) ≤ length f.old }
    ensures { Wrote (each line (no_exchange_from s.sizes (λ _. set? word) t.0 u.0)) f.old f.new result }
{
    let mut rest = bits::above(word, u.0);
    let mut at: usize = 0;
    while rest != 0 {
        let v = u64::trailing_zeros(rest) as usize;
        at += write_no_exchange(&mut f[at..], s, t, u, Vertex(v));
        rest = rest & (rest - 1);
    }
    at
}

// G, of time t and x: an agent under rule 1, a low end under rule 2.
fn write_g(f: &mut [i32], problem: &Problem, t: Step, x: usize) -> usize
    requires t_lt_m { (t.0 < problem.now.shape.sizes.m) × (x < blocks_at problem.now.shape.sizes 6) }
    requires x_in_bounds { length (each line (block_g problem.now.shape.sizes (joined problem.now.near) t.0 x)) ≤ length f.old }
    ensures { Wrote (each line (block_g problem.now.shape.sizes (joined problem.now.near) t.0 x)) f.old f.new result }
{
    let s = problem.shape;
    if s.sizes.rule == 2 {
        return write_from(f, s, problem.near[x], t, Vertex(x));
    }
    write_following(f, s, t, Agent(x))
}

// A family's block of t and x.
pub fn write_block(f: &mut [i32], problem: &Problem, which: Family, t: usize, x: usize) -> usize
    requires t_lt_times { (t < times problem.now.shape.sizes (place_of which)) × (x < blocks_at problem.now.shape.sizes (place_of which)) }
    requires x_in_bounds { length (each line (block (held (checked_of problem.now)) (place_of which) t x)) ≤ length f.old }
    ensures { Wrote (each line (block (held (checked_of problem.now)) (place_of which) t x)) f.old f.new result }
{
    let s = problem.shape;
    match which {
        Family::A => write_unit(f, s, Step(0), &problem.starts, Agent(x)),
        Family::B => write_goal(f, s, &problem.goals, Agent(x)),
        Family::C => clauses::put_somewhere(f, s, Step(t), Agent(x)),
        Family::D => write_d(f, s, Step(t), Agent(x)),
        Family::E => write_e(f, s, Step(t), Vertex(x)),
        Family::F => write_f(f, problem, Step(t), Agent(x)),
        Family::G => write_g(f, problem, Step(t), x),
    }
}

// The blocks of t.
fn write_step(f: &mut [i32], problem: &Problem, which: Family, t: usize) -> usize
    requires t_lt_times { t < times problem.now.shape.sizes (place_of which) }
    requires t_in_bounds { length (each line (for (blocks_at problem.now.shape.sizes (place_of which)) (block (held (checked_of problem.now)) (place_of which) t))) ≤ length f.old }
    ensures { Wrote (each line (for (blocks_at problem.now.shape.sizes (place_of which)) (block (held (checked_of problem.now)) (place_of which) t))) f.old f.new result }
{
    let count = counts::blocks_at(problem.shape, which);
    clauses::write_each(f, count, |f, x| write_block(f, problem, which, t, x))
}

// A family.
pub fn write_family(f: &mut [i32], problem: &Problem, which: Family) -> usize
    requires { length (each line (family (held (checked_of problem.now)) (place_of which))) ≤ length f.old }
    ensures { Wrote (each line (family (held (checked_of problem.now)) (place_of which))) f.old f.new result }
{
    let count = counts::times_of(problem.shape, which);
    clauses::write_each(f, count, |f, t| write_step(f, problem, which, t))
}
