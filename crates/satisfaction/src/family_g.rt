// Family G at one time, asked of the plan: under rule 1 by the agents, under rule 2 by the edges.
ghost use Rattle.std.specs.Prelude.{◌≡◌, not, cond, List, ◌≢◌, suc, ◌*◌, ◌-◌, ◌<◌, ◌≤◌, length, ℤ, Some};
ghost use Rattle.lists.specs.Loop.{for};
ghost use Rattle.answers.specs.Fault.{FirstFailing};
ghost use Rattle.instance.specs.Instance.{joined, following};
ghost use Rattle.formula.specs.Variables.{variable_count};
ghost use Rattle.formula.specs.Formula.{no_following};
ghost use Rattle.formula.specs.Blocks.{no_exchange_from, block_g};
ghost use Rattle.plan.specs.Plan.{plan_bytes, plan_row};
ghost use Rattle.valuation.specs.Valuation.{true?};
ghost use Rattle.valuation.specs.Satisfying.{Valuation};
ghost use Rattle.valuation.specs.Places.{Places};
ghost use Rattle.satisfaction.specs.Rows.{Failing, Sound, LowestCrossed, goes, crossed};

use crate::row_at;
use conditions::Condition;
use instance::{Problem, Shape, Sizes};

// The place of agent b among the agents other than a.
fn other_at(a: usize, b: usize) -> usize
    ensures { (b < a → result ≡ b) × (a < b → result ≡ b - 1) × (result ≤ b) }
{
    if a < b {
        return b - 1;
    }
    b
}

// Under rule 1: the first agent that fails condition 2, the agent that stood where it goes, and that vertex.
fn fault_following(problem: &Problem, p: &[u8], t: usize) -> Option<usize>
    requires rule { problem.now.shape.sizes.rule ≢ 2 }
    requires sound { Sound problem.now.shape.sizes (joined problem.now.near) p.now t }
    ensures { (es : List ℤ) → Valuation (variable_count problem.now.shape.sizes) es → Places problem.now.shape.sizes (true? es) (plan_row problem.now.shape.sizes p.now) → Failing es (for problem.now.shape.sizes.k (no_following problem.now.shape.sizes t)) result }
{
    let Sizes { n, k, .. } = problem.shape.sizes;
    let a = conditions::step_fault(
        problem.shape.sizes,
        &problem.near,
        Condition::Entering,
        p,
        t,
    )?;
    let here = row_at(problem.shape, p, t);
    let w = row_at(problem.shape, p, t + 1)[a];
    let stander = conditions::first_on(here, w).unwrap();
    Some(a * ((k - 1) * n) + (other_at(a, stander) * n + usize::from(w)))
}

// The first agent that goes from u to v in step t.
fn first_from_to(s: Shape, p: &[u8], t: usize, u: u8, v: u8) -> Option<usize>
    requires { (length p.now ≡ plan_bytes s.sizes) × (t < s.sizes.m) }
    ensures { FirstFailing s.sizes.k (λ a. not (goes (plan_row s.sizes p.now t) (plan_row s.sizes p.now (suc t)) u v a)) result }
{
    conditions::first_going(row_at(s, p, t), row_at(s, p, t + 1), u, v)
}

// Is u below v, and do two agents exchange them in step t?
fn is_crossed(s: Shape, p: &[u8], t: usize, u: u8, v: u8) -> bool
    requires { (length p.now ≡ plan_bytes s.sizes) × (t < s.sizes.m) }
    ensures { result ≡ crossed s.sizes.k (plan_row s.sizes p.now t) (plan_row s.sizes p.now (suc t)) u v }
{
    if v <= u {
        return false;
    }
    if first_from_to(s, p, t, u, v).is_none() {
        return false;
    }
    first_from_to(s, p, t, v, u).is_some()
}

// The v above u such that two agents exchange u and v in step t: where the only agent on u goes.
fn high_crossed(problem: &Problem, p: &[u8], t: usize, u: usize) -> Option<usize>
    requires vertex { u < problem.now.shape.sizes.n }
    requires sound { Sound problem.now.shape.sizes (joined problem.now.near) p.now t }
    ensures { FirstFailing problem.now.shape.sizes.n (λ v. not (crossed problem.now.shape.sizes.k (plan_row problem.now.shape.sizes p.now t) (plan_row problem.now.shape.sizes p.now (suc t)) u v)) result }
{
    let a = conditions::first_on(row_at(problem.shape, p, t), u as u8)?;
    let v = row_at(problem.shape, p, t + 1)[a];
    if is_crossed(problem.shape, p, t, u as u8, v) {
        return Some(usize::from(v));
    }
    None
}

// The lowest u for which there is such a v, and the lowest such v. A loop, since a closure for `find_map` would be asked of numbers beyond n.
fn lowest_crossed(problem: &Problem, p: &[u8], t: usize) -> Option<(usize, usize)>
    requires { Sound problem.now.shape.sizes (joined problem.now.near) p.now t }
    ensures { LowestCrossed problem.now.shape.sizes.n (crossed problem.now.shape.sizes.k (plan_row problem.now.shape.sizes p.now t) (plan_row problem.now.shape.sizes p.now (suc t))) result }
{
    for u in 0..problem.shape.sizes.n {
        if let Some(v) = high_crossed(problem, p, t, u) {
            return Some((u, v));
        }
    }
    None
}

// Across the lowest edge, with the ends u and v, at which two agents exchange vertices in step t: the first agent that goes from u to v,
// and the first that goes from v to u.
fn exchange_place(problem: &Problem, p: &[u8], t: usize, u: usize, v: usize) -> usize
    requires sound { Sound problem.now.shape.sizes (joined problem.now.near) p.now t }
    requires lowest { LowestCrossed problem.now.shape.sizes.n (crossed problem.now.shape.sizes.k (plan_row problem.now.shape.sizes p.now t) (plan_row problem.now.shape.sizes p.now (suc t))) (Some (u, v)) }
    ensures { (es : List ℤ) → Valuation (variable_count problem.now.shape.sizes) es → Places problem.now.shape.sizes (true? es) (plan_row problem.now.shape.sizes p.now) → Failing es (for problem.now.shape.sizes.n (no_exchange_from problem.now.shape.sizes (joined problem.now.near) t)) (Some result) }
{
    let Sizes { n, k, .. } = problem.shape.sizes;
    let a = first_from_to(problem.shape, p, t, u as u8, v as u8).unwrap();
    let b = first_from_to(problem.shape, p, t, v as u8, u as u8).unwrap();
    edges::place_of(&problem.near, n, u, v) * (k * (k - 1)) + (a * (k - 1) + other_at(a, b))
}

// Under rule 2: the lowest edge at which two agents exchange vertices, which is looked for where an agent fails condition 2.
fn fault_exchange(problem: &Problem, p: &[u8], t: usize) -> Option<usize>
    requires rule { problem.now.shape.sizes.rule ≡ 2 }
    requires sound { Sound problem.now.shape.sizes (joined problem.now.near) p.now t }
    ensures { (es : List ℤ) → Valuation (variable_count problem.now.shape.sizes) es → Places problem.now.shape.sizes (true? es) (plan_row problem.now.shape.sizes p.now) → Failing es (for problem.now.shape.sizes.n (no_exchange_from problem.now.shape.sizes (joined problem.now.near) t)) result }
{
    conditions::step_fault(
        problem.shape.sizes,
        &problem.near,
        Condition::Entering,
        p,
        t,
    )?;
    let (u, v) = lowest_crossed(problem, p, t)?;
    Some(exchange_place(problem, p, t, u, v))
}

// Under either rule.
pub fn fault_g(problem: &Problem, p: &[u8], t: usize) -> Option<usize>
    requires { Sound problem.now.shape.sizes (joined problem.now.near) p.now t }
    ensures { (es : List ℤ) → Valuation (variable_count problem.now.shape.sizes) es → Places problem.now.shape.sizes (true? es) (plan_row problem.now.shape.sizes p.now) → Failing es (for (cond (following problem.now.shape.sizes) problem.now.shape.sizes.n problem.now.shape.sizes.k) (block_g problem.now.shape.sizes (joined problem.now.near) t)) result }
{
    if problem.shape.sizes.rule == 2 {
        return fault_exchange(problem, p, t);
    }
    fault_following(problem, p, t)
}
