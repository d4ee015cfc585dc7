// How large a formula is, in words and in clauses. Nothing is lent.
#![tactic(auto)]

ghost use Rattle.std.specs.Prelude.{◌≡◌, suc, ◌+◌, ◌*◌, ◌≤◌, min, length, get_or};
ghost use Rattle.lists.specs.Loop.{sum};
ghost use Rattle.answers.specs.Returned.{size_of};
ghost use Rattle.instance.specs.Problem.{checked_of};
ghost use Rattle.formula.specs.Formula.{formula};
ghost use Rattle.formula.specs.Counts.{word_count};
ghost use Rattle.formula.specs.Pruned.{pruned};
ghost use Rattle.calls.specs.Calls.{size_answer};
ghost use Rattle.formula_size.specs.ByTable.{count_by_table};

use answers::{Extent, Refusal};
use instance::{Problem, Shape};

// Questions 1 to 10 and 31.
pub fn formula_size(b: &[u8], m: usize, rule: usize) -> Result<Extent, Refusal>
    ensures { size_of result ≡ size_answer formula b.now m rule }
{
    let problem = instance_check::check_instance(b, m, rule)?;
    let s = problem.shape;
    let words = counts::word_count(s);
    let clauses = counts::clause_count(s);
    Ok(Extent { words, clauses })
}

// Of so many times, how many are too early or too late for a vertex. 16 bits, so that several vertices are taken at once.
fn times_far(times: u16, x: u8, y: u8) -> u16
    requires { times ≤ 33 }
    ensures { (result ≡ min times (x + y)) × (result ≤ 33) }
{
    times.min(u16::from(x) + u16::from(y))
}

// The clauses of H, of one agent.
fn count_for(s: Shape, from: &[u8; 64], to: &[u8; 64]) -> usize
    ensures { (result ≡ sum s.sizes.n (λ v. min (suc s.sizes.m) (get_or from.now v 0 + get_or to.now v 0))) × (result ≤ 2112) }
{
    let times = (s.sizes.m + 1) as u16;
    let mut count: u16 = 0;
    let n = s.sizes.n;
    for (x, y) in from[..n].iter().zip(&to[..n]) {
        count += times_far(times, *x, *y);
    }
    usize::from(count)
}

// The clauses of H, of an accepted instance and its table.
pub fn count_h(problem: &Problem, table: &[[u8; 64]]) -> usize
    requires { length table.now ≡ 64 }
    ensures { (result ≡ count_by_table (checked_of problem.now) table.now) × (result ≤ 33792) }
{
    let s = problem.shape;
    let mut count: usize = 0;
    for a in 0..s.sizes.k {
        let from = distance_table::row_for(table, &problem.starts, a);
        let to = distance_table::goal_row(table, &problem.goals, a);
        count += count_for(s, &from, &to);
    }
    count
}

// The words of the pruned formula, of which H has so many clauses: two words each.
pub fn pruned_words(s: Shape, more: usize) -> usize
    requires { more ≤ 33792 }
    ensures { result ≡ word_count s.sizes + 2 * more }
{
    counts::word_count(s) + 2 * more
}

// Questions 1 to 10 and 31. (Beside `formula_size`, and `ceiling_size`: what the three share is the check, one line by `?`.)
pub fn pruned_size(b: &[u8], m: usize, rule: usize) -> Result<Extent, Refusal>
    ensures { size_of result ≡ size_answer pruned b.now m rule }
{
    let problem = instance_check::check_instance(b, m, rule)?;
    let s = problem.shape;
    let table = distance_table::table_of(&problem.near, s.sizes.n);
    let more = count_h(&problem, &table);
    let words = pruned_words(s, more);
    let clauses = counts::clause_count(s) + more;
    Ok(Extent { words, clauses })
}
