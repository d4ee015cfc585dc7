// The floor: instance bytes in, the greatest distance from a start to its goal out. No plan that passes has a smaller makespan.
#![tactic(auto)]

ghost use Rattle.std.specs.Prelude.{◌≡◌, ◌+◌, ◌*◌, ◌<◌, length};
ghost use Rattle.answers.specs.Returned.{answer_of};
ghost use Rattle.calls.specs.Calls.{floor_answer};
ghost use Rattle.floor.specs.Measured.{Reached, measured, between};

use answers::{Reason, Refusal};
use instance::{Problem, Sizes};

// From the start of agent a to its goal, 0 where it is free; none where the goal cannot be reached, for which the table has the mark 255.
fn distance_of(problem: &Problem, table: &[[u8; 64]], a: usize) -> Option<usize>
    requires { (length table.now ≡ 64) × (a < problem.now.shape.sizes.k) }
    ensures { Reached (between problem.now.starts problem.now.goals table.now a) result }
{
    let goal = problem.goals[a];
    if goals::is_free(goal) {
        return Some(0);
    }
    let row = distance_table::row_for(table, &problem.starts, a);
    match row[usize::from(goal)] {
        255 => None,
        distance => Some(usize::from(distance)),
    }
}

// Question 30, and the greatest distance.
fn measure(problem: &Problem, table: &[[u8; 64]]) -> Result<usize, Refusal>
    requires { length table.now ≡ 64 }
    ensures { answer_of result ≡ measured problem.now.shape.sizes.k (between problem.now.starts problem.now.goals table.now) (4 + 2 * problem.now.shape.sizes.e + problem.now.shape.sizes.k) }
{
    let Sizes { k, e, .. } = problem.shape.sizes;
    let goals = 4 + 2 * e + k;
    let mut most: usize = 0;
    for a in 0..k {
        let Some(distance) = distance_of(problem, table, a) else {
            return Err(Reason::Unreachable.at(goals + a));
        };
        most = most.max(distance);
    }
    Ok(most)
}

// Questions 1 to 9 and 30. No horizon and no rule are given; the instance check is asked with horizon 0 and rule 1, which questions 10
// and 31 pass.
pub fn floor_of(b: &[u8]) -> Result<usize, Refusal>
    ensures { answer_of result ≡ floor_answer b.now }
{
    let problem = instance_check::check_instance(b, 0, 1)?;
    let table = distance_table::table_of(&problem.near, problem.shape.sizes.n);
    measure(&problem, &table)
}
