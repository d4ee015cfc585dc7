// The formula writer: instance bytes, a horizon, a movement rule and a lent slice in, the words of the formula out.
#![tactic(auto)]

ghost use Rattle.std.specs.Prelude.{◌≡◌, [], ◌∷◌, ◌++◌, ◌+◌, ◌≤◌, ◌<◌, length, take};
ghost use Rattle.lists.specs.Loop.{for, each};
ghost use Rattle.lists.specs.Slice.{Wrote};
ghost use Rattle.answers.specs.Answers.{decide};
ghost use Rattle.answers.specs.Returned.{asked, answer_of};
ghost use Rattle.instance.specs.Problem.{checked_of};
ghost use Rattle.counts.specs.Families.{place_of};
ghost use Rattle.formula.specs.Formula.{formula, line};
ghost use Rattle.formula.specs.Blocks.{held, family};
ghost use Rattle.calls.specs.Questions.{question12};
ghost use Rattle.calls.specs.Calls.{write_answer, write_slice};

use answers::{Reason, Refusal};
use counts::Family;
use instance::Problem;

// A family, to the part of the slice from `at` on. The answer is where it ends.
fn write_next(f: &mut [i32], problem: &Problem, which: Family, at: usize) -> usize
    requires { at + length (each line (family (held (checked_of problem.now)) (place_of which))) ≤ length f.old }
    ensures { Wrote (take at f.old ++ each line (family (held (checked_of problem.now)) (place_of which))) f.old f.new result }
{
    at + families::write_family(&mut f[at..], problem, which)
}

// The seven families, to a slice with room for them. Called one by one, each is compiled by itself; in a loop they share what they keep
// at hand, which is slow on small instances.
pub fn write_words(f: &mut [i32], problem: &Problem) -> usize
    requires { length (each line (for 7 (family (held (checked_of problem.now))))) ≤ length f.old }
    ensures { Wrote (each line (for 7 (family (held (checked_of problem.now))))) f.old f.new result }
{
    let a = write_next(f, problem, Family::A, 0);
    let b = write_next(f, problem, Family::B, a);
    let c = write_next(f, problem, Family::C, b);
    let d = write_next(f, problem, Family::D, c);
    let e = write_next(f, problem, Family::E, d);
    let g = write_next(f, problem, Family::F, e);
    write_next(f, problem, Family::G, g)
}

// Question 12, of a formula of so many words.
pub fn ask_room(needed: usize, room: usize) -> Result<(), Refusal>
    ensures { asked result ≡ decide (question12 needed room ∷ []) 0 }
{
    if room < needed {
        return Err(Reason::FormulaRoom.at(needed));
    }
    Ok(())
}

// Questions 1 to 10, 31 and 12. A refusal changes no word of the slice.
pub fn write_formula(b: &[u8], m: usize, rule: usize, f: &mut [i32]) -> Result<usize, Refusal>
    ensures value { answer_of result ≡ write_answer formula b.now m rule (length f.old) }
    ensures f_after { f.new ≡ write_slice formula b.now m rule f.old }
{
    let problem = instance_check::check_instance(b, m, rule)?;
    let needed = counts::word_count(problem.shape);
    ask_room(needed, f.len())?;
    write_words(f, &problem);
    Ok(0)
}
