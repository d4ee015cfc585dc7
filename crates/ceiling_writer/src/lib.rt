// The writer with a ceiling: the seven families, then what the ceiling adds.
#![tactic(auto)]

ghost use Rattle.std.specs.Prelude.{◌≡◌, length};
ghost use Rattle.answers.specs.Returned.{answer_of};
ghost use Rattle.calls.specs.Ceiling.{ceiling_write_answer, ceiling_write_slice};

use answers::Refusal;

// Questions 1 to 10, 31, 32 and 12. A refusal changes no word of the slice. (In lines of its own beside `write_formula` and
// `write_pruned`: one function for the three, lent the number of words and their writer as closures, would leave as many lines to each.)
pub fn write_ceiling(
    b: &[u8],
    m: usize,
    rule: usize,
    c: usize,
    f: &mut [i32],
) -> Result<usize, Refusal>
    ensures value { answer_of result ≡ ceiling_write_answer b.now m rule c (length f.old) }
    ensures f_after { f.new ≡ ceiling_write_slice b.now m rule c f.old }
{
    let (problem, ceiling) = ceiling_size::check_ceiling(b, m, rule, c)?;
    let needed = ceiling_size::words(problem.shape, ceiling);
    formula_writer::ask_room(needed, f.len())?;
    added_writer::write_all(f, &problem, ceiling);
    Ok(0)
}
