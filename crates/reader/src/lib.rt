// The reader of a solver's text: one pass reads the lines and marks the variables given; then the marks are asked, and the literals
// written.
#![tactic(auto)]

ghost use Rattle.std.specs.Prelude.{◌≡◌, [], ◌∷◌, ◌≤◌, ◌<◌, length, get_or, replicate, IsOk};
ghost use Rattle.std.specs.List.{list_all};
ghost use Rattle.lists.specs.Slice.{filled};
ghost use Rattle.answers.specs.Answers.{decide, lent};
ghost use Rattle.answers.specs.Returned.{asked, answered, answer_of};
ghost use Rattle.answers.specs.Fault.{FirstFailing};
ghost use Rattle.solver_text.specs.Form.{given, in_order};
ghost use Rattle.solver_text.specs.Walk.{whole?};
ghost use Rattle.solver_lines.specs.Lines.{marked};
ghost use Rattle.calls.specs.Calls.{text_questions, read_rest, read_answer, read_slice};
ghost use Rattle.reader.specs.Marks.{once?, entry_of, entries_of, Says, form_questions};

use answers::{Reason, Refusal};
use solver_lines::Mark;
use solver_text::Said;
use variables::Variable;

// Are the s line, and the 0 where it is SATISFIABLE, there?
fn is_whole(said: Said) -> bool
    ensures { result ≡ whole? said }
{
    match said.verdict {
        Some(verdict) => !verdict.satisfiable | said.closed,
        None => false,
    }
}

// Questions 27 and 28. Where both are answered yes, the marks are those of the literals.
fn ask_form(text: &[u8], n: usize, marks: &mut [Mark]) -> Result<(), Refusal>
    requires { (n ≤ 65536) × (n ≤ length marks.old) }
    ensures value { asked result ≡ decide (form_questions n text.now) 0 }
    ensures marks_after { IsOk result → marks.new ≡ marked marks.old (given text.now) }
{
    if 524288 < text.len() {
        return Err(Reason::TextForm.at(524288));
    }
    let said = match solver_lines::read_lines(text, n, marks) {
        Ok(said) => said,
        Err(place) => return Err(Reason::TextForm.at(place)),
    };
    if !is_whole(said) {
        return Err(Reason::TextForm.at(text.len()));
    }
    match said.verdict {
        Some(verdict) if !verdict.satisfiable => Err(Reason::Verdict.at(verdict.place)),
        _ => Ok(()),
    }
}

// Is a variable given once?
fn is_once(mark: Mark) -> bool
    ensures { result ≡ once? mark }
{
    (mark == Mark::Positive) | (mark == Mark::Negative)
}

// Do all marks say once? Beside `position` for speed: a loop with one way out, which the compiler takes many marks at a time.
fn all_once(marks: &[Mark]) -> bool
    ensures { result ≡ list_all once? marks.now }
{
    let mut all = true;
    for mark in marks {
        all &= is_once(*mark);
    }
    all
}

// The first mark that does not say once.
fn variable_fault(marks: &[Mark], n: usize) -> Option<usize>
    requires { n ≤ length marks.now }
    ensures { FirstFailing n (λ i. once? (get_or marks.now i Mark.Absent)) result }
{
    let given = &marks[..n];
    if all_once(given) {
        return None;
    }
    given.iter().position(|mark| !is_once(*mark))
}

// Questions 27 to 29, with marks of none. Where all are answered yes, the marks say the entries.
fn ask_text(text: &[u8], n: usize, marks: &mut [Mark]) -> Result<(), Refusal>
    requires { (n ≤ 65536) × (n ≤ length marks.old) × (marks.old ≡ replicate (length marks.old) Mark.Absent) }
    ensures value { answered (λ _. n) result ≡ decide (text_questions n text.now) n }
    ensures says { IsOk result → Says n (given text.now) marks.new }
{
    ask_form(text, n, marks)?;
    if let Some(i) = variable_fault(marks, n) {
        return Err(Reason::VariableCount.at(i + 1));
    }
    Ok(())
}

// The entry of variable i + 1 that its mark says.
fn entry_of(mark: Mark, i: usize) -> i32
    requires { i < 65536 }
    ensures { result ≡ entry_of mark i }
{
    let x = Variable(i + 1);
    match mark {
        Mark::Positive => variables::literal_of(x),
        _ => variables::negation_of(x),
    }
}

// The entries that the marks say, first in the slice. By index: an entry is of its mark and of its place, in two slices.
fn write_entries(z: &mut [i32], marks: &[Mark], n: usize)
    requires { (n ≤ 65536) × (n ≤ length marks.now) × (n ≤ length z.old) }
    ensures { z.new ≡ filled (entries_of n marks.now) z.old }
{
    for i in 0..n {
        z[i] = entry_of(marks[i], i);
    }
}

// Questions 27 to 29, and the entries written where all are answered yes: their number.
fn read_text(text: &[u8], n: usize, z: &mut [i32]) -> Result<usize, Refusal>
    requires { (n ≤ 38912) × (n ≤ length z.old) }
    ensures value { answer_of result ≡ decide (text_questions n text.now) n }
    ensures z_after { z.new ≡ lent (answer_of result) (in_order n (given text.now)) z.old }
{
    let mut marks = [Mark::Absent; 38912];
    ask_text(text, n, &mut marks)?;
    write_entries(z, &marks, n);
    Ok(n)
}

// Questions 16 and 27 to 29, of a formula of n variables, and the entries written where all are answered yes.
pub fn read_entries(n: usize, text: &[u8], z: &mut [i32]) -> Result<usize, Refusal>
    requires { n ≤ 38912 }
    ensures value { answer_of result ≡ decide (read_rest n text.now (length z.old)) n }
    ensures z_after { z.new ≡ lent (answer_of result) (in_order n (given text.now)) z.old }
{
    if z.len() < n {
        return Err(Reason::ValuationRoom.at(n));
    }
    read_text(text, n, z)
}

// The call, for every byte string, every two numbers, all bytes given as a text and every slice.
pub fn read_valuation(
    b: &[u8],
    m: usize,
    rule: usize,
    text: &[u8],
    z: &mut [i32],
) -> Result<usize, Refusal>
    ensures value { answer_of result ≡ read_answer b.now m rule text.now (length z.old) }
    ensures z_after { z.new ≡ read_slice b.now m rule text.now z.old }
{
    let problem = instance_check::check_instance(b, m, rule)?;
    read_entries(counts::variable_count(problem.shape), text, z)
}
