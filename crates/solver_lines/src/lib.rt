// The lines of a solver's text: their tokens are read, the variables given are marked, and what they say is kept.
#![tactic(auto)]

ghost use Rattle.std.specs.Prelude.{◌≡◌, ◌+◌, ◌≤◌, ℕ, cond, length, take, eqb, IsSome, IsOk};
ghost use Rattle.std.specs.List.{position};
ghost use Rattle.solver_text.specs.Text.{Kind, values, kind, lines, pieces};
ghost use Rattle.solver_text.specs.Form.{literals_on, literals_of};
ghost use Rattle.solver_text.specs.Walk.{nothing};
ghost use Rattle.solver_tokens.specs.Token.{byte, line, literal};
ghost use Rattle.solver_lines.specs.Lines.{again, mark, marked, values_of, status_of, line_of, IsLines};

use solver_text::{Said, Verdict};

// How a variable is given: not, as itself, as its negative, or more than once.
#[derive(Clone, Copy, PartialEq, Eq)]
pub enum Mark {
    Absent,
    Positive,
    Negative,
    Repeated,
}

// The three s lines.
#[derive(Clone, Copy, PartialEq, Eq)]
enum Status {
    Satisfiable,
    Unsatisfiable,
    Unknown,
}

// The tokens of a v line: whether the 0 is among them, and where the line ends.
#[derive(Clone, Copy)]
struct Values {
    closed: bool,
    end: usize,
}

// A line: where it ends, and what has been said with it.
#[derive(Clone, Copy)]
struct Line {
    end: usize,
    said: Said,
}

// The mark of a variable that is given once more.
fn mark_after(m: Mark, negative: bool) -> Mark
    ensures { result ≡ again m (cond negative Mark.Negative Mark.Positive) }
{
    match m {
        Mark::Absent if negative => Mark::Negative,
        Mark::Absent => Mark::Positive,
        _ => Mark::Repeated,
    }
}

// Marks the variable of a literal; size 0 is none.
fn mark_literal(marks: &mut [Mark], negative: bool, size: usize)
    requires { size ≤ length marks.old }
    ensures { marks.new ≡ mark marks.old (literal negative size) }
{
    if size == 0 {
        return;
    }
    let i = size - 1;
    marks[i] = mark_after(marks[i], negative);
}

// The tokens of a v line, where no 0 has come before.
fn read_values(text: &[u8], from: usize, n: usize, marks: &mut [Mark]) -> Option<Values>
    requires { (from ≤ length text.now) × (n ≤ 65536) × (n ≤ length marks.old) }
    ensures value { result ≡ values_of n (line text.now from) from }
    ensures marks_after { IsSome result → marks.new ≡ marked marks.old (literals_on (values (pieces 32 (line text.now from)))) }
{
    let mut at = from;
    loop {
        let t = solver_tokens::read_token(text, at, n)?;
        mark_literal(marks, t.negative, t.size);
        let next = solver_tokens::byte_at(text, t.end);
        if t.size == 0 {
            return (next == b'\n').then_some(Values {
                closed: true,
                end: t.end,
            });
        }
        if next == b'\n' {
            return Some(Values {
                closed: false,
                end: t.end,
            });
        }
        at = t.end + 1;
    }
}

// Where the first newline is.
fn newline(text: &[u8]) -> Option<usize>
    ensures { result ≡ position (λ d. eqb d 10) text.now }
{
    text.iter().position(|d| *d == b'\n')
}

// Where the line ends.
fn line_end(text: &[u8], from: usize) -> usize
    requires { from ≤ length text.now }
    ensures { result ≡ from + length (line text.now from) }
{
    let rest = &text[from..];
    from + newline(rest).unwrap_or(rest.len())
}

// The line, or so many of its bytes where it has more. No byte beyond them is looked at.
fn line_start(text: &[u8], from: usize, most: usize) -> &[u8]
    requires { from ≤ length text.now }
    ensures { result.now ≡ take most (line text.now from) }
{
    let rest = &text[from..];
    let near = &rest[..rest.len().min(most)];
    let end = newline(near).unwrap_or(near.len());
    &near[..end]
}

// Which s line it is.
fn status_of(line: &[u8]) -> Option<Status>
    ensures { result ≡ status_of line.now }
{
    if line == b"s SATISFIABLE".as_slice() {
        return Some(Status::Satisfiable);
    }
    if line == b"s UNSATISFIABLE".as_slice() {
        return Some(Status::Unsatisfiable);
    }
    if line == b"s UNKNOWN".as_slice() {
        return Some(Status::Unknown);
    }
    None
}

// A line that begins with v.
fn read_v_line(text: &[u8], from: usize, n: usize, said: Said, marks: &mut [Mark]) -> Option<Line>
    requires { (byte text.now from ≡ 118) × (n ≤ 65536) × (n ≤ length marks.old) }
    ensures value { result ≡ line_of n (line text.now from) from said }
    ensures marks_after { IsSome result → marks.new ≡ marked marks.old (literals_on (kind (line text.now from))) }
{
    let next = solver_tokens::byte_at(text, from + 1);
    if next != b' ' {
        return None;
    }
    if said.closed {
        return None;
    }
    let v = read_values(text, from + 2, n, marks)?;
    let said = Said {
        verdict: said.verdict,
        closed: v.closed,
    };
    Some(Line { end: v.end, said })
}

// A line that begins with s.
fn read_s_line(text: &[u8], from: usize, said: Said) -> Option<Line>
    requires { byte text.now from ≡ 115 }
    ensures { (N : ℕ) → result ≡ line_of N (line text.now from) from said }
{
    if said.verdict.is_some() {
        return None;
    }
    // The longest of the three has 15 bytes: no more than one beyond are looked at.
    let status = status_of(line_start(text, from, 16))?;
    let verdict = Verdict {
        satisfiable: status == Status::Satisfiable,
        place: from,
    };
    let said = Said {
        verdict: Some(verdict),
        closed: said.closed,
    };
    Some(Line {
        end: line_end(text, from),
        said,
    })
}

// A line that is neither empty nor one of c.
fn read_line(text: &[u8], from: usize, n: usize, said: Said, marks: &mut [Mark]) -> Option<Line>
    requires { (byte text.now from ≡ 10 → ⊥) × (byte text.now from ≡ 99 → ⊥) × (n ≤ 65536) × (n ≤ length marks.old) }
    ensures value { result ≡ line_of n (line text.now from) from said }
    ensures marks_after { IsSome result → marks.new ≡ marked marks.old (literals_on (kind (line text.now from))) }
{
    match solver_tokens::byte_at(text, from) {
        b'v' => read_v_line(text, from, n, said, marks),
        b's' => read_s_line(text, from, said),
        _ => None,
    }
}

// All lines, or the place of the first wrong one.
pub fn read_lines(text: &[u8], n: usize, marks: &mut [Mark]) -> Result<Said, usize>
    requires { (n ≤ 65536) × (n ≤ length marks.old) }
    ensures value { IsLines n (lines text.now) 0 nothing result }
    ensures marks_after { IsOk result → marks.new ≡ marked marks.old (literals_of (lines text.now)) }
{
    let mut said = Said {
        verdict: None,
        closed: false,
    };
    let mut at: usize = 0;
    while at <= text.len() {
        // An empty line or one of c says nothing: what was said is not touched.
        match solver_tokens::byte_at(text, at) {
            b'\n' => at += 1,
            b'c' => at = line_end(text, at) + 1,
            _ => {
                let Some(l) = read_line(text, at, n, said, marks) else {
                    return Err(at);
                };
                said = l.said;
                at = l.end + 1;
            }
        }
    }
    Ok(said)
}
