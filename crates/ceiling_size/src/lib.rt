// What every call with a ceiling asks first, what a ceiling adds, and the size of the formula with a ceiling.
#![tactic(auto)]

ghost use Rattle.std.specs.Prelude.{◌≡◌, ◌≤◌, IfOk};
ghost use Rattle.answers.specs.Returned.{asked, size_of};
ghost use Rattle.instance.specs.Questions.{instance_checked};
ghost use Rattle.instance.specs.Problem.{checked_of};
ghost use Rattle.ceiling.specs.Ceiling.{added_variables, added_count, added_words, ceiling_variables, ceiling_words};
ghost use Rattle.calls.specs.Ceiling.{ceiling_answer, ceiling_size_answer};
ghost use Rattle.ceiling_size.specs.Inspected.{inspected, inspected_instance};

use answers::{Extent, Reason, Refusal};
use counting::{Ceiling, Counts};
use instance::{Problem, Shape, Sizes};

// Questions 1 to 10, 31 and 32. Where only 32 is answered no, the accepted instance stands beside its refusal.
pub fn inspect_ceiling(
    b: &[u8],
    m: usize,
    rule: usize,
    c: usize,
) -> Result<(Problem, Result<Ceiling, Refusal>), Refusal>
    ensures answer { inspected result ≡ ceiling_answer b.now m rule c }
    ensures checked { inspected_instance result ≡ instance_checked b.now m rule }
    ensures ceiling { IfOk result (λ r. IfOk r.1 (λ ceiling. ceiling.c ≡ c)) }
{
    let problem = instance_check::check_instance(b, m, rule)?;
    if 128 < c {
        return Ok((problem, Err(Reason::Ceiling.at(0))));
    }
    Ok((problem, Ok(Ceiling { c })))
}

// The same, for calls that go on only where all are answered yes.
pub fn check_ceiling(
    b: &[u8],
    m: usize,
    rule: usize,
    c: usize,
) -> Result<(Problem, Ceiling), Refusal>
    ensures answer { asked result ≡ ceiling_answer b.now m rule c }
    ensures found { IfOk result (λ r. (checked_of r.0 ≡ instance_checked b.now m rule) × (r.1.c ≡ c)) }
{
    let (problem, ceiling) = inspect_ceiling(b, m, rule, c)?;
    Ok((problem, ceiling?))
}

// What the ceiling adds. At m 0 it adds nothing.
pub fn added(s: Shape, ceiling: Ceiling) -> Counts
    ensures variables_value { (result.variables ≡ added_variables s.sizes ceiling.c) × (result.clauses ≡ added_count s.sizes ceiling.c) × (result.words ≡ added_words s.sizes ceiling.c) }
    ensures variables_bound { (result.variables ≤ 5120) × (result.clauses ≤ 9000000) × (result.words ≤ 35000000) }
{
    let Sizes { n, k, m, .. } = s.sizes;
    let inputs = m * k;
    if inputs == 0 {
        return Counts::default();
    }
    let tree = ceiling.tree_size(inputs);
    let moves = inputs * n;
    let waits = (m - 1) * k;
    // how often output c + 1 is forbidden
    let over = usize::from(ceiling.c < inputs);
    Counts {
        variables: inputs + tree.variables,
        clauses: moves + waits + tree.clauses + over,
        words: 4 * moves + 3 * waits + tree.words + 2 * over,
    }
}

// All variables of the formula.
pub fn variables(s: Shape, ceiling: Ceiling) -> usize
    ensures { (result ≡ ceiling_variables s.sizes ceiling.c) × (result ≤ 38912) }
{
    counts::variable_count(s) + added(s, ceiling).variables
}

// All its words.
pub fn words(s: Shape, ceiling: Ceiling) -> usize
    ensures { result ≡ ceiling_words s.sizes ceiling.c }
{
    counts::word_count(s) + added(s, ceiling).words
}

// The size call: questions 1 to 10, 31 and 32.
pub fn ceiling_size(b: &[u8], m: usize, rule: usize, c: usize) -> Result<Extent, Refusal>
    ensures { size_of result ≡ ceiling_size_answer b.now m rule c }
{
    let (problem, ceiling) = check_ceiling(b, m, rule, c)?;
    let s = problem.shape;
    let more = added(s, ceiling);
    Ok(Extent {
        words: counts::word_count(s) + more.words,
        clauses: counts::clause_count(s) + more.clauses,
    })
}
