// The reader with a ceiling: the text gives the variables that the ceiling adds too.
#![tactic(auto)]

ghost use Rattle.std.specs.Prelude.{◌≡◌, length};
ghost use Rattle.answers.specs.Returned.{answer_of};
ghost use Rattle.calls.specs.Ceiling.{ceiling_read_answer, ceiling_read_slice};

use answers::Refusal;

// The call, for every byte string, every three numbers, all bytes given as a text and every slice.
pub fn read_ceiling(
    b: &[u8],
    m: usize,
    rule: usize,
    c: usize,
    text: &[u8],
    z: &mut [i32],
) -> Result<usize, Refusal>
    ensures value { answer_of result ≡ ceiling_read_answer b.now m rule c text.now (length z.old) }
    ensures z_after { z.new ≡ ceiling_read_slice b.now m rule c text.now z.old }
{
    let (problem, ceiling) = ceiling_size::check_ceiling(b, m, rule, c)?;
    let n = ceiling_size::variables(problem.shape, ceiling);
    reader::read_entries(n, text, z)
}
