// The encoder with a ceiling: the valuation of a plan that costs at most c, with the variables that the ceiling adds.
#![tactic(auto)]

ghost use Rattle.std.specs.Prelude.{◌≡◌, ◌≤◌, length};
ghost use Rattle.lists.specs.Slice.{filled};
ghost use Rattle.answers.specs.Returned.{answer_of};
ghost use Rattle.plan.specs.Plan.{plan_bytes};
ghost use Rattle.ceiling.specs.Ceiling.{ceiling_variables};
ghost use Rattle.ceiling.specs.Encoded.{ceiling_valuation};
ghost use Rattle.calls.specs.Ceiling.{ceiling_encode_answer, ceiling_encode_slice};

use answers::{Reason, Refusal};
use counting::Ceiling;
use instance::Shape;

// All entries, first in the slice: those of the base formula's variables, then those added.
fn write_all(z: &mut [i32], s: Shape, ceiling: Ceiling, p: &[u8])
    requires { (length p.now ≡ plan_bytes s.sizes) × (ceiling_variables s.sizes ceiling.c ≤ length z.old) }
    ensures { z.new ≡ filled (ceiling_valuation s.sizes p.now ceiling.c) z.old }
{
    encoder::write_valuation(z, s, p);
    let n = counts::variable_count(s);
    added_entries::write_added(&mut z[n..], s, ceiling, p);
}

// The call, for every byte string, every three numbers, all bytes given as a plan and every slice. The count is that of the variables.
pub fn encode_ceiling(
    b: &[u8],
    m: usize,
    rule: usize,
    c: usize,
    p: &[u8],
    z: &mut [i32],
) -> Result<usize, Refusal>
    ensures value { answer_of result ≡ ceiling_encode_answer b.now m rule c p.now (length z.old) }
    ensures z_after { z.new ≡ ceiling_encode_slice b.now m rule c p.now z.old }
{
    let (problem, ceiling) = ceiling_size::check_ceiling(b, m, rule, c)?;
    let s = problem.shape;
    let count = ceiling_size::variables(s, ceiling);
    encoder::ask_encoding(
        count,
        s,
        &problem.starts,
        &problem.goals,
        &problem.near,
        p,
        z.len(),
    )?;
    let cost = plan_check::plan_cost(s, p);
    if c < cost {
        return Err(Reason::TooDear.at(cost));
    }
    write_all(z, s, ceiling, p);
    Ok(count)
}
