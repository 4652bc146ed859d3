// The public call that brings a recording's coefficients from one order to the other.
ghost use Rattle.std.specs.Prelude.{◌≡◌};
ghost use Rattle.refusals.specs.Answers.{code_of};
ghost use Rattle.recording_calls.specs.Recordings.{reorder_code, reorder_out};

use checks::{Refusal, check_coefficients, check_hops, check_length, check_size};
use orders::Order;

/// The coefficients of a recording of `hops` hops in the order `to`, from x, where they lie in the other one. Length (1): n is not tabled. Size (2): the number of hops is not 1
/// to 4,095, or a buffer's length is not the stated one. Coefficient (3): one is out of range, wherever it stands. Refused, `out` is left alone.
#[tactic(auto, using(crate::specs::RecordingLaws::played_sizes), unfolding(crate::specs::Recordings::reorder_code, crate::specs::Recordings::reorder_causes, crate::specs::Recordings::reorder_out, checks::specs::Causes::first_cause))]
pub fn reorder(to: Order, n: usize, hops: usize, x: &[i32], out: &mut [i32]) -> Result<(), Refusal>
    ensures code { code_of result ≡ reorder_code n hops x.now out.old }
    ensures out_after { out.new ≡ reorder_out to n hops x.now out.old }
{
    check_length(n)?;
    check_hops(hops)?;
    let m = n / 2;
    let blocks = hops + 1;
    let count = blocks * m;
    check_size(x.len(), count)?;
    check_size(out.len(), count)?;
    check_coefficients(x, count)?;
    orders::reorder(to, m, blocks, x, out);
    Ok(())
}
