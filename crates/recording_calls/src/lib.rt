// The public calls over whole recordings: their checks and refusals, in document 01's order, and nothing else. `filter_bank` hands them on.
// None has a requires: any numbers and any buffer lengths may be handed in. H is the number of hops; a recording has H + 1 blocks.
#![tactic(auto)]

pub mod reorder;

ghost use Rattle.std.specs.Prelude.{◌≡◌};
ghost use Rattle.std.specs.Result.{is_ok};
ghost use Rattle.refusals.specs.Answers.{code_of};
ghost use Rattle.recording_calls.specs.Recordings.{recorded_code, recorded_out, played_code, played_out, shaped, inner_of};

use analysis::Route;
use checks::{Refusal, check_coefficients, check_hops, check_length, check_route, check_size};
use orders::Order;

/// The coefficients of the H + 1 blocks of a recording of `hops` hops, by the route and in the order named, with long joints. Length (1): the route is not offered at n. Size (2):
/// the number of hops is not 1 to 4,095, or a buffer's length is not the stated one. Refused, `out` is left alone.
#[tactic(auto, using(crate::specs::RecordingLaws::recorded_sizes), unfolding(crate::specs::Recordings::recorded_code, crate::specs::Recordings::recorded_causes, crate::specs::Recordings::recorded_out, checks::specs::Causes::first_cause))]
pub fn analyse_recording(
    route: Route,
    order: Order,
    n: usize,
    hops: usize,
    x: &[i16],
    out: &mut [i32],
) -> Result<(), Refusal>
    ensures code { code_of result ≡ recorded_code route n hops x.now out.old }
    ensures out_after { out.new ≡ recorded_out route order n hops x.now out.old }
{
    check_route(route, n)?;
    check_hops(hops)?;
    let m = n / 2;
    let blocks = hops + 1;
    check_size(x.len(), hops * m)?;
    check_size(out.len(), blocks * m)?;
    recording::analyse(route, order, n, hops, x, out);
    Ok(())
}

/// The samples of a recording of `hops` hops, whose coefficients lie in the order named, from a fresh stream, with long joints. Length (1): n is not tabled. Size (2): as above.
/// Coefficient (3): one is out of range, wherever it stands. Refused, `out` is left alone.
#[tactic(auto, using(crate::specs::RecordingLaws::played_sizes), unfolding(crate::specs::Recordings::played_code, crate::specs::Recordings::played_causes, crate::specs::Recordings::played_out, checks::specs::Causes::first_cause))]
pub fn synthesise_recording(
    order: Order,
    n: usize,
    hops: usize,
    x: &[i32],
    out: &mut [i16],
) -> Result<(), Refusal>
    ensures code { code_of result ≡ played_code n hops x.now out.old }
    ensures out_after { out.new ≡ played_out order n hops x.now out.old }
{
    check_length(n)?;
    check_hops(hops)?;
    let m = n / 2;
    let count = (hops + 1) * m;
    check_size(x.len(), count)?;
    check_size(out.len(), hops * m)?;
    check_coefficients(x, count)?;
    recording::synthesise(order, n, hops, x, out);
    Ok(())
}

// A buffer of this length holds the hops of a recording.
#[tactic(auto, using(checks::specs::LimitLaws::places_few), unfolding(crate::specs::Recordings::shaped))]
fn check_shape(n: usize, hops: usize, length: usize) -> Result<(), Refusal>
    ensures { is_ok result ≡ shaped n hops length }
{
    check_length(n)?;
    check_hops(hops)?;
    check_size(length, hops * (n / 2))
}

/// The inner samples (document 01's term: two blocks cover them) of the buffer that `synthesise_recording` filled: all of it, and the empty part
/// at its start where n, the number of hops or the length is wrong. The buffer is lent to be read, so nothing in it can move.
#[tactic(auto, unfolding(crate::specs::Recordings::inner_of))]
pub fn inner<'a>(n: usize, hops: usize, out: &'a [i16]) -> &'a [i16]
    ensures result_value { result.now ≡ inner_of n hops out.now }
    ensures ref_ptr_value { result.ref_ptr ≡ out.entry.ref_ptr }
{
    if check_shape(n, hops, out.len()).is_ok() {
        out
    } else {
        &out[..0]
    }
}
