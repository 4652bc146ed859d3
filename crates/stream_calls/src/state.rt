// The public calls on a stream that its caller keeps in a state, an array of whole numbers: N, the expected number, the expected shape and then the tail. So a
// stream crosses to C, and a step copies no tail. Their checks and refusals, and nothing else; `filter_bank` hands them on.
// None has a requires: any numbers and any lengths may be handed in.
ghost use Rattle.std.specs.Prelude.{◌≡◌, OnOk, length, drop};
ghost use Rattle.refusals.specs.Answers.{code_of};
ghost use Rattle.stream_calls.specs.Streams.{stream_of};
ghost use Rattle.stream_calls.specs.States.{entries, number_in, shape_in, stream_in, admit_code, fresh_code, fresh_state, step_code, step_state, step_out};

use crate::{Head, admit, check_step};
use checks::{Offer, Refusal, check_length, check_size};

/// Entries of a state.
pub const ENTRIES: usize = 3 + stream::STORAGE;

// The least number that no block has: 2^32.
const NONE: u64 = 4294967296;

// A number that is no shape.
const NO_SHAPE: u32 = 2;

// The number in an entry. A negative one stands as `other`.
#[tactic(auto, unfolding(crate::specs::States::number_in))]
fn number_in(entry: i64, other: u64) -> u64
    ensures { result ≡ number_in entry other }
{
    if entry < 0 { other } else { entry as u64 }
}

// The shape in an entry: 0 or 1. Any other number stands as 2, which is none.
#[tactic(auto, unfolding(crate::specs::States::shape_in))]
fn shape_in(entry: i64) -> u32
    ensures { result ≡ shape_in entry }
{
    match entry {
        0 => 0,
        1 => 1,
        _ => NO_SHAPE,
    }
}

// What a state holds beside the tail.
#[tactic(auto, unfolding(crate::specs::States::stream_in))]
fn read_head(state: &[i64]) -> Head
    requires { length state.now ≡ entries }
    ensures { stream_of result.n result.expected result.shape (drop 3 state.now) ≡ stream_in state.now }
{
    Head {
        n: number_in(state[0], 0) as usize,
        expected: number_in(state[1], NONE),
        shape: shape_in(state[2]),
    }
}

/// N of the stream that a state holds.
#[tactic(auto, unfolding(crate::specs::States::stream_in))]
pub fn length_in(state: &[i64]) -> usize
    requires { length state.now ≡ entries }
    ensures { result ≡ (stream_in state.now).n }
{
    read_head(state).n
}

/// A fresh stream for blocks of n samples, in a state of 111 entries. Length (1): n is not tabled. Size (2): the state's length is another. Refused, the state
/// is left alone.
#[tactic(auto, using(crate::specs::StateLaws::fresh_filled), unfolding(crate::specs::States::fresh_code, crate::specs::States::fresh_causes, crate::specs::States::fresh_state, checks::specs::Causes::first_cause))]
pub fn fresh_in_place(n: usize, state: &mut [i64]) -> Result<(), Refusal>
    ensures code { code_of result ≡ fresh_code n state.old }
    ensures state_after { state.new ≡ fresh_state n state.old }
{
    check_length(n)?;
    check_size(state.len(), ENTRIES)?;
    state.fill(0);
    state[0] = n as i64;
    Ok(())
}

/// Whether the stream that a state holds takes a block of this number and these joints at all. Size (2): the state's length is another. Then Stream (4),
/// Number (7), Shape (8).
#[tactic(auto, unfolding(crate::specs::States::admit_code, crate::specs::States::admit_causes, crate::specs::Streams::admit_code, checks::specs::Causes::first_cause))]
pub fn admit_in(state: &[i64], offer: Offer) -> Result<(), Refusal>
    ensures code { code_of result ≡ admit_code state.now offer.number offer.joints.left offer.joints.right }
    ensures size { OnOk result (length state.now ≡ entries) }
{
    check_size(state.len(), ENTRIES)?;
    admit(read_head(state), &state[3..], offer)
}

/// One step on the stream that a state holds, in place. Size (2): the state's length is another, before every other cause, since nothing of such a state can be
/// read. Then the causes of `step`. Refused, the state and `out` are left alone; taken, N stays, the state expects one more and the right shape, and the tail
/// is the new one.
#[tactic(auto, using(refusals::specs::AnswerLaws::number_some), unfolding(crate::specs::States::step_code, crate::specs::States::step_causes, crate::specs::Streams::step_code, crate::specs::States::step_state, crate::specs::States::step_out, checks::specs::Causes::first_cause))]
pub fn step_in_place(
    state: &mut [i64],
    offer: Offer,
    x: &[i32],
    out: &mut [i16],
) -> Result<(), Refusal>
    ensures code { code_of result ≡ step_code state.old offer.number offer.joints.left offer.joints.right x.now out.old }
    ensures state_after { state.new ≡ step_state state.old offer.number offer.joints.left offer.joints.right x.now out.old }
    ensures out_after { out.new ≡ step_out state.old offer.number offer.joints.left offer.joints.right x.now out.old }
{
    check_size(state.len(), ENTRIES)?;
    check_step(read_head(state), &state[3..], offer, x, out)?;
    advance_in(state, offer, x, out);
    Ok(())
}

/// The work of a step that is taken, behind every check: a step on levels makes them before it has the coefficients.
#[tactic(auto, using(crate::specs::StateLaws::taken_whole, crate::specs::StateLaws::taken_valid))]
pub fn advance_in(state: &mut [i64], offer: Offer, x: &[i32], out: &mut [i16])
    requires { step_code state.old offer.number offer.joints.left offer.joints.right x.now out.old ≡ 0 }
    ensures state_after { state.new ≡ step_state state.old offer.number offer.joints.left offer.joints.right x.now out.old }
    ensures out_after { out.new ≡ step_out state.old offer.number offer.joints.left offer.joints.right x.now out.old }
{
    let n = length_in(state);
    synthesis::advance_tail(n, offer.joints, x, &mut state[3..], out);
    let following = offer.number as u64 + 1;
    let ends = offer.joints.right as i64;
    state[1] = following as i64;
    state[2] = ends;
}
