// The public calls on the coarsest step for a recording: their checks and refusals, in the documents' order, and nothing else. What a trial is, and the search, is in
// `coarsest`. No call has a requires: any numbers and any lengths may be handed in.
#![tactic(auto)]

ghost use Rattle.std.specs.Prelude.{◌≡◌, ◌≤◌, IfOk, OnOk, leb};
ghost use Rattle.coarsest.specs.Coarsest.{coarsest};
ghost use Rattle.refusals.specs.Answers.{code_of, refused_unless};
ghost use Rattle.coarsest_calls.specs.Answers.{read_coarsest};
ghost use Rattle.coarsest_calls.specs.CoarsestCalls.{most_allowed, coarsest_answer, find_code, find_out};

use checks::{Refusal, check_hops, check_length, check_size, refuse_unless};

/// What `coarsest_step` answers: the step, the trials made, and how many untried steps lie above the step.
pub use step_search::Found as Coarsest;

// The largest distance that may be allowed.
const MOST_ALLOWED: u32 = 32;

// The allowed distance is one that the documents offer.
fn check_allowed(allowed: u32) -> Result<(), Refusal>
    ensures answer { result ≡ refused_unless (leb allowed most_allowed) Refusal.Distance }
    ensures most { OnOk result (allowed ≤ 32) }
{
    refuse_unless(allowed <= MOST_ALLOWED, Refusal::Distance)
}

/// The coarsest step for a recording into room for three numbers, for C: the step, the trials and the untried steps. Length (1): n is not tabled. Size (2): the number of hops
/// is not 1 to 4,095, or a length is not the stated one. Distance (12): the allowed one is above 32. Refused, the room is left alone.
#[tactic(auto, using(checks::specs::LimitLaws::places_few), unfolding(crate::specs::CoarsestCalls::find_code, crate::specs::CoarsestCalls::find_causes, crate::specs::CoarsestCalls::find_out, crate::specs::CoarsestCalls::numbers_of, checks::specs::Causes::first_cause))]
pub fn find_step(
    n: usize,
    hops: usize,
    x: &[i16],
    allowed: u32,
    budget: usize,
    room: &mut [u32],
) -> Result<(), Refusal>
    ensures code { code_of result ≡ find_code n hops x.now allowed room.old }
    ensures room_after { room.new ≡ find_out n hops x.now allowed budget room.old }
{
    check_length(n)?;
    check_hops(hops)?;
    check_size(x.len(), hops * (n / 2))?;
    check_size(room.len(), 3)?;
    check_allowed(allowed)?;
    let found = coarsest::coarsest_step(n, hops, x, allowed, budget);
    room.copy_from_slice(&[found.step, found.trials, found.untried]);
    Ok(())
}

/// The same by value: the largest single step from 1 to 1,024 with which every sample of the recording returns within `allowed`, as far as a budget of trials goes.
#[tactic(auto, using(checks::specs::LimitLaws::places_few), unfolding(crate::specs::CoarsestCalls::coarsest_answer, crate::specs::CoarsestCalls::coarsest_code, crate::specs::CoarsestCalls::coarsest_causes, checks::specs::Causes::first_cause))]
pub fn coarsest_step(
    n: usize,
    hops: usize,
    x: &[i16],
    allowed: u32,
    budget: usize,
) -> Result<Coarsest, Refusal>
    ensures answer { read_coarsest result ≡ coarsest_answer n hops x.now allowed budget }
    ensures ok { IfOk result (λ found. found ≡ coarsest n hops x.now allowed budget) }
{
    check_length(n)?;
    check_hops(hops)?;
    let samples = hops * (n / 2);
    check_size(x.len(), samples)?;
    check_allowed(allowed)?;
    Ok(coarsest::coarsest_step(n, hops, x, allowed, budget))
}
