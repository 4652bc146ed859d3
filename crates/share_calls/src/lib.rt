// The public calls on shares: their checks and refusals, in the documents' order, and nothing else. What a share is, and which is the largest, is in `shares`. No public
// call has a requires: any numbers and any lengths may be handed in.
#![tactic(auto)]

pub mod recording;

ghost use Rattle.std.specs.Prelude.{◌≡◌, ◌*◌, ◌/◌, ◌<◌, OnOk, T, cond, eqb, false, length};
ghost use Rattle.cosine.specs.Kernels.{tabled};
ghost use Rattle.refusals.specs.Answers.{code_of, refused_unless};
ghost use Rattle.checks.specs.Limits.{in_range};
ghost use Rattle.shares.specs.Shares.{named_by, largest_share};
ghost use Rattle.share_calls.specs.Answers.{read_share};
ghost use Rattle.share_calls.specs.Changes.{Long, Ranged};
ghost use Rattle.share_calls.specs.ShareCalls.{size_code, ranged, share_answer, name_code, name_out, numbers_of};

use checks::{Refusal, check_coefficients, check_length, check_size, refuse_unless};

/// What is named: a block and a coefficient of it. Of two blocks the earlier is 0 and the later 1; of a recording a block has its number there.
pub use shares::Share;

/// The coefficients of a block, or of a recording, as they were and as they are.
#[derive(Clone, Copy)]
pub struct Change<'a> {
    pub original: &'a [i32],
    pub changed: &'a [i32],
}

impl<'a> Change<'a> {
    // Size: one of the two has another number of coefficients.
    fn check_sizes(self, count: usize) -> Result<(), Refusal>
        ensures answer { result ≡ refused_unless (cond (eqb (length self.entry.original.now) count) (eqb (length self.entry.changed.now) count) false) Refusal.Size }
        ensures long { OnOk result (Long count self.entry.original.now self.entry.changed.now) }
    {
        check_size(self.original.len(), count)?;
        check_size(self.changed.len(), count)
    }

    // Coefficient: one of the two has a coefficient out of range.
    fn check_ranges(self, count: usize) -> Result<(), Refusal>
        requires sixes { 6 * (count / 6) ≡ count }
        requires long { Long count self.original.now self.changed.now }
        ensures answer { result ≡ refused_unless (cond (in_range count self.entry.original.now) (in_range count self.entry.changed.now) false) Refusal.Coefficient }
        ensures ranged { OnOk result (Ranged self.entry.original.now self.entry.changed.now) }
    {
        check_coefficients(self.original, count)?;
        check_coefficients(self.changed, count)
    }
}

// Length: n is not tabled. Shape: it is above 1. Size: a length is not M, or the place is M or more.
#[tactic(auto, unfolding(crate::specs::ShareCalls::size_code, crate::specs::ShareCalls::size_causes, checks::specs::Causes::first_cause))]
fn check_sizes(
    n: usize,
    shape: u32,
    first: Change,
    second: Change,
    place: usize,
) -> Result<(), Refusal>
    ensures code { code_of result ≡ size_code n shape first.entry.original.now first.entry.changed.now second.entry.original.now second.entry.changed.now place }
    ensures tabled { OnOk result (T (tabled n)) }
    ensures sixes { OnOk result (6 * (n / 2 / 6) ≡ n / 2) }
    ensures first_long { OnOk result (Long (n / 2) first.entry.original.now first.entry.changed.now) }
    ensures second_long { OnOk result (Long (n / 2) second.entry.original.now second.entry.changed.now) }
    ensures placed { OnOk result (place < n / 2) }
{
    check_length(n)?;
    refuse_unless(shape <= 1, Refusal::Shape)?;
    let m = n / 2;
    first.check_sizes(m)?;
    second.check_sizes(m)?;
    refuse_unless(place < m, Refusal::Size)
}

// Coefficient: one of the four has a coefficient out of range.
#[tactic(auto, unfolding(crate::specs::ShareCalls::ranged))]
fn check_ranges(m: usize, first: Change, second: Change) -> Result<(), Refusal>
    requires sixes { 6 * (m / 6) ≡ m }
    requires first_long { Long m first.original.now first.changed.now }
    requires second_long { Long m second.original.now second.changed.now }
    ensures answer { result ≡ refused_unless (ranged m first.entry.original.now first.entry.changed.now second.entry.original.now second.entry.changed.now) Refusal.Coefficient }
    ensures first_ranged { OnOk result (Ranged first.entry.original.now first.entry.changed.now) }
    ensures second_ranged { OnOk result (Ranged second.entry.original.now second.entry.changed.now) }
{
    first.check_ranges(m)?;
    second.check_ranges(m)
}

// The block and the coefficient with the largest share of what moved a sample; none where every share is zero.
fn name(n: usize, shape: u32, first: Change, second: Change, place: usize) -> Option<Share>
    requires placed { T (tabled n) × (place < n / 2) }
    requires long { Long (n / 2) first.original.now first.changed.now × Long (n / 2) second.original.now second.changed.now }
    requires ranged { Ranged first.original.now first.changed.now × Ranged second.original.now second.changed.now }
    ensures { named_by result ≡ largest_share n shape place first.entry.original.now first.entry.changed.now second.entry.original.now second.entry.changed.now }
{
    shares::largest_share(
        n,
        shape,
        first.original,
        first.changed,
        second.original,
        second.changed,
        place,
    )
}

/// Which coefficient moved a returned sample: the coefficients of the two blocks that cover it, the earlier block first, the shape of the joint between them, and the
/// sample's place in the hop. None: every share is zero. Length (1): n is not tabled. Shape (8): it is above 1. Size (2): a length is not M, or the place is M or more.
/// Coefficient (3): one is out of range.
#[tactic(auto, using(refusals::specs::AnswerLaws::number_some, crate::specs::ShareCallLaws::share_sized, crate::specs::ShareCallLaws::share_rest), unfolding(crate::specs::ShareCalls::share_answer))]
pub fn largest_share(
    n: usize,
    shape: u32,
    first: Change,
    second: Change,
    place: usize,
) -> Result<Option<Share>, Refusal>
    ensures answer { read_share result ≡ share_answer n shape first.entry.original.now first.entry.changed.now second.entry.original.now second.entry.changed.now place }
{
    check_sizes(n, shape, first, second, place)?;
    check_ranges(n / 2, first, second)?;
    Ok(name(n, shape, first, second, place))
}

// What is named as numbers: 1, the block and the coefficient, or 0 three times.
#[tactic(auto, unfolding(crate::specs::ShareCalls::numbers_of))]
fn numbers(named: Option<Share>) -> [u32; 3]
    ensures { result ≡ numbers_of (named_by named) }
{
    match named {
        Some(share) => [1, share.block, share.coefficient],
        None => [0; 3],
    }
}

/// The same into room for three numbers, for C: 1 if a share is not zero, the block and the coefficient. Size also where the room's length is another. Refused, the room
/// is left alone.
#[tactic(auto, using(refusals::specs::AnswerLaws::number_some, crate::specs::ShareCallLaws::name_sized, crate::specs::ShareCallLaws::name_rest), unfolding(crate::specs::ShareCalls::name_out))]
pub fn name_share(
    n: usize,
    shape: u32,
    first: Change,
    second: Change,
    place: usize,
    room: &mut [u32],
) -> Result<(), Refusal>
    ensures code { code_of result ≡ name_code n shape first.entry.original.now first.entry.changed.now second.entry.original.now second.entry.changed.now place room.old }
    ensures room_after { room.new ≡ name_out n shape first.entry.original.now first.entry.changed.now second.entry.original.now second.entry.changed.now place room.old }
{
    check_sizes(n, shape, first, second, place)?;
    check_size(room.len(), 3)?;
    check_ranges(n / 2, first, second)?;
    room.copy_from_slice(&numbers(name(n, shape, first, second, place)));
    Ok(())
}
