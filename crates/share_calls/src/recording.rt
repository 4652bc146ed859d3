// The public calls on shares over recordings, at long joints: their checks and refusals, and the two blocks gathered from their places.
ghost use Rattle.std.specs.Prelude.{◌≡◌, ◌+◌, ◌*◌, ◌/◌, ◌^◌, ◌≤◌, ◌<◌, OnOk, T, length};
ghost use Rattle.arithmetic.specs.Lists.{Small};
ghost use Rattle.cosine.specs.Kernels.{tabled};
ghost use Rattle.orders.specs.Orders.{part};
ghost use Rattle.refusals.specs.Answers.{code_of};
ghost use Rattle.shares.specs.Shares.{named_by};
ghost use Rattle.share_calls.specs.Answers.{read_share};
ghost use Rattle.share_calls.specs.Changes.{Long, Ranged};
ghost use Rattle.share_calls.specs.RecordingShareLaws.{Gathered};
ghost use Rattle.share_calls.specs.RecordingShares.{share_at, numbered_from, place_code, recording_share, recording_name_code, recording_name_out};

use crate::{Change, Share, name, numbers};
use checks::{Refusal, check_hops, check_length, check_size, refuse_unless};
use orders::Order;

// Length: n is not tabled. Size: the number of hops is not 1 to 4,095, a length is not that of H + 1 blocks, the hop is H or more, or the place M or more.
#[tactic(auto, using(checks::specs::LimitLaws::places_few, checks::specs::LimitLaws::block_sixes), unfolding(crate::specs::RecordingShares::place_code, crate::specs::RecordingShares::place_causes, checks::specs::Causes::first_cause))]
fn check_place(
    n: usize,
    hops: usize,
    change: Change,
    hop: usize,
    place: usize,
) -> Result<(), Refusal>
    ensures code { code_of result ≡ place_code n hops change.entry.original.now change.entry.changed.now hop place }
    ensures tabled { OnOk result (T (tabled n)) }
    ensures most { OnOk result (hops ≤ 4095) }
    ensures sixes { OnOk result (6 * ((hops + 1) * (n / 2) / 6) ≡ (hops + 1) * (n / 2)) }
    ensures long { OnOk result (Long ((hops + 1) * (n / 2)) change.entry.original.now change.entry.changed.now) }
    ensures hop_placed { OnOk result (hop < hops) }
    ensures placed { OnOk result (place < n / 2) }
{
    check_length(n)?;
    check_hops(hops)?;
    let m = n / 2;
    let count = (hops + 1) * m;
    change.check_sizes(count)?;
    refuse_unless(hop < hops, Refusal::Size)?;
    refuse_unless(place < m, Refusal::Size)
}

// What is named, its block counted in the recording.
#[tactic(auto, unfolding(crate::specs::RecordingShares::numbered_from))]
fn numbered_from(hop: usize, found: Option<Share>) -> Option<Share>
    requires few { hop ≤ 4095 }
    requires of_two { (named_by found).block < 2 }
    ensures { named_by result ≡ numbered_from hop (named_by found) }
{
    found.map(|share| Share {
        block: hop as u32 + share.block,
        ..share
    })
}

// The coefficients of block b of a recording, into the front of room for those of the longest.
fn gather(order: Order, n: usize, hops: usize, x: &[i32], b: usize, room: &mut [i32])
    requires placed { T (tabled n) × (hops ≤ 4095) × (b ≤ hops) }
    requires long { length x.now ≡ (hops + 1) * (n / 2) }
    requires small { Small x.now (2 ^ 29) }
    requires room { length room.old ≡ 108 }
    ensures { Gathered (n / 2) (part order (n / 2) (hops + 1) x.now b) room.new }
{
    orders::gather(order, hops + 1, b, x, &mut room[..n / 2]);
}

// What is named between the two blocks that cover a hop, which are gathered; its block counted in the recording.
#[tactic(auto, using(crate::specs::ShareCallLaws::named_block), unfolding(crate::specs::RecordingShares::share_at))]
fn name_at(
    order: Order,
    n: usize,
    hops: usize,
    change: Change,
    hop: usize,
    place: usize,
) -> Option<Share>
    requires placed { T (tabled n) × (hops ≤ 4095) × (hop < hops) × (place < n / 2) }
    requires long { Long ((hops + 1) * (n / 2)) change.original.now change.changed.now }
    requires ranged { Ranged change.original.now change.changed.now }
    ensures { named_by result ≡ numbered_from hop (share_at order n hops change.entry.original.now change.entry.changed.now hop place) }
{
    let m = n / 2;
    let mut first = orders::room();
    gather(order, n, hops, change.original, hop, &mut first);
    let mut first_changed = orders::room();
    gather(order, n, hops, change.changed, hop, &mut first_changed);
    let mut second = orders::room();
    gather(order, n, hops, change.original, hop + 1, &mut second);
    let mut second_changed = orders::room();
    gather(order, n, hops, change.changed, hop + 1, &mut second_changed);
    let found = name(
        n,
        0,
        Change {
            original: &first[..m],
            changed: &first_changed[..m],
        },
        Change {
            original: &second[..m],
            changed: &second_changed[..m],
        },
        place,
    );
    numbered_from(hop, found)
}

/// Which coefficient moved a returned sample of a recording: its coefficients, in the order named, the sample's hop and its place there. What is named is a block of the
/// recording, by its number, and a coefficient. None: every share is zero. Length (1): n is not tabled. Size (2): the number of hops is not 1 to 4,095, a length is not the
/// stated one, the hop is H or more, or the place M or more. Coefficient (3): one is out of range, wherever it stands.
#[tactic(auto, using(refusals::specs::AnswerLaws::number_some, crate::specs::RecordingShareLaws::share_placed, checks::specs::LimitLaws::places_few, crate::specs::RecordingShareLaws::share_rest), unfolding(crate::specs::RecordingShares::recording_share, crate::specs::RecordingShares::both_ranged))]
pub fn largest_share_recording(
    order: Order,
    n: usize,
    hops: usize,
    change: Change,
    hop: usize,
    place: usize,
) -> Result<Option<Share>, Refusal>
    ensures answer { read_share result ≡ recording_share order n hops change.entry.original.now change.entry.changed.now hop place }
{
    check_place(n, hops, change, hop, place)?;
    change.check_ranges((hops + 1) * (n / 2))?;
    Ok(name_at(order, n, hops, change, hop, place))
}

/// The same into room for three numbers, for C: 1 if a share is not zero, the block and the coefficient. Size also where the room's length is another. Refused, the room
/// is left alone.
#[tactic(auto, using(refusals::specs::AnswerLaws::number_some, crate::specs::RecordingShareLaws::name_placed, checks::specs::LimitLaws::places_few, crate::specs::RecordingShareLaws::name_rest), unfolding(crate::specs::RecordingShares::recording_name_out, crate::specs::RecordingShares::both_ranged))]
pub fn name_share_recording(
    order: Order,
    n: usize,
    hops: usize,
    change: Change,
    hop: usize,
    place: usize,
    room: &mut [u32],
) -> Result<(), Refusal>
    ensures code { code_of result ≡ recording_name_code n hops change.entry.original.now change.entry.changed.now hop place room.old }
    ensures room_after { room.new ≡ recording_name_out order n hops change.entry.original.now change.entry.changed.now hop place room.old }
{
    check_place(n, hops, change, hop, place)?;
    check_size(room.len(), 3)?;
    change.check_ranges((hops + 1) * (n / 2))?;
    room.copy_from_slice(&numbers(name_at(order, n, hops, change, hop, place)));
    Ok(())
}
