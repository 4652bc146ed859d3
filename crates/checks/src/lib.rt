// The checks of lengths, shapes, numbers of hops, tails and coefficients, which the public calls share.
// No function here is a public call.
#![tactic(auto)]

ghost use Rattle.std.specs.Prelude.{◌≡◌, ◌*◌, ◌/◌, ◌^◌, ◌≤◌, OnOk, T, eqb, length};
ghost use Rattle.arithmetic.specs.Lists.{at, all, Small};
ghost use Rattle.stream.specs.Synthesis.{storage};
ghost use Rattle.analysis.specs.Analysis.{offered};
ghost use Rattle.cosine.specs.Kernels.{tabled};
ghost use Rattle.refusals.specs.Answers.{refused_unless};
ghost use Rattle.checks.specs.Limits.{within, between, coefficient_limit, tail_limit, in_range, counted, are_shapes};

use analysis::Route;
pub use refusals::{Refusal, code, refuse_unless};
pub use windows::Joints;

/// What a block is offered to a stream as: its number, counted from 0 (document 02, P6), and the shapes of its joints.
#[derive(Clone, Copy, Debug, PartialEq, Eq)]
pub struct Offer {
    pub number: u32,
    pub joints: Joints,
}

// The largest coefficient that synthesis takes.
const LARGEST: usize = 536870912;

// 2^55: a tail entry of a stream with hops of M samples is at most M of these.
const TAIL_UNIT: usize = 36028797018963968;

// The most hops of a recording.
const HOPS: usize = 4095;

/// A route is offered at n.
#[tactic(auto, unfolding(analysis::specs::Analysis::offered))]
pub fn is_offered(route: Route, n: usize) -> bool
    ensures { result ≡ offered route n }
{
    match route {
        Route::Direct => cosine::is_tabled(n),
        Route::Short => split::is_offered(n),
        Route::Double => double_route::is_offered(n),
    }
}

/// A recording may have this many hops: 1 to 4,095.
#[tactic(auto, unfolding(crate::specs::Limits::counted))]
pub fn is_counted(hops: usize) -> bool
    ensures { result ≡ counted hops }
{
    1 <= hops && hops <= HOPS
}

/// The shapes of a block's left and right joint are 0 or 1.
#[tactic(auto, unfolding(crate::specs::Limits::are_shapes))]
pub fn are_shapes(joints: Joints) -> bool
    ensures { result ≡ are_shapes joints.left joints.right }
{
    joints.left <= 1 && joints.right <= 1
}

// v lies within plus or minus limit. Two comparisons: the least i64 has no size that fits.
#[tactic(auto, unfolding(crate::specs::Limits::within))]
fn is_within(v: i64, limit: usize) -> bool
    requires { limit ≤ 2 ^ 62 }
    ensures { result ≡ within v limit }
{
    let most = limit as i64;
    if v < -most {
        return false;
    }
    v <= most
}

// Entries and coefficients are tested six at a time, since a hop has a multiple of six: the compiler then needs no loop for them, and each test of the six is
// made, so that it can make several at once.

// Six tail entries, or fewer, lie within the limit.
fn entries_within(entries: &[i64], limit: usize) -> bool
    requires { limit ≤ 2 ^ 62 }
    ensures { result ≡ all (length entries.now) (λ i. within (at entries.now i) limit) }
{
    let mut all = true;
    for entry in entries {
        all = all & is_within(*entry, limit);
    }
    all
}

/// The first m tail entries lie within plus or minus m × 2^55, as those of a sound stream do.
pub fn tail_within(tail: &[i64], m: usize) -> bool
    requires { (m ≤ storage) × (m ≤ length tail.now) × (6 * (m / 6) ≡ m) }
    ensures { result ≡ all m (λ i. within (at tail.now i) (tail_limit m)) }
{
    let limit = m * TAIL_UNIT;
    for six in tail[..m].chunks_exact(6) {
        if !entries_within(six, limit) {
            return false;
        }
    }
    true
}

// Six coefficients, or fewer, lie within the limit. A function beside `entries_within`, for its cast alone: one for both types wants a trait with the laws of the
// cast, and is longer than the two.
fn coefficients_within(x: &[i32]) -> bool
    ensures { result ≡ all (length x.now) (λ k. within (at x.now k) coefficient_limit) }
{
    let mut all = true;
    for coefficient in x {
        all = all & is_within(*coefficient as i64, LARGEST);
    }
    all
}

/// Each of the first `count` coefficients lies within plus or minus 2^29.
pub fn in_range(x: &[i32], count: usize) -> bool
    requires { (count ≤ length x.now) × (6 * (count / 6) ≡ count) }
    ensures { result ≡ in_range count x.now }
{
    for six in x[..count].chunks_exact(6) {
        if !coefficients_within(six) {
            return false;
        }
    }
    true
}

/// A block's length is one of the six. Length (1): it is another.
#[tactic(auto, using(crate::specs::LimitLaws::hop_sixes, crate::specs::LimitLaws::length_most))]
pub fn check_length(n: usize) -> Result<(), Refusal>
    ensures answer { result ≡ refused_unless (tabled n) Refusal.Length }
    ensures tabled { OnOk result (T (tabled n)) }
    ensures most { OnOk result (n ≤ 216) }
    ensures sixes { OnOk result (6 * (n / 2 / 6) ≡ n / 2) }
{
    refuse_unless(cosine::is_tabled(n), Refusal::Length)
}

/// The route is offered at this length. Length (1): it is not.
pub fn check_route(route: Route, n: usize) -> Result<(), Refusal>
    ensures { result ≡ refused_unless (offered route n) Refusal.Length }
{
    refuse_unless(is_offered(route, n), Refusal::Length)
}

/// A buffer has the length that is stated. Size (2): it has another, longer ones too.
pub fn check_size(length: usize, stated: usize) -> Result<(), Refusal>
    ensures { result ≡ refused_unless (eqb length stated) Refusal.Size }
{
    refuse_unless(length == stated, Refusal::Size)
}

/// A recording may have this many hops, 1 to 4,095. Size (2): it may not.
#[tactic(auto, using(crate::specs::LimitLaws::hop_counts))]
pub fn check_hops(hops: usize) -> Result<(), Refusal>
    ensures answer { result ≡ refused_unless (counted hops) Refusal.Size }
    ensures some { OnOk result (1 ≤ hops) }
    ensures most { OnOk result (hops ≤ 4095) }
{
    refuse_unless(is_counted(hops), Refusal::Size)
}

/// Both shapes of a block are 0 or 1. Shape (8): one is above 1.
pub fn check_shapes(joints: Joints) -> Result<(), Refusal>
    ensures { result ≡ refused_unless (are_shapes joints.left joints.right) Refusal.Shape }
{
    refuse_unless(are_shapes(joints), Refusal::Shape)
}

/// Each of `count` coefficients is one that synthesis takes, within plus or minus 2^29. Coefficient (3): one is not.
#[tactic(auto, using(crate::specs::LimitLaws::range_small))]
pub fn check_coefficients(x: &[i32], count: usize) -> Result<(), Refusal>
    requires { (length x.now ≡ count) × (6 * (count / 6) ≡ count) }
    ensures answer { result ≡ refused_unless (in_range count x.now) Refusal.Coefficient }
    ensures small { OnOk result (Small x.now (2 ^ 29)) }
{
    refuse_unless(in_range(x, count), Refusal::Coefficient)
}
