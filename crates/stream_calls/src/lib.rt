// The public calls on streams: their checks and refusals, in the documents' order, and nothing else. `filter_bank` hands them on. None has a requires: any
// numbers and any buffer lengths may be handed in. Here by value, in `state` in place.
// `admit` and `check_step` are no public calls: they are the checks that a step by value, one in place and those on levels share.
#![tactic(auto)]

ghost use Rattle.std.specs.Prelude.{◌≡◌, T, IfErr, IfOk, OnOk, eqb, length, ◌/◌, ◌*◌};
ghost use Rattle.cosine.specs.Kernels.{tabled};
ghost use Rattle.stream.specs.Steps.{next};
ghost use Rattle.stream.specs.StepLaws.{Bounded, Valid};
ghost use Rattle.stream.specs.Synthesis as S;
ghost use Rattle.stream.specs.Synthesis.{storage};
ghost use Rattle.refusals.specs.Answers.{code_of, refused_unless};
ghost use Rattle.stream_calls.specs.Answers.{made_of, stepped_of};
ghost use Rattle.stream_calls.specs.Streams.{fresh, sound, fits, admit_code, step_code, step, step_out, stream_of};

pub mod state;

use checks::{
    Joints, Offer, Refusal, check_coefficients, check_length, check_shapes, check_size,
    refuse_unless,
};
use stream::Stream;

/// A step that was refused: the stream as it was, and why. A caller that goes on takes the stream from here; `?` in a function that answers `Refusal` keeps the
/// cause alone.
#[derive(Clone, Copy)]
pub struct Refused {
    pub stream: Stream,
    pub cause: Refusal,
}

impl From<Refused> for Refusal {
    ghost from_gives = { λ refused cause. cause ≡ refused.cause };

    fn from(refused: Refused) -> Refusal {
        refused.cause
    }
}

/// What a stream is beside its tail.
#[derive(Clone, Copy, Debug, PartialEq, Eq)]
pub struct Head {
    pub n: usize,
    pub expected: u64,
    pub shape: u32,
}

/// A fresh stream for blocks of n samples: it expects block 0 and a long joint (document 01, 'Synthesis stream'). Length (1): n is not tabled.
#[tactic(auto, unfolding(crate::specs::Streams::fresh))]
pub fn fresh(n: usize) -> Result<Stream, Refusal>
    ensures answer { made_of result ≡ fresh n }
    ensures made { IfOk result (λ stream. stream ≡ S.fresh n) }
{
    check_length(n)?;
    Ok(stream::fresh(n))
}

// The stream of n and this tail is sound, whatever it expects.
#[tactic(auto, using(crate::specs::StreamLaws::tail_bounded), unfolding(crate::specs::Streams::sound, crate::specs::Streams::sound_tail))]
fn check_sound(n: usize, tail: &[i64]) -> Result<(), Refusal>
    requires { length tail.now ≡ storage }
    ensures answer { result ≡ refused_unless (sound (stream_of n 0 0 tail.now)) Refusal.Stream }
    ensures tabled { OnOk result (T (tabled n)) }
    ensures sixes { OnOk result (6 * (n / 2 / 6) ≡ n / 2) }
    ensures bounded { OnOk result (Bounded (n / 2) tail.now) }
{
    match check_length(n) {
        Ok(()) => refuse_unless(checks::tail_within(tail, n / 2), Refusal::Stream),
        Err(_) => Err(Refusal::Stream),
    }
}

// A block's number is the one that a stream expects.
fn check_number(number: u32, expected: u64) -> Result<(), Refusal>
    ensures { result ≡ refused_unless (eqb number expected) Refusal.Number }
{
    refuse_unless(number as u64 == expected, Refusal::Number)
}

// A block's joints fit a stream that ends with a joint of this shape.
#[tactic(auto, unfolding(crate::specs::Streams::fits))]
fn check_joints(joints: Joints, shape: u32) -> Result<(), Refusal>
    ensures answer { result ≡ refused_unless (fits joints.left joints.right shape) Refusal.Shape }
{
    check_shapes(joints)?;
    refuse_unless(joints.left == shape, Refusal::Shape)
}

/// Whether the stream of this head and tail takes a block of this number and these joints at all: Stream (4), Number (7) or Shape (8), as `step`. A step on
/// levels asks before it reads the table, and then steps.
#[tactic(auto, unfolding(crate::specs::Streams::admit_code, crate::specs::Streams::admit_causes, crate::specs::Streams::sound, crate::specs::Streams::sound_tail, checks::specs::Causes::first_cause))]
pub fn admit(head: Head, tail: &[i64], offer: Offer) -> Result<(), Refusal>
    requires { length tail.now ≡ storage }
    ensures code { code_of result ≡ admit_code (stream_of head.n head.expected head.shape tail.now) offer.number offer.joints.left offer.joints.right }
    ensures tabled { OnOk result (T (tabled head.n)) }
    ensures sixes { OnOk result (6 * (head.n / 2 / 6) ≡ head.n / 2) }
    ensures bounded { OnOk result (Bounded (head.n / 2) tail.now) }
    ensures number { OnOk result (offer.number ≡ head.expected) }
{
    check_sound(head.n, tail)?;
    check_number(offer.number, head.expected)?;
    check_joints(offer.joints, head.shape)
}

/// Every check of a step on the stream of this head and tail, in the documents' order. Its first three are those of `admit`: through `admit(..)?` the proof of the
/// number stayed open.
#[tactic(auto, using(checks::specs::LimitLaws::range_small), unfolding(crate::specs::Streams::step_code, crate::specs::Streams::step_causes, crate::specs::Streams::sound, crate::specs::Streams::sound_tail, checks::specs::Causes::first_cause))]
fn check_step(head: Head, tail: &[i64], offer: Offer, x: &[i32], out: &[i16]) -> Result<(), Refusal>
    requires { length tail.now ≡ storage }
    ensures code { code_of result ≡ step_code (stream_of head.n head.expected head.shape tail.now) offer.number offer.joints.left offer.joints.right x.now out.now }
    ensures valid { OnOk result (Valid head.n x.now tail.now out.now) }
    ensures number { OnOk result (offer.number ≡ head.expected) }
{
    let m = head.n / 2;
    let Offer { number, joints } = offer;
    check_sound(head.n, tail)?;
    check_number(number, head.expected)?;
    check_joints(joints, head.shape)?;
    check_size(x.len(), m)?;
    check_size(out.len(), m)?;
    check_coefficients(x, m)
}

/// One step of the synthesis stream: a block's number, its joints and its M = N / 2 coefficients in, a hop of M samples out (document 01, 'Synthesis stream',
/// and document 02, P6 and P7). Stream (4): the one handed in is not sound. Number (7): the block's is not the one that it expects. Shape (8): one is above 1, or
/// the left one is not the one that it expects. Size (2): a buffer's length is not M. Coefficient (3): one is out of range. The first of these is told. Refused,
/// the stream comes back as it was, and `out` is left alone; taken, it expects one more, and the right shape.
#[tactic(auto, unfolding(crate::specs::Streams::step, crate::specs::Streams::step_out, stream::specs::Steps::next, stream::specs::Steps::hop))]
pub fn step(s: Stream, offer: Offer, x: &[i32], out: &mut [i16]) -> Result<Stream, Refused>
    ensures answer { stepped_of result ≡ step s offer.number offer.joints.left offer.joints.right x.now out.old }
    ensures taken { IfOk result (λ stream. stream ≡ next s offer.joints.left offer.joints.right x.now) }
    ensures refused { IfErr result (λ refused. refused.stream ≡ s) }
    ensures out_after { out.new ≡ step_out s offer.number offer.joints.left offer.joints.right x.now out.old }
{
    let head = Head {
        n: s.n,
        expected: s.expected,
        shape: s.shape,
    };
    if let Err(cause) = check_step(head, &s.tail, offer, x, out) {
        return Err(Refused { stream: s, cause });
    }
    let mut tail = s.tail;
    synthesis::advance_tail(s.n, offer.joints, x, &mut tail, out);
    Ok(Stream {
        n: s.n,
        expected: s.expected + 1,
        shape: offer.joints.right,
        tail,
    })
}
