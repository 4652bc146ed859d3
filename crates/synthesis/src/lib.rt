// One step of a stream on valid input, in place and by value: one body for every length, which is lent a length's window and sums.
// No function here is a public call: `recording`, `listing` and the public calls over streams call them, under their requires, after every check.
#![tactic(auto)]

ghost use Rattle.std.specs.Prelude.{◌≡◌, ◌+◌, ◌/◌, ◌^◌, ◌<◌, T, length};
ghost use Rattle.arithmetic.specs.Lists.{table, Small};
ghost use Rattle.cosine.specs.Kernels.{tabled, rising, falling};
ghost use Rattle.cosine.specs.LengthLaws.{Length};
ghost use Rattle.level.specs.Places.{twice};
ghost use Rattle.transform.specs.Synthesis.{V'};
ghost use Rattle.transform.specs.Stages.{Input};
ghost use Rattle.stream.specs.Synthesis.{hop, new_tail};
ghost use Rattle.stream.specs.Steps.{next};
ghost use Rattle.stream.specs.StepLaws.{Bounded, Step, Valid};

use blocks::{Block6, Block12, Block18, Block36, Block54, Block108};
use level::WideSumming;
use stream::Stream;
use windows::{Joints, Window};

// The sums of M coefficients, doubled.
#[inline(always)]
fn sums<const M: usize, B: WideSumming<M>>(x: &[i32], t: &mut [i64; M])
    requires long { length x.now ≡ M }
    requires small { Small x.now (2 ^ 29) }
    ensures { t.new ≡ twice M x.now }
{
    match <&[i32; M]>::try_from(x) {
        Ok(x) => B::wide_sums(x, t),
        Err(_) => {}
    }
}

// Up to this many samples of a hop long joints have a call of their own, for which the compiler knows the window's numbers.
const FEW: usize = 6;

// V from the doubled sums t of a block of N = 2 M.
#[inline(always)]
fn values<const N: usize, const M: usize>(
    window: Window<M>,
    joints: Joints,
    x: &[i32],
    t: &mut [i64],
    v: &mut [i64],
)
    requires whole { Length N }
    requires half { N ≡ M + M }
    requires input { Input N x.now }
    requires sums { t.old ≡ twice M x.now }
    requires v_len { length v.old ≡ N }
    ensures { v.new ≡ table N (V' N (rising joints.left N) (falling joints.right N) x.now) }
{
    if M <= FEW && joints.left == 0 && joints.right == 0 {
        transform::inverse_of_doubled(N, joints, window.rising(0), window.falling(0), x, t, v);
    } else {
        transform::inverse_of_doubled(
            N,
            joints,
            window.rising(joints.left),
            window.falling(joints.right),
            x,
            t,
            v,
        );
    }
}

// One step of a block of N = 2 M, with joints of these shapes, in place: V from the sums of its coefficients, and from it the hop and the new tail.
#[inline(always)]
fn step<const N: usize, const M: usize, B: WideSumming<M>>(
    window: Window<M>,
    joints: Joints,
    x: &[i32],
    tail: &mut [i64],
    out: &mut [i16],
)
    requires whole { Length N }
    requires half { N ≡ M + M }
    requires step { Step N x.now tail.old out.old }
    ensures tail_after { tail.new ≡ new_tail N (rising joints.left N) (falling joints.right N) tail.old x.now }
    ensures out_after { out.new ≡ hop N (rising joints.left N) (falling joints.right N) tail.old x.now }
{
    let mut t = [0i64; M];
    let mut v = [0i64; N];
    sums::<M, B>(x, &mut t);
    values::<N, M>(window, joints, x, &mut t, &mut v);
    stream::settle(N, joints, x, &v, tail, out);
}

// One step on valid input, of a block with joints of these shapes, in place: the hop into `out`, and the new tail in `tail`.
pub fn advance_tail(n: usize, joints: Joints, x: &[i32], tail: &mut [i64], out: &mut [i16])
    requires { Valid n x.now tail.old out.old }
    ensures tail_after { tail.new ≡ new_tail n (rising joints.left n) (falling joints.right n) tail.old x.now }
    ensures out_after { out.new ≡ hop n (rising joints.left n) (falling joints.right n) tail.old x.now }
{
    // Which of the lengths: `if` and not `match`, whose last arm is told nothing of the numbers left out.
    if n == 12 {
        step::<12, 6, Block6>(windows::window_12(), joints, x, tail, out);
    } else if n == 24 {
        step::<24, 12, Block12>(windows::window_24(), joints, x, tail, out);
    } else if n == 36 {
        step::<36, 18, Block18>(windows::window_36(), joints, x, tail, out);
    } else if n == 72 {
        step::<72, 36, Block36>(windows::window_72(), joints, x, tail, out);
    } else if n == 108 {
        step::<108, 54, Block54>(windows::window_108(), joints, x, tail, out);
    } else {
        step::<216, 108, Block108>(windows::window_216(), joints, x, tail, out);
    }
}

// One step on valid input, of a block with long joints: the hop into `out`, and the stream to go on with, which expects one more.
pub fn advance(s: Stream, x: &[i32], out: &mut [i16]) -> Stream
    requires tabled { T (tabled s.n) × (length x.now ≡ s.n / 2) × Small x.now (2 ^ 29) × (length out.old ≡ s.n / 2) × Bounded (s.n / 2) s.tail }
    requires expected_bound { s.expected < 2 ^ 32 }
    ensures value { result ≡ next s 0 0 x.now }
    ensures out_after { out.new ≡ hop s.n (rising 0 s.n) (falling 0 s.n) s.tail x.now }
{
    let n = s.n;
    let expected = s.expected + 1;
    let mut tail = s.tail;
    advance_tail(n, windows::LONG, x, &mut tail, out);
    Stream {
        n: n,
        expected: expected,
        shape: 0,
        tail: tail,
    }
}
