// The short route's analysis of one block: one body for every length at which it is offered. The leaves are in `split`.
ghost use Rattle.std.specs.Prelude.{◌≡◌, ◌+◌, ◌*◌, ◌/◌, ◌≤◌, T, length};
ghost use Rattle.arithmetic.specs.Lists.{at};
ghost use Rattle.cosine.specs.Kernels.{rising, falling};
ghost use Rattle.cosine.specs.LengthLaws.{Length};
ghost use Rattle.transform.specs.Analysis.{y};
ghost use Rattle.split.specs.ShortRoute.{offered, Unrounded, short};
ghost use Rattle.split.specs.PartLaws.{Given, Windowed};

use blocks::{Block2, Block4, Block6, Block12};
use level::WideSumming;
use split::{Turns, parts, thirds};
use windows::{Joints, Window};

// The split of y: N inputs make three parts of T, each of Q sums.
#[inline(always)]
fn split_block<const N: usize, const T: usize, const Q: usize, B: WideSumming<Q>>(
    turns: Turns<N, T>,
    y: &[i32],
    a: &mut [i64],
    plus: &mut [i64],
    minus: &mut [i64],
)
    requires parts { (T ≡ N / 3) × (Q ≡ N / 6) × (N ≤ 72) }
    requires given { Given N y.now }
    requires a_len { length a.old ≡ Q }
    requires plus_len { length plus.old ≡ Q }
    requires minus_len { length minus.old ≡ Q }
    ensures { Unrounded N (at y.now) a.new plus.new minus.new }
{
    let mut w = [0i32; T];
    let mut b = [0i64; Q];
    let mut g = [0i64; Q];
    thirds::fill_middle(N, y, &mut w);
    parts::third_sums::<Q, B>(N, 0, y, &w, a);
    thirds::fill_turned(N, 1, y, &turns.cosines.eb, &turns.cosines.fb, &mut w);
    parts::third_sums::<Q, B>(N, 1, y, &w, &mut b);
    thirds::fill_turned(N, 2, y, &turns.cosines.ec, &turns.cosines.fc, &mut w);
    parts::third_sums::<Q, B>(N, 2, y, &w, &mut g);
    thirds::outer_sums(N, y, a, &b, &g, plus, minus);
}

// The block of N = 2 M samples, windowed. Long joints have a call of their own, for which the compiler knows the window's numbers.
#[inline(always)]
pub fn windowed<const N: usize, const M: usize>(
    window: Window<M>,
    joints: Joints,
    x: &[i16],
    block: &mut [i32],
)
    requires whole { Length N }
    requires half { (N ≡ M + M) × (N ≤ 72) }
    requires x_len { length x.now ≡ N }
    requires block_len { length block.old ≡ N }
    ensures { Windowed N joints.left joints.right x.now block.new }
{
    if joints.left == 0 && joints.right == 0 {
        split::windowed_block(N, joints, window.rising(0), window.falling(0), x, block);
    } else {
        split::windowed_block(
            N,
            joints,
            window.rising(joints.left),
            window.falling(joints.right),
            x,
            block,
        );
    }
}

fn short_block<const N: usize, const M: usize, const T: usize, const Q: usize, B: WideSumming<Q>>(
    window: Window<M>,
    turns: Turns<N, T>,
    joints: Joints,
    x: &[i16],
    out: &mut [i32],
)
    requires whole { Length N }
    requires half { (N ≡ M + M) × (N ≤ 72) }
    requires parts { (T ≡ N / 3) × (Q ≡ N / 6) × (N ≤ 72) }
    requires x_len { length x.now ≡ N }
    requires out_len { length out.old ≡ M }
    ensures { out.new ≡ short N (y N (rising joints.left N) (falling joints.right N) x.now) }
{
    let mut block = [0i32; N];
    let mut a = [0i64; Q];
    let mut plus = [0i64; Q];
    let mut minus = [0i64; Q];
    windowed::<N, M>(window, joints, x, &mut block);
    split_block::<N, T, Q, B>(turns, &block, &mut a, &mut plus, &mut minus);
    split::short_block(N, joints, x, &block, &a, &plus, &minus, out);
}

// The coefficients of a block by the short route, with joints of these shapes.
pub fn analyse(n: usize, joints: Joints, x: &[i16], out: &mut [i32])
    requires { T (offered n) × (length x.now ≡ n) × (length out.old ≡ n / 2) }
    ensures { out.new ≡ short n (y n (rising joints.left n) (falling joints.right n) x.now) }
{
    // Which of the lengths: `if` and not `match`, whose last arm is told nothing of the numbers left out.
    if n == 12 {
        short_block::<12, 6, 4, 2, Block2>(windows::window_12(), split::turns_12(), joints, x, out);
    } else if n == 24 {
        short_block::<24, 12, 8, 4, Block4>(
            windows::window_24(),
            split::turns_24(),
            joints,
            x,
            out,
        );
    } else if n == 36 {
        short_block::<36, 18, 12, 6, Block6>(
            windows::window_36(),
            split::turns_36(),
            joints,
            x,
            out,
        );
    } else {
        short_block::<72, 36, 24, 12, Block12>(
            windows::window_72(),
            split::turns_72(),
            joints,
            x,
            out,
        );
    }
}
