// The direct analysis of one block: one body for every length, which is lent a length's window and sums.
// No function here is a public call: `analysis` and `listing` call `analyse`, after every check.
#![tactic(auto)]

ghost use Rattle.std.specs.Prelude.{◌≡◌, ◌+◌, ◌/◌, T, length};
ghost use Rattle.cosine.specs.Kernels.{tabled, rising, falling};
ghost use Rattle.cosine.specs.LengthLaws.{Length};
ghost use Rattle.transform.specs.Analysis.{y, direct};
ghost use Rattle.transform.specs.Stages.{Folded};

use blocks::{Block6, Block12, Block18, Block36, Block54, Block108};
use level::Summing;
use windows::{Joints, Window};

// Up to this many samples of a hop long joints have a call of their own, for which the compiler knows the window's numbers.
const FEW: usize = 6;

// The block of N = 2 M samples, windowed and folded.
#[inline(always)]
fn folded<const N: usize, const M: usize>(
    window: Window<M>,
    joints: Joints,
    x: &[i16],
    z: &mut [i32],
)
    requires whole { Length N }
    requires half { N ≡ M + M }
    requires x_len { length x.now ≡ N }
    requires z_len { length z.old ≡ M }
    ensures { Folded N joints.left joints.right x.now z.new }
{
    if M <= FEW && joints.left == 0 && joints.right == 0 {
        transform::folded_block(N, joints, window.rising(0), window.falling(0), x, z);
    } else {
        transform::folded_block(
            N,
            joints,
            window.rising(joints.left),
            window.falling(joints.right),
            x,
            z,
        );
    }
}

// The coefficients of a block of N = 2 M samples, with joints of these shapes.
#[inline(always)]
fn direct<const N: usize, const M: usize, B: Summing<M>>(
    window: Window<M>,
    joints: Joints,
    x: &[i16],
    out: &mut [i32],
)
    requires whole { Length N }
    requires half { N ≡ M + M }
    requires x_len { length x.now ≡ N }
    requires out_len { length out.old ≡ M }
    ensures { out.new ≡ direct N (y N (rising joints.left N) (falling joints.right N) x.now) }
{
    let mut z = [0i32; M];
    let mut t = [0i64; M];
    folded::<N, M>(window, joints, x, &mut z);
    B::block_sums(&z, &mut t);
    transform::direct_of_doubled(N, joints, x, &z, &t, out);
}

// The coefficients of a block by the direct route, for a tabled length and joints of these shapes.
pub fn analyse(n: usize, joints: Joints, x: &[i16], out: &mut [i32])
    requires { T (tabled n) × (length x.now ≡ n) × (length out.old ≡ n / 2) }
    ensures { out.new ≡ direct n (y n (rising joints.left n) (falling joints.right n) x.now) }
{
    // Which of the lengths: `if` and not `match`, whose last arm is told nothing of the numbers left out.
    if n == 12 {
        direct::<12, 6, Block6>(windows::window_12(), joints, x, out);
    } else if n == 24 {
        direct::<24, 12, Block12>(windows::window_24(), joints, x, out);
    } else if n == 36 {
        direct::<36, 18, Block18>(windows::window_36(), joints, x, out);
    } else if n == 72 {
        direct::<72, 36, Block36>(windows::window_72(), joints, x, out);
    } else if n == 108 {
        direct::<108, 54, Block54>(windows::window_108(), joints, x, out);
    } else {
        direct::<216, 108, Block108>(windows::window_216(), joints, x, out);
    }
}
