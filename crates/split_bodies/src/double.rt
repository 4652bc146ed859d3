// The double route's analysis of one block, one body for both lengths at which it is offered, which windows the block as the short route does. The split is in `double_route`.
ghost use Rattle.std.specs.Prelude.{◌≡◌, ◌+◌, ◌/◌, ◌≤◌, T, length};
ghost use Rattle.cosine.specs.Kernels.{rising, falling};
ghost use Rattle.cosine.specs.LengthLaws.{Length};
ghost use Rattle.transform.specs.Analysis.{y};
ghost use Rattle.double_route.specs.Double.{offered, double};

use crate::short;
use windows::{Joints, Window};

// The coefficients of a block of N = 2 M samples, windowed first.
fn double_of<const N: usize, const M: usize>(
    window: Window<M>,
    joints: Joints,
    x: &[i16],
    out: &mut [i32],
)
    requires whole { Length N }
    requires half { (N ≡ M + M) × (N ≤ 72) }
    requires offered { T (offered N) }
    requires x_len { length x.now ≡ N }
    requires out_len { length out.old ≡ M }
    ensures { out.new ≡ double N (y N (rising joints.left N) (falling joints.right N) x.now) }
{
    let mut block = [0i32; N];
    short::windowed::<N, M>(window, joints, x, &mut block);
    double_route::double_block(N, joints, x, &block, out);
}

// The coefficients of a block by the double route, with joints of these shapes.
pub fn analyse(n: usize, joints: Joints, x: &[i16], out: &mut [i32])
    requires { T (offered n) × (length x.now ≡ n) × (length out.old ≡ n / 2) }
    ensures { out.new ≡ double n (y n (rising joints.left n) (falling joints.right n) x.now) }
{
    // Which of the lengths: `if` and not `match`, whose last arm is told nothing of the numbers left out.
    if n == 36 {
        double_of::<36, 18>(windows::window_36(), joints, x, out);
    } else {
        double_of::<72, 36>(windows::window_72(), joints, x, out);
    }
}
