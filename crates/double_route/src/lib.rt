// The double route's analysis of one windowed block of a length at which it is offered, valid by its requires. Definitions are in specs/.
// No function here is a public call: `analysis` calls `double_block`, after every check of the public calls, and `checks` asks `is_offered`.
#![tactic(auto)]

mod sums;
mod thirds;

ghost use Rattle.std.specs.Prelude.{◌≡◌, ◌/◌, ◌^◌, T, length};
ghost use Rattle.arithmetic.specs.Lists.{at, table, Small};
ghost use Rattle.cosine.specs.Kernels.{rising, falling};
ghost use Rattle.transform.specs.Analysis.{y};
ghost use Rattle.split.specs.PartLaws.{Windowed};
ghost use Rattle.double_route.specs.Double.{offered, scaled, double};
ghost use Rattle.double_route.specs.PieceLaws.{Piece};

use transform::rounding;
use windows::Joints;

// The lengths at which the double route is offered.
#[tactic(auto, unfolding(crate::specs::Double::offered))]
pub fn is_offered(n: usize) -> bool
    ensures { result ≡ offered n }
{
    n == 36 || n == 72
}

// The sums of a part of y.len() inputs, doubled for each split in it. Its three parts have a third of its length: where that divides by 12 again, they go
// through the same function. Otherwise the part has 12 or 24 inputs and its split is the last, a body with constants, `sums::last`, so that every count is
// known there: the recursion ends at it, by the length.
fn split(y: &[i32], out: &mut [i64])
    requires piece { Piece (length y.now) y.now }
    requires out_len { length out.old ≡ length y.now / 2 }
    ensures { out.new ≡ table (length y.now / 2) (scaled (length y.now) (at y.now)) }
{
    let n = y.len();
    let t = n / 3;
    if t % 12 == 0 {
        let h = n / 6;
        let mut wa = [0i32; 24];
        let mut wb = [0i32; 24];
        let mut wg = [0i32; 24];
        let mut a = [0i64; 12];
        let mut b = [0i64; 12];
        let mut g = [0i64; 12];
        thirds::thirds(y, &mut wa[..t], &mut wb[..t], &mut wg[..t]);
        split(&wa[..t], &mut a[..h]);
        split(&wb[..t], &mut b[..h]);
        split(&wg[..t], &mut g[..h]);
        sums::join(&a[..h], &b[..h], &g[..h], out);
    } else {
        sums::last(y, out);
    }
}

// The coefficients of the windowed block y.
pub fn analyse(y: &[i32], out: &mut [i32])
    requires offered { T (offered (length y.now)) }
    requires small { Small y.now (2 ^ 23) }
    requires out_len { length out.old ≡ length y.now / 2 }
    ensures { out.new ≡ double (length y.now) (at y.now) }
{
    let h = out.len();
    let mut s = [0i64; 36];
    split(y, &mut s[..h]);
    rounding::spectrum(&s[..h], 30, out);
}

// The coefficients of a block x, `block` being the block windowed.
pub fn double_block(n: usize, joints: Joints, x: &[i16], block: &[i32], out: &mut [i32])
    requires offered { T (offered n) }
    requires windowed { Windowed n joints.left joints.right x.now block.now }
    requires out_len { length out.old ≡ n / 2 }
    ensures { out.new ≡ double n (y n (rising joints.left n) (falling joints.right n) x.now) }
{
    analyse(block, out);
}
