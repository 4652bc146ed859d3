// One block of a tabled length, valid by its requires: window, fold, direct analysis, inverse. Definitions are in specs/.
// No function here is a public call: `direct_bodies` and `synthesis` call them, a body for every length, `split` and `double_route` the rounding, and `split` a windowed sample.
#![tactic(auto)]

pub mod fold;
pub mod rounding;
mod unfold;

ghost use Rattle.std.specs.Prelude.{◌≡◌, ◌/◌, length};
ghost use Rattle.arithmetic.specs.Lists.{table};
ghost use Rattle.cosine.specs.Kernels.{rising, falling};
ghost use Rattle.transform.specs.Analysis.{y, direct};
ghost use Rattle.transform.specs.Synthesis.{V'};
ghost use Rattle.transform.specs.Stages.{Folded, Input, Ready};
ghost use Rattle.level.specs.Places.{twice};
ghost use Rattle.windows.specs.HalfLaws.{Lent};

use windows::Joints;

// The block, windowed and folded, into z. The halves of its joints are lent, by their shapes.
// A length's functions call this and the next one by themselves, so that the compiler knows every count.
#[inline(always)]
pub fn folded_block(n: usize, joints: Joints, rise: &[i32], fall: &[i32], x: &[i16], z: &mut [i32])
    requires lent { Lent n joints.left joints.right rise.now fall.now }
    requires x_len { length x.now ≡ n }
    requires z_len { length z.old ≡ n / 2 }
    ensures folded { Folded n joints.left joints.right x.now z.new }
    ensures ready { Ready n z.new }
{
    fold::fold(rise, fall, x, z);
}

// The coefficients of a block x by the direct route, z being the block folded and t its sums with the kernel, doubled.
#[inline(always)]
pub fn direct_of_doubled(n: usize, joints: Joints, x: &[i16], z: &[i32], t: &[i64], out: &mut [i32])
    requires folded { Folded n joints.left joints.right x.now z.now }
    requires sums { t.now ≡ twice (n / 2) z.now }
    requires out_len { length out.old ≡ n / 2 }
    ensures { out.new ≡ direct n (y n (rising joints.left n) (falling joints.right n) x.now) }
{
    rounding::spectrum(t, 29, out);
}

// V(0) .. V(N-1) of a block's coefficients x, t being their doubled sums, which are rounded there. The halves of its joints are lent.
#[inline(always)]
pub fn inverse_of_doubled(
    n: usize,
    joints: Joints,
    rise: &[i32],
    fall: &[i32],
    x: &[i32],
    t: &mut [i64],
    v: &mut [i64],
)
    requires lent { Lent n joints.left joints.right rise.now fall.now }
    requires input { Input n x.now }
    requires sums { t.old ≡ twice (n / 2) x.now }
    requires v_len { length v.old ≡ n }
    ensures { v.new ≡ table n (V' n (rising joints.left n) (falling joints.right n) x.now) }
{
    unfold::round_doubled(t);
    unfold::values(rise, fall, t, v);
}
