// The coefficients of a block by one step and back, in place. A search tries steps from 16 to 1,024, each on a whole recording: dividing by it is a multiplication, by a
// number that is made once for each trial.
ghost use Rattle.std.specs.Prelude.{◌≡◌, ◌+◌, ◌*◌, ◌/◌, ◌^◌, ◌≤◌, nat_abs};
ghost use Rattle.arithmetic.specs.Lists.{Small};
ghost use Rattle.levels.specs.Levels.{level, back};
ghost use Rattle.coarsest.specs.Coarsest.{stepped};
ghost use Rattle.coarsest.specs.SteppedLaws.{Tried, inverse_of};

// 2^39, by which a product with the inverse is divided: a shift.
const SCALE: u64 = 549755813888;

// The next whole number above 2^39 / step.
#[tactic(auto, using(crate::specs::SteppedLaws::inverse_most), unfolding(crate::specs::SteppedLaws::inverse_of))]
pub fn inverse(step: u32) -> u64
    requires { Tried step }
    ensures { result ≡ inverse_of step }
{
    SCALE / step as u64 + 1
}

// A size to the nearest multiple of the step. 216 × 2^21 is as large as a coefficient of direct analysis can be.
fn nearest(size: u32, step: u32, inverse: u64) -> u32
    requires size_bound { size ≤ 216 * 2 ^ 21 }
    requires tried { Tried step × (inverse ≡ inverse_of step) }
    ensures value { result ≡ (size + step / 2) / step * step }
    ensures upper_bound { result ≤ 2 ^ 29 }
{
    let raised = size + step / 2;
    let count = raised as u64 * inverse / SCALE;
    count as u32 * step
}

// A coefficient by its step and back.
#[tactic(auto, using(crate::specs::SteppedLaws::back_above, crate::specs::SteppedLaws::back_below, crate::specs::SteppedLaws::multiple_small))]
fn stepped(x: i32, step: u32, inverse: u64) -> i32
    requires x_bound { nat_abs x ≤ 216 * 2 ^ 21 }
    requires tried { Tried step × (inverse ≡ inverse_of step) }
    ensures { result ≡ back step (level step x) }
{
    let size = nearest(x.unsigned_abs(), step, inverse) as i32;
    if x < 0 { -size } else { size }
}

// The coefficients of a block.
pub fn step_block(x: &mut [i32], step: u32, inverse: u64)
    requires small { Small x.old (216 * 2 ^ 21) }
    requires tried { Tried step × (inverse ≡ inverse_of step) }
    ensures { x.new ≡ stepped step x.old }
{
    for entry in x.iter_mut() {
        *entry = stepped(*entry, step, inverse);
    }
}
