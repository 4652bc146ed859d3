// A coefficient by its step, and back (document 02, P8), and whole blocks of them.
// No function here is a public call: the calls on step tables call them, after every check.
#![tactic(auto)]

ghost use Rattle.std.specs.Prelude.{◌≡◌, ◌+◌, ◌/◌, ◌^◌, ◌≤◌, length, pos, nat_abs, ◌*ℤ◌};
ghost use Rattle.arithmetic.specs.Lists.{Small};
ghost use Rattle.levels.specs.Levels.{Step, Stepping, back, clipped, level, levelled, restored, step_at};

// A size by its step, to the nearest. With half a step it is below 2^31, so a division of 32 bits will do.
fn nearest(size: u32, step: u32) -> u32
    requires size_bound { size ≤ 2 ^ 29 }
    requires step { Step step }
    ensures { result ≡ (size + step / 2) / step }
{
    (size + step / 2) / step
}

// The level of a coefficient: that of its size, with its sign. Divided before the sign is looked at, so that the compiler needs no branch for it.
#[tactic(auto, using(crate::specs::LevelLaws::level_above, crate::specs::LevelLaws::level_below))]
fn level(x: i32, step: u32) -> i32
    requires x_bound { nat_abs x ≤ 2 ^ 29 }
    requires step { Step step }
    ensures { result ≡ level step x }
{
    let l = nearest(x.unsigned_abs(), step) as i32;
    if x < 0 { -l } else { l }
}

// A level times its step: any level, so up to 2^47.
fn product(l: i32, step: u32) -> i64
    requires { Step step }
    ensures { result ≡ l *ℤ pos step }
{
    l as i64 * step as i64
}

// z, clipped to the limit of a coefficient.
fn clipped(z: i64) -> i32
    ensures { result ≡ clipped z }
{
    z.clamp(-536870912, 536870912) as i32
}

// What comes back from a level.
#[tactic(auto, unfolding(crate::specs::Levels::back))]
fn back(l: i32, step: u32) -> i32
    requires { Step step }
    ensures { result ≡ back step l }
{
    clipped(product(l, step))
}

// The levels of a block's coefficients.
pub fn fill_levels(x: &[i32], steps: &[u32], out: &mut [i32])
    requires x_len { length x.now ≡ length out.old }
    requires steps_len { length steps.now ≡ length out.old }
    requires small { Small x.now (2 ^ 29) }
    requires stepping { Stepping steps.now }
    ensures { out.new ≡ levelled (step_at steps.now) (length out.old) x.now }
{
    for (k, entry) in out.iter_mut().enumerate() {
        *entry = level(x[k], steps[k]);
    }
}

// What comes back from a block's levels.
pub fn fill_restored(levels: &[i32], steps: &[u32], out: &mut [i32])
    requires levels_len { length levels.now ≡ length out.old }
    requires steps_len { length steps.now ≡ length out.old }
    requires stepping { Stepping steps.now }
    ensures { out.new ≡ restored (step_at steps.now) (length out.old) levels.now }
{
    for (k, coefficient) in out.iter_mut().enumerate() {
        *coefficient = back(levels[k], steps[k]);
    }
}
