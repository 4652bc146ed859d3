// The coarsest step for a recording (document 02, P13): a trial of a step, block by block, and the search over trials.
// No function here is a public call: `coarsest_calls` calls `coarsest_step`, after every check. Nothing of a recording's size is kept.
#![tactic(auto)]

mod stepped;
mod trial;

ghost use Rattle.std.specs.Prelude.{◌≡◌, ◌*◌, ◌/◌, ◌≤◌, T, length};
ghost use Rattle.cosine.specs.Kernels.{tabled};
ghost use Rattle.coarsest.specs.Coarsest.{coarsest};

use step_search::Found;

// The coarsest step from 1 to 1,024 with which every sample of the recording returns within `allowed`, as far as the budget of trials goes.
pub fn coarsest_step(n: usize, hops: usize, x: &[i16], allowed: u32, budget: usize) -> Found
    requires { T (tabled n) × (1 ≤ hops) × (hops ≤ 4095) × (length x.now ≡ hops * (n / 2)) × (allowed ≤ 32) }
    ensures { result ≡ coarsest n hops x.now allowed budget }
{
    trial::are_samples(x);
    step_search::find_coarsest(
        allowed,
        budget,
        |step| trial::is_passed(n, hops, x, allowed, step),
    )
}
