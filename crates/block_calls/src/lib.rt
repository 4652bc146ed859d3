// The public call on one block: its checks and refusals, in the documents' order, and nothing else. `filter_bank` hands it on.
// It has no requires: any numbers and any buffer lengths may be handed in.
#![tactic(auto)]

ghost use Rattle.std.specs.Prelude.{◌≡◌};
ghost use Rattle.refusals.specs.Answers.{code_of};
ghost use Rattle.block_calls.specs.Analysis.{analyse_code, analyse_out};

use analysis::Route;
use checks::{Joints, Refusal, check_route, check_shapes, check_size};

/// The n / 2 coefficients of one block of n samples, by the route named, with these joints (document 01, 'Analysis' and 'Short route'). Length (1): the route
/// is not offered at n. Shape (8): a joint's is above 1. Size (2): a buffer's length is not the stated one. The first of these is told. Refused, `out` is left
/// alone.
#[tactic(auto, unfolding(crate::specs::Analysis::analyse_code, crate::specs::Analysis::analyse_causes, checks::specs::Causes::first_cause, crate::specs::Analysis::analyse_out))]
pub fn analyse(
    route: Route,
    n: usize,
    joints: Joints,
    x: &[i16],
    out: &mut [i32],
) -> Result<(), Refusal>
    ensures code { code_of result ≡ analyse_code route n joints.left joints.right x.now out.old }
    ensures out_after { out.new ≡ analyse_out route n joints.left joints.right x.now out.old }
{
    check_route(route, n)?;
    check_shapes(joints)?;
    check_size(x.len(), n)?;
    check_size(out.len(), n / 2)?;
    analysis::analyse_block(route, n, joints, x, out);
    Ok(())
}
