// The short route's analysis of one block of a length at which it is offered, valid by its requires. Definitions are in specs/.
// No function here is a public call: `split_bodies` and `double_route` call the leaves, after every check of the public calls, and `checks`
// asks `is_offered`.
#![tactic(auto)]

mod block;
pub mod numbers;
pub mod parts;
pub mod thirds;

ghost use Rattle.std.specs.Prelude.{◌≡◌, ◌/◌, ◌≤◌, length};
ghost use Rattle.arithmetic.specs.Lists.{at};
ghost use Rattle.cosine.specs.Kernels.{rising, falling};
ghost use Rattle.transform.specs.Analysis.{y};
ghost use Rattle.windows.specs.HalfLaws.{Lent};
ghost use Rattle.split.specs.ShortRoute.{offered, Unrounded, short};
ghost use Rattle.split.specs.TurnLists.{IsTurns};
ghost use Rattle.split.specs.PartLaws.{Windowed};

use windows::Joints;

// From this length on a window by products of 16 bits pays: the vector unit makes several at a time.
const LONG: usize = 36;

// Cosines beside e and f, T of each.
pub struct Cosines<const T: usize> {
    pub eb: [i32; T],
    pub fb: [i32; T],
    pub ec: [i32; T],
    pub fc: [i32; T],
}

// Those of a part of N inputs, T being N / 3.
#[derive(Clone, Copy)]
pub struct Turns<const N: usize, const T: usize> {
    pub cosines: &'static Cosines<T>,
    pub ghost is_turns: { IsTurns N cosines.now.eb cosines.now.fb cosines.now.ec cosines.now.fc },
}

// The lengths at which the short route is offered.
#[tactic(auto, unfolding(crate::specs::ShortRoute::offered, cosine::specs::Kernels::short_tabled, cosine::specs::Kernels::short_lengths, arithmetic::specs::Lists::every))]
pub fn is_offered(n: usize) -> bool
    ensures { result ≡ offered n }
{
    n == 12 || n == 24 || n == 36 || n == 72
}

// The block, windowed. The halves of its joints are lent, by their shapes.
// A length's function calls this, its split and the next one by itself, so that the compiler knows every count.
pub fn windowed_block(
    n: usize,
    joints: Joints,
    rise: &[i32],
    fall: &[i32],
    x: &[i16],
    block: &mut [i32],
)
    requires lent { Lent n joints.left joints.right rise.now fall.now }
    requires n_bound { n ≤ 72 }
    requires x_len { length x.now ≡ n }
    requires block_len { length block.old ≡ n }
    ensures { Windowed n joints.left joints.right x.now block.new }
{
    block::windowed_block(n, rise, fall, x, block);
}

// The coefficients of a block x from the sums of its split, `block` being the block windowed.
pub fn short_block(
    n: usize,
    joints: Joints,
    x: &[i16],
    block: &[i32],
    a: &[i64],
    plus: &[i64],
    minus: &[i64],
    out: &mut [i32],
)
    requires windowed { Windowed n joints.left joints.right x.now block.now }
    requires unrounded { Unrounded n (at block.now) a.now plus.now minus.now }
    requires out_len { length out.old ≡ n / 2 }
    ensures { out.new ≡ short n (y n (rising joints.left n) (falling joints.right n) x.now) }
{
    block::coefficients(a, plus, minus, out);
}

// The cosines of each length: a function for each, since no const parameter can choose a static.
pub fn turns_12() -> Turns<12, 4> {
    Turns {
        cosines: &numbers::COSINES_12,
    }
}

pub fn turns_24() -> Turns<24, 8> {
    Turns {
        cosines: &numbers::COSINES_24,
    }
}

pub fn turns_36() -> Turns<36, 12> {
    Turns {
        cosines: &numbers::COSINES_36,
    }
}

pub fn turns_72() -> Turns<72, 24> {
    Turns {
        cosines: &numbers::COSINES_72,
    }
}
