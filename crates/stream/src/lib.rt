// The synthesis stream: a fresh one, and the leaves of a step on valid input: the hop and the new tail, from V.
// No function here is a public call: `synthesis` calls `settle`, the public calls and `listing` call `fresh`, after every check.
#![tactic(auto)]

ghost use Rattle.std.specs.Prelude.{◌≡◌, ◌++◌, ◌+◌, ◌*◌, ◌/◌, ◌^◌, ◌≤◌, T, length, drop, nat_abs, ◌+ℤ◌};
ghost use Rattle.arithmetic.specs.Rounding.{rnd, clamp};
ghost use Rattle.arithmetic.specs.Lists.{at, table};
ghost use Rattle.arithmetic.specs.QuotientLaws.{splits};
ghost use Rattle.cosine.specs.Kernels.{rising, falling};
ghost use Rattle.transform.specs.Synthesis.{V'};
ghost use Rattle.stream.specs.Synthesis.{storage, fresh, hop, new_tail};
ghost use Rattle.stream.specs.StepLaws.{Held, Step};

use windows::Joints;

// Entries of a tail: a hop of the longest block.
pub const STORAGE: usize = 108;

// A stream, document 01's term: the block length N, the number of the block that it expects (document 02, P6; 2^32 for none, behind the last number of 32
// bits), the shape of the joint that it ends with (P7), a number, since a caller may forge one, and a tail of M whole numbers. Storage from M on is zero when fresh, and kept.
#[derive(Clone, Copy)]
pub struct Stream {
    pub n: usize,
    pub expected: u64,
    pub shape: u32,
    pub tail: [i64; STORAGE],
}

pub fn fresh(n: usize) -> Stream
    ensures { result ≡ fresh n }
{
    Stream {
        n: n,
        expected: 0,
        shape: 0,
        tail: [0; STORAGE],
    }
}

// One sample of a hop.
fn sample(n: usize, tail: i64, v: i64) -> i16
    requires splits { T (splits n) }
    requires n_bound { n ≤ 2 * storage }
    requires tail_bound { nat_abs tail ≤ n / 2 * 2 ^ 55 }
    requires v_bound { nat_abs v ≤ n / 2 * 2 ^ 55 }
    ensures { result ≡ clamp (rnd (tail +ℤ v) (n * 2 ^ 30)) }
{
    arithmetic::sample(tail + v, n)
}

// The hop: M samples, from the tail and the first half of V.
fn fill_hop(n: usize, tail: &[i64], v: &[i64], out: &mut [i16])
    requires splits { T (splits n) }
    requires n_bound { n ≤ 2 * storage }
    requires tail_held { Held (n / 2) tail.now }
    requires v_held { Held (n / 2) v.now }
    requires out_len { length out.old ≡ n / 2 }
    ensures { out.new ≡ table (n / 2) (λ i. clamp (rnd (at tail.now i +ℤ at v.now i) (n * 2 ^ 30))) }
{
    // by index, up to n / 2: where n is known, the compiler knows this count, and no slice's
    for i in 0..n / 2 {
        out[i] = sample(n, tail[i], v[i]);
    }
}

// The new tail, in place: the second half of V, and the storage beyond it as it was.
fn shift(m: usize, v: &[i64], tail: &mut [i64])
    requires m_le_storage { m ≤ storage }
    requires v_room { 2 * m ≤ length v.now }
    requires tail_room { m ≤ length tail.old }
    ensures { tail.new ≡ table m (λ i. at v.now (m + i)) ++ drop m tail.old }
{
    tail[..m].copy_from_slice(&v[m..2 * m]);
}

// A step from V, of the coefficients x of a block with joints of these shapes: the hop into `out`, and the new tail in place.
pub fn settle(n: usize, joints: Joints, x: &[i32], v: &[i64], tail: &mut [i64], out: &mut [i16])
    requires step { Step n x.now tail.old out.old }
    requires v_value { v.now ≡ table n (V' n (rising joints.left n) (falling joints.right n) x.now) }
    ensures tail_after { tail.new ≡ new_tail n (rising joints.left n) (falling joints.right n) tail.old x.now }
    ensures out_after { out.new ≡ hop n (rising joints.left n) (falling joints.right n) tail.old x.now }
{
    fill_hop(n, tail, v, out);
    shift(n / 2, v, tail);
}
