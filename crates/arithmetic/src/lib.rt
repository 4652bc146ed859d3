// Rounding and clamping of signed sums. The laws of whole numbers that every other crate cites are in specs/.
// No function here is a public call: `transform`, `split`, `stream`, `text` and `steps` call them, each under its requires.
#![tactic(auto)]

ghost use Rattle.std.specs.Prelude.{◌≡◌, ◌+◌, ◌-◌, ◌≤◌, ◌<◌, ◌*◌, ◌/◌, ◌^◌, T, pos, neg_ℤ, nat_abs, ◌≤ℤ◌, ◌<ℤ◌};
ghost use Rattle.std.specs.Int.Signed.{shr_z};
ghost use Rattle.std.specs.Int.{w64};
ghost use Rattle.std.proofs.Common.{SFits};
ghost use Rattle.arithmetic.specs.Rounding.{floor, rnd, clamp};
ghost use Rattle.arithmetic.specs.RoundingLaws.{under};
ghost use Rattle.arithmetic.specs.QuotientLaws.{quarters, splits};

// The floor of a / 2^k, which fits.
fn shifted(a: i64, k: u32) -> i64
    requires { (k < 64) × SFits w64 (shr_z a (2 ^ k)) }
    ensures { result ≡ shr_z a (2 ^ k) }
{
    a >> k
}

// What is added to a number before it is rounded, so that an exact half goes away from zero: -1 below zero, and 0 else. The shift leaves only the sign.
#[tactic(auto, using(crate::specs::RoundingLaws::under_shr))]
fn tilt(a: i64) -> i64
    ensures { result ≡ under a }
{
    a >> 63
}

// rnd(a / 2^k): the half is added to a, tilted, and the shift takes the floor. The requires leaves room for the half, which a of at most 2^62 has for every k (`room_for_half`).
pub fn rnd_shift(a: i64, k: u32) -> i64
    requires { (2 ≤ k) × (k < 63) × (nat_abs a + 2 ^ (k - 1) < 2 ^ 63) }
    ensures { result ≡ rnd a (2 ^ k) }
{
    shifted(a + tilt(a) + (1i64 << (k - 1)), k)
}

// The next whole number above 2^32 / m, for m = 3, 9, 27 or twice one of them.
#[tactic(auto, using(crate::specs::QuotientLaws::quarter_laws))]
fn reciprocal(m: usize) -> u64
    requires { T (quarters m) }
    ensures { result ≡ 2 ^ 32 / m + 1 }
{
    if m == 3 {
        1431655766
    } else if m == 6 {
        715827883
    } else if m == 9 {
        477218589
    } else if m == 18 {
        238609295
    } else if m == 27 {
        159072863
    } else {
        79536432
    }
}

// r / m, for the numbers of which it is below 65,536: by a multiplication, and a division by 2^32.
#[tactic(auto, using(crate::specs::QuotientLaws::over_is))]
fn over(r: u32, m: usize) -> u32
    requires { T (quarters m) × (r < 65536 * m) }
    ensures { result ≡ r / m }
{
    (r as u64 * reciprocal(m) / 4294967296) as u32
}

// The floor of c / m where it is a sample: c is raised to a number without a sign, and the quotient lowered by as much.
fn quotient(c: i32, m: usize) -> i16
    requires { T (quarters m) × (neg_ℤ (pos (32768 * m)) ≤ℤ c) × (c <ℤ pos (32768 * m)) }
    ensures { result ≡ floor c m }
{
    let raised = c + (32768 * m) as i32;
    let d = over(raised as u32, m);
    (d as i32 - 32768) as i16
}

// The floor of b / m, clamped: b is first limited to the numbers whose floor is a sample.
fn clamped(b: i32, m: usize) -> i16
    requires { T (quarters m) }
    ensures { result ≡ clamp (floor b m) }
{
    let edge = (32768 * m) as i32;
    quotient(b.clamp(-edge, edge - 1), m)
}

// The floor of a / 2^32: its upper word.
#[tactic(auto, using(crate::specs::RoundingLaws::floor_shr))]
fn upper(a: i64) -> i32
    ensures { result ≡ floor a (2 ^ 32) }
{
    (a >> 32) as i32
}

// A sample of a hop: rnd(a / (n × 2^30)), clamped. The half is added to a, tilted, the upper word taken, and what is left to divide by is a quarter of n.
pub fn sample(a: i64, n: usize) -> i16
    requires splits { T (splits n) }
    requires a_bound { nat_abs a ≤ n * 2 ^ 55 }
    ensures { result ≡ clamp (rnd a (n * 2 ^ 30)) }
{
    clamped(upper(a + tilt(a) + (536870912 * n) as i64), n / 4)
}

// The size of v: its number without its sign. The least i64 has one too.
pub fn size(v: i64) -> u64
    ensures { result ≡ nat_abs v }
{
    v.unsigned_abs()
}
