// The short route's first step and its last: the windowed block, and the coefficients from the three sums of the split.
ghost use Rattle.std.specs.Prelude.{◌≡◌, ◌*◌, ◌^◌, ◌≤◌, ◌<◌, length, pos, nat_abs, ◌*ℤ◌, ◌≤ℤ◌};
ghost use Rattle.arithmetic.specs.Rounding.{rnd};
ghost use Rattle.arithmetic.specs.RoundingLaws.{under};
ghost use Rattle.arithmetic.specs.Lists.{table, Small};
ghost use Rattle.transform.specs.HopLaws.{windowed};
ghost use Rattle.split.specs.ShortStepLaws.{interleaved};
ghost use Rattle.windows.specs.HalfLaws.{WindowHalf};
ghost use Rattle.split.specs.WindowLaws.{weighted};

use transform::rounding::coefficient;

// A sample's tilt, as `arithmetic` has it of a sum.
fn tilt(x: i16) -> i32
    ensures { result ≡ under x }
{
    x as i32 >> 31
}

// rnd(w x / 2^18) in 32 bits: with w = 2^13 hi + lo it is the floor of (hi x + floor((lo x + s) / 2^13) + 2^4) / 2^5, s being the tilt.
// The remainders tell the compiler that hi and lo have 16 bits: SSE2 multiplies such numbers in one step.
fn weighted(w: i32, x: i16) -> i32
    requires w_not_negative { pos 0 ≤ℤ w }
    requires w_bound { nat_abs w ≤ 2 ^ 26 }
    ensures value { result ≡ rnd (w *ℤ x) (2 ^ 18) }
    ensures result_bound { nat_abs result ≤ 2 ^ 23 }
{
    let a = x as i32;
    let u = w as u32;
    let hi = (u / 8192 % 16384) as i32;
    let lo = (u % 8192) as i32;
    (a * hi + (a * lo + tilt(x) >> 13) + 16) >> 5
}

// Sample n, windowed by entry i of a half of the joint, so.
fn in_parts(half: &[i32], i: usize, x: &[i16], n: usize) -> i32
    requires window_half { WindowHalf half.now }
    requires i_in_bounds { i < length half.now }
    requires n_in_bounds { n < length x.now }
    ensures value { result ≡ windowed half.now i x.now n }
    ensures result_bound { nat_abs result ≤ 2 ^ 23 }
{
    weighted(half[i], x[n])
}

// The same, in a block of `size`.
fn windowed(size: usize, half: &[i32], i: usize, x: &[i16], n: usize) -> i32
    requires window_half { WindowHalf half.now }
    requires i_in_bounds { i < length half.now }
    requires n_in_bounds { n < length x.now }
    ensures value { result ≡ windowed half.now i x.now n }
    ensures result_bound { nat_abs result ≤ 2 ^ 23 }
{
    if size < crate::LONG {
        return transform::fold::windowed(half, i, x, n);
    }
    in_parts(half, i, x, n)
}

// One hop, by its half of the window.
fn window_hop(size: usize, half: &[i32], x: &[i16], out: &mut [i32])
    requires window_half { WindowHalf half.now }
    requires x_len { length x.now ≡ length half.now }
    requires out_len { length out.old ≡ length half.now }
    ensures out_after { out.new ≡ table (length half.now) (λ n. windowed half.now n x.now n) }
    ensures small { Small out.new (2 ^ 23) }
{
    for (n, place) in out.iter_mut().enumerate() {
        *place = windowed(size, half, n, x, n);
    }
}

// y(0) .. y(N-1): the first hop by the rising half, the second by the falling half.
pub fn windowed_block(size: usize, rise: &[i32], fall: &[i32], x: &[i16], out: &mut [i32])
    requires rise_len { length rise.now ≡ length fall.now }
    requires x_len { length x.now ≡ 2 * length rise.now }
    requires out_len { length out.old ≡ length x.now }
    requires rise_half { WindowHalf rise.now }
    requires fall_half { WindowHalf fall.now }
    ensures out_after { out.new ≡ weighted rise.now fall.now x.now }
    ensures small { Small out.new (2 ^ 23) }
{
    let m = rise.len();
    window_hop(size, rise, &x[..m], &mut out[..m]);
    window_hop(size, fall, &x[m..], &mut out[m..]);
}

// The last step: X(3k), X(3k+1) and X(3k+2) from B(k) + D(k), A(k) and B(k) - D(k).
pub fn coefficients(a: &[i64], plus: &[i64], minus: &[i64], out: &mut [i32])
    requires plus_len { length plus.now ≡ length a.now }
    requires minus_len { length minus.now ≡ length a.now }
    requires out_len { length out.old ≡ 3 * length a.now }
    requires a_small { Small a.now (2 ^ 58) }
    requires plus_small { Small plus.now (2 ^ 58) }
    requires minus_small { Small minus.now (2 ^ 58) }
    ensures { out.new ≡ table (3 * length a.now) (interleaved a.now plus.now minus.now) }
{
    // by index: a walk over three places at a time would leave nothing known of them (`iter_mut` under an adapter)
    for k in 0..a.len() {
        out[3 * k] = coefficient(plus[k], 29);
        out[3 * k + 1] = coefficient(a[k], 28);
        out[3 * k + 2] = coefficient(minus[k], 29);
    }
}
