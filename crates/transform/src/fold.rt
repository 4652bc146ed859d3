// The windowed block, folded to half its length. A hop has m samples, an even number, and the block 2 m.
ghost use Rattle.std.specs.Prelude.{◌≡◌, ◌+◌, ◌-◌, ◌*◌, ◌/◌, ◌^◌, ◌≤◌, ◌<◌, length, pos, neg_ℤ, nat_abs, ◌-ℤ◌, ◌*ℤ◌, ◌≤ℤ◌};
ghost use Rattle.arithmetic.specs.Rounding.{rnd};
ghost use Rattle.arithmetic.specs.Lists.{table, Small};
ghost use Rattle.transform.specs.HopLaws.{windowed, hops};
ghost use Rattle.windows.specs.HalfLaws.{WindowHalf, Halves};

// rnd(w x / 2^18). To 2^16 times the product x itself is added, which is smaller than 2^16: so it decides at an exact half, and nowhere else.
fn weighted(w: i32, x: i16) -> i32
    requires w_not_negative { pos 0 ≤ℤ w }
    requires w_bound { nat_abs w ≤ 2 ^ 26 }
    ensures value { result ≡ rnd (w *ℤ x) (2 ^ 18) }
    ensures result_bound { nat_abs result ≤ 2 ^ 23 }
{
    ((w as i64 * 65536 + 1) * x as i64 + 8589934592 >> 34) as i32
}

// Sample n, windowed by entry i of a half of the joint.
pub fn windowed(half: &[i32], i: usize, x: &[i16], n: usize) -> i32
    requires window_half { WindowHalf half.now }
    requires i_in_bounds { i < length half.now }
    requires n_in_bounds { n < length x.now }
    ensures value { result ≡ windowed half.now i x.now n }
    ensures result_bound { nat_abs result ≤ 2 ^ 23 }
{
    weighted(half[i], x[n])
}

// The sign of the mirrored half of the first hop.
const MIRRORED: i32 = -1;

// Two places of the first hop: a sample less its mirrored one.
fn difference(rise: &[i32], x: &[i16], a: usize, b: usize) -> i32
    requires window_half { WindowHalf rise.now }
    requires rise_in_bounds { length rise.now ≤ length x.now }
    requires a_in_bounds { a < length rise.now }
    requires b_in_bounds { b < length rise.now }
    ensures value { result ≡ windowed rise.now a x.now a -ℤ windowed rise.now b x.now b }
    ensures result_bound { nat_abs result ≤ 2 ^ 24 }
{
    windowed(rise, a, x, a) + MIRRORED * windowed(rise, b, x, b)
}

// Two places of the second hop, which starts at m: a sample and its mirrored one, both with the sign changed.
fn negated_sum(fall: &[i32], x: &[i16], m: usize, a: usize, b: usize) -> i32
    requires window_half { WindowHalf fall.now }
    requires fall_in_bounds { m + length fall.now ≤ length x.now }
    requires a_in_bounds { a < length fall.now }
    requires b_in_bounds { b < length fall.now }
    ensures value { result ≡ neg_ℤ (windowed fall.now a x.now (m + a)) -ℤ windowed fall.now b x.now (m + b) }
    ensures result_bound { nat_abs result ≤ 2 ^ 24 }
{
    -windowed(fall, a, x, m + a) - windowed(fall, b, x, m + b)
}

// Place j of the folded block.
fn folded_at(rise: &[i32], fall: &[i32], x: &[i16], m: usize, j: usize) -> i32
    requires halves { Halves m rise.now fall.now }
    requires x_len { length x.now ≡ 2 * m }
    requires m_even { 2 * (m / 2) ≡ m }
    requires j_lt_m { j < m }
    ensures value { result ≡ hops m rise.now fall.now x.now j }
    ensures result_bound { nat_abs result ≤ 2 ^ 24 }
{
    let h = m / 2;
    if j < h {
        negated_sum(fall, x, m, h - 1 - j, h + j)
    } else {
        difference(rise, x, j - h, 3 * h - 1 - j)
    }
}

pub fn fold(rise: &[i32], fall: &[i32], x: &[i16], z: &mut [i32])
    requires halves { Halves (length z.old) rise.now fall.now }
    requires x_len { length x.now ≡ 2 * length z.old }
    requires z_even { 2 * (length z.old / 2) ≡ length z.old }
    ensures z_after { z.new ≡ table (length z.old) (hops (length z.old) rise.now fall.now x.now) }
    ensures small { Small z.new (2 ^ 24) }
{
    let m = z.len();
    for (j, place) in z.iter_mut().enumerate() {
        *place = folded_at(rise, fall, x, m, j);
    }
}
