// The inverse: V from the M sums of a block's coefficients. A hop has m samples, an even number, and the block 2 m.
ghost use Rattle.std.specs.Prelude.{◌≡◌, ◌+◌, ◌*◌, ◌/◌, ◌^◌, ◌≤◌, ◌<◌, length, neg_ℤ, nat_abs, ◌*ℤ◌};
ghost use Rattle.arithmetic.specs.Rounding.{rnd};
ghost use Rattle.arithmetic.specs.Lists.{at, table, Small};
ghost use Rattle.transform.specs.InverseLaws.{value_at};
ghost use Rattle.windows.specs.HalfLaws.{Halves};

// The doubled sums, rounded in place: U at M places. Each serves two places, since a sum with its sign changed rounds to the same with its sign changed.
#[inline(always)]
pub fn round_doubled(t: &mut [i64])
    requires { Small t.old (108 * 2 ^ 56) }
    ensures { t.new ≡ table (length t.old) (λ j. rnd (at t.old j) (2 ^ 27)) }
{
    for sum in t.iter_mut() {
        *sum = arithmetic::rnd_shift(*sum, 27);
    }
}

// A number of the window times a rounded sum.
fn weighted(w: i32, u: i64) -> i64
    requires w_bound { nat_abs w ≤ 2 ^ 26 }
    requires u_bound { nat_abs u ≤ 2 ^ 36 }
    ensures { result ≡ w *ℤ u }
{
    w as i64 * u
}

// The same with the sign changed.
fn weighted_negated(w: i32, u: i64) -> i64
    requires w_bound { nat_abs w ≤ 2 ^ 26 }
    requires u_bound { nat_abs u ≤ 2 ^ 36 }
    ensures { result ≡ w *ℤ neg_ℤ u }
{
    weighted(w, -u)
}

// V at place n, from the rounded sums.
fn value(rise: &[i32], fall: &[i32], t: &[i64], n: usize) -> i64
    requires halves { Halves (length t.now) rise.now fall.now }
    requires t_even { 2 * (length t.now / 2) ≡ length t.now }
    requires n_bound { n < 2 * length t.now }
    requires small { Small t.now (2 ^ 36) }
    ensures { result ≡ value_at rise.now fall.now t.now n }
{
    let m = t.len();
    let h = m / 2;
    if n < h {
        return weighted(rise[n], t[h + n]);
    }
    if n < m {
        return weighted_negated(rise[n], t[3 * h - 1 - n]);
    }
    if n < 3 * h {
        return weighted_negated(fall[n - m], t[3 * h - 1 - n]);
    }
    weighted_negated(fall[n - m], t[n - 3 * h])
}

#[inline(always)]
pub fn values(rise: &[i32], fall: &[i32], t: &[i64], v: &mut [i64])
    requires halves { Halves (length t.now) rise.now fall.now }
    requires v_len { length v.old ≡ 2 * length t.now }
    requires t_even { 2 * (length t.now / 2) ≡ length t.now }
    requires small { Small t.now (2 ^ 36) }
    ensures { v.new ≡ table (length v.old) (value_at rise.now fall.now t.now) }
{
    for (n, place) in v.iter_mut().enumerate() {
        *place = value(rise, fall, t, n);
    }
}
