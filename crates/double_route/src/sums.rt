// The sums of three last parts, and those of a part from the sums of its three.
ghost use Rattle.std.specs.Prelude.{◌≡◌, ◌-◌, ◌*◌, ◌/◌, ◌^◌, ◌≤◌, ◌<◌, length, pos, nat_abs, ◌+ℤ◌, ◌-ℤ◌, ◌*ℤ◌};
ghost use Rattle.arithmetic.specs.Rounding.{rnd};
ghost use Rattle.arithmetic.specs.Lists.{at, table, Small};
ghost use Rattle.double_route.specs.Double.{joined, scaled};
ghost use Rattle.double_route.specs.PieceLaws.{Piece};
ghost use Rattle.double_route.specs.StepLaws.{Thirds, Ended};

use crate::thirds;
use blocks::{Block2, Block4};
use level::WideSumming;
use split::{Turns, parts};

// B(k) + D(k), 2 A(k) and B(k) - D(k), with D(k) = G(h-1-k), h being the number of sums of each part.
fn first_at(b: &[i64], g: &[i64], k: usize) -> i64
    requires g_len { length g.now ≡ length b.now }
    requires k_in_bounds { k < length b.now }
    requires b_small { Small b.now (2 ^ 61) }
    requires g_small { Small g.now (2 ^ 61) }
    ensures { result ≡ at b.now k +ℤ at g.now (length b.now - 1 - k) }
{
    b[k] + g[b.len() - 1 - k]
}

fn middle_at(a: &[i64], k: usize) -> i64
    requires k_in_bounds { k < length a.now }
    requires small { Small a.now (2 ^ 61) }
    ensures { result ≡ pos 2 *ℤ at a.now k }
{
    2 * a[k]
}

fn last_at(b: &[i64], g: &[i64], k: usize) -> i64
    requires g_len { length g.now ≡ length b.now }
    requires k_in_bounds { k < length b.now }
    requires b_small { Small b.now (2 ^ 61) }
    requires g_small { Small g.now (2 ^ 61) }
    ensures { result ≡ at b.now k -ℤ at g.now (length b.now - 1 - k) }
{
    b[k] - g[b.len() - 1 - k]
}

// The sums of a part from those of its three.
pub fn join(a: &[i64], b: &[i64], g: &[i64], out: &mut [i64])
    requires b_len { length b.now ≡ length a.now }
    requires g_len { length g.now ≡ length a.now }
    requires out_len { length out.old ≡ 3 * length a.now }
    requires a_small { Small a.now (2 ^ 61) }
    requires b_small { Small b.now (2 ^ 61) }
    requires g_small { Small g.now (2 ^ 61) }
    ensures { out.new ≡ table (3 * length a.now) (joined (6 * length a.now) (at a.now) (at b.now) (at g.now)) }
{
    // by index: a walk over three places at a time would leave nothing known of them (`iter_mut` under an adapter)
    for k in 0..a.len() {
        out[3 * k] = first_at(b, g, k);
        out[3 * k + 1] = middle_at(a, k);
        out[3 * k + 2] = last_at(b, g, k);
    }
}

// The same of three last parts of y, which has n inputs.
fn join_last(n: usize, y: &[i32], a: &[i64], b: &[i64], g: &[i64], out: &mut [i64])
    requires n_bound { n < 36 }
    requires ended { Ended n y.now a.now b.now g.now }
    requires out_len { length out.old ≡ n / 2 }
    ensures { out.new ≡ table (n / 2) (scaled n (at y.now)) }
{
    join(a, b, g, out);
}

// The sums of three last parts of T inputs each, Q of each, and those of their part of N.
#[inline(always)]
fn last_of<const N: usize, const T: usize, const Q: usize, B: WideSumming<Q>>(
    turns: Turns<N, T>,
    y: &[i32],
    out: &mut [i64],
)
    requires parts { (T ≡ N / 3) × (Q ≡ N / 6) × (N < 36) }
    requires piece { Piece N y.now }
    requires out_len { length out.old ≡ N / 2 }
    ensures { out.new ≡ table (N / 2) (scaled N (at y.now)) }
{
    let mut wa = [0i32; T];
    let mut wb = [0i32; T];
    let mut wg = [0i32; T];
    let mut a = [0i64; Q];
    let mut b = [0i64; Q];
    let mut g = [0i64; Q];
    thirds::thirds_of::<N, T>(turns, y, &mut wa, &mut wb, &mut wg);
    parts::third_sums::<Q, B>(N, 0, y, &wa, &mut a);
    parts::third_sums::<Q, B>(N, 1, y, &wb, &mut b);
    parts::third_sums::<Q, B>(N, 2, y, &wg, &mut g);
    join_last(N, y, &a, &b, &g, out);
}

// The sums of a part whose thirds are the last, by its length.
pub fn last(y: &[i32], out: &mut [i64])
    requires piece { Piece (length y.now) y.now }
    requires y_len_bound { length y.now < 36 }
    requires out_len { length out.old ≡ length y.now / 2 }
    ensures { out.new ≡ table (length y.now / 2) (scaled (length y.now) (at y.now)) }
{
    let n = y.len();
    // Which of the lengths: `if` and not `match`, whose last arm is told nothing of the numbers left out.
    if n == 24 {
        last_of::<24, 8, 4, Block4>(split::turns_24(), y, out);
        return;
    }
    if n == 12 {
        last_of::<12, 4, 2, Block2>(split::turns_12(), y, out);
    }
}
