// The parts of N/3 that a split makes: the sums of a part from its inputs, folded to half their number.
ghost use Rattle.std.specs.Prelude.{◌≡◌, ◌+◌, ◌*◌, ◌/◌, ◌^◌, ◌≤◌, ◌<◌, length};
ghost use Rattle.arithmetic.specs.Rounding.{floor};
ghost use Rattle.arithmetic.specs.Lists.{at, table, Small};
ghost use Rattle.transform.specs.FoldLaws.{folded};
ghost use Rattle.level.specs.Places.{sum_at, twice};
ghost use Rattle.split.specs.PartLaws.{Third, summed};

use level::WideSumming;

// Place j of the inputs w, folded to half their number.
fn folded_at(w: &[i32], j: usize) -> i32
    requires w_by_four { 4 * (length w.now / 4) ≡ length w.now }
    requires j_in_bounds { j < length w.now / 2 }
    requires small { Small w.now (2 ^ 28) }
    ensures { result ≡ folded (length w.now) (at w.now) j }
{
    let h = w.len() / 4;
    if j < h {
        -w[3 * h - 1 - j] - w[3 * h + j]
    } else {
        w[j - h] - w[3 * h - 1 - j]
    }
}

#[inline(always)]
fn fold(w: &[i32], z: &mut [i32])
    requires w_by_four { 4 * (length w.now / 4) ≡ length w.now }
    requires z_len { 2 * length z.old ≡ length w.now }
    requires small { Small w.now (2 ^ 28) }
    ensures { z.new ≡ table (length z.old) (folded (length w.now) (at w.now)) }
{
    for (j, place) in z.iter_mut().enumerate() {
        *place = folded_at(w, j);
    }
}

// A doubled sum's half.
fn half(sum: i64) -> i64
    ensures { result ≡ floor sum 2 }
{
    sum >> 1
}

// Sums, from what they are doubled.
#[inline(always)]
fn halve<const Q: usize>(twice: &[i64; Q], t: &mut [i64])
    requires t_len { length t.old ≡ Q }
    ensures { t.new ≡ table Q (λ k. floor (at twice.now k) 2) }
{
    for (k, &sum) in twice.iter().enumerate() {
        t[k] = half(sum);
    }
}

// The sums of one of the three parts of y, w being its inputs. The part is named by its number, 0, 1 or 2, and n is the number of y's inputs.
#[inline(always)]
pub fn third_sums<const Q: usize, B: WideSumming<Q>>(
    n: usize,
    which: usize,
    y: &[i32],
    w: &[i32],
    t: &mut [i64],
)
    requires third { Third which n y.now w.now }
    requires count { Q ≡ n / 6 }
    requires t_len { length t.old ≡ Q }
    ensures { t.new ≡ summed which n y.now }
{
    let mut z = [0i32; Q];
    let mut s = [0i64; Q];
    fold(w, &mut z);
    B::wide_sums(&z, &mut s);
    halve(&s, t);
}
