// The rounded sums of an analysis: of direct analysis, which are doubled, of the short route and of the double route. Each divides by a power of two of its own.
ghost use Rattle.std.specs.Prelude.{◌≡◌, ◌+◌, ◌*◌, ◌^◌, ◌≤◌, length, nat_abs};
ghost use Rattle.arithmetic.specs.Rounding.{rnd};
ghost use Rattle.arithmetic.specs.Lists.{at, table, Small};

// A coefficient from its sum, divided by 2^k.
pub fn coefficient(sum: i64, k: u32) -> i32
    requires least { 28 ≤ k }
    requires most { k ≤ 30 }
    requires small { nat_abs sum ≤ 9 * 2 ^ (k + 27) }
    ensures { result ≡ rnd sum (2 ^ k) }
{
    arithmetic::rnd_shift(sum, k) as i32
}

// The coefficients from their sums, each divided by 2^k.
#[inline(always)]
pub fn spectrum(t: &[i64], k: u32, out: &mut [i32])
    requires out_len { length out.old ≡ length t.now }
    requires least { 28 ≤ k }
    requires most { k ≤ 30 }
    requires small { Small t.now (9 * 2 ^ (k + 27)) }
    ensures { out.new ≡ table (length t.now) (λ i. rnd (at t.now i) (2 ^ k)) }
{
    for (i, &sum) in t.iter().enumerate() {
        out[i] = coefficient(sum, k);
    }
}
