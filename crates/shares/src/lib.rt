// Which coefficient moved a sample: shares of two blocks compared exactly (document 02, P9).
// No function here is a public call: the calls on shares call `largest_share`, after every check.
#![tactic(auto)]

mod words;

ghost use Rattle.std.specs.Prelude.{◌≡◌, ◌*◌, ◌/◌, ◌^◌, ◌≤◌, ◌<◌, T, length};
ghost use Rattle.arithmetic.specs.Lists.{Small};
ghost use Rattle.cosine.specs.Kernels.{tabled};
ghost use Rattle.cosine.specs.TableLaws.{numbers};
ghost use Rattle.shares.specs.Shares.{named_by, largest_share};
ghost use Rattle.shares.specs.Products.{change_times, largest_in, named_of};

use words::smaller;

// A block and a coefficient of it. Of two blocks the earlier is 0 and the later 1.
#[derive(Clone, Copy, Debug, PartialEq, Eq)]
pub struct Share {
    pub block: u32,
    pub coefficient: u32,
}

// A coefficient of a block, and the size of its change times that of K, which decides within the block: W is the same for all of it.
#[derive(Clone, Copy)]
pub struct Largest {
    pub coefficient: usize,
    pub product: u64,
}

// The size of the change of coefficient k times that of K(i,k).
#[tactic(auto, using(crate::specs::ProductLaws::change_le), unfolding(crate::specs::Products::change_times))]
fn change_times(cos: &[i32; 217], n: usize, i: usize, x: &[i32], y: &[i32], k: usize) -> u64
    requires ready { (cos.now ≡ numbers) × T (tabled n) × (i < n) × (k < n / 2) }
    requires x_len { (length x.now ≡ n / 2) × (length y.now ≡ n / 2) × Small x.now (2 ^ 29) × Small y.now (2 ^ 29) }
    ensures { (result ≡ change_times n i x.now y.now k) × (result ≤ 2 ^ 56) }
{
    y[k].abs_diff(x[k]) as u64 * cosine::kernel(cos, n, i, k).unsigned_abs()
}

// The largest of a block at its place i, the lowest coefficient of equal ones.
fn largest_in(cos: &[i32; 217], n: usize, i: usize, x: &[i32], y: &[i32]) -> Largest
    requires ready { (cos.now ≡ numbers) × T (tabled n) × (i < n) }
    requires x_len { (length x.now ≡ n / 2) × (length y.now ≡ n / 2) × Small x.now (2 ^ 29) × Small y.now (2 ^ 29) }
    ensures { (result ≡ largest_in (n / 2) (change_times n i x.now y.now)) × (result.product ≤ 2 ^ 56) × (result.coefficient < n / 2) }
{
    let mut best = 0;
    let mut most = change_times(cos, n, i, x, y, 0);
    // By number: K is of the coefficient's number too.
    for k in 0..n / 2 {
        let s = change_times(cos, n, i, x, y, k);
        if most < s {
            best = k;
            most = s;
        }
    }
    Largest {
        coefficient: best,
        product: most,
    }
}

// The larger of the two blocks' largest, each times its W; the earlier block on equal ones, and none where both are zero.
#[tactic(auto, unfolding(crate::specs::Products::named_of))]
fn larger_of_two(a: Largest, v: u64, b: Largest, w: u64) -> Option<Share>
    requires product_bound { (a.product ≤ 2 ^ 56) × (v ≤ 2 ^ 26) × (b.product ≤ 2 ^ 56) × (w ≤ 2 ^ 26) }
    requires coefficient_bound { (a.coefficient < 108) × (b.coefficient < 108) }
    ensures { named_by result ≡ named_of a v b w }
{
    if smaller(a.product, v, b.product, w) {
        Some(Share {
            block: 1,
            coefficient: b.coefficient as u32,
        })
    } else if a.product == 0 || v == 0 {
        None
    } else {
        Some(Share {
            block: 0,
            coefficient: a.coefficient as u32,
        })
    }
}

// The block and the coefficient with the largest share of what moved a sample: at this place of the hop that two blocks cover, with a joint of this shape between them. None where every share is zero.
// Four slices and a shape by its number, as the definition takes them: `share_calls`, above, has the pairs.
pub fn largest_share(
    n: usize,
    shape: u32,
    first: &[i32],
    first_changed: &[i32],
    second: &[i32],
    second_changed: &[i32],
    place: usize,
) -> Option<Share>
    requires tabled { T (tabled n) × (place < n / 2) }
    requires lengths { (length first.now ≡ n / 2) × (length first_changed.now ≡ n / 2) × (length second.now ≡ n / 2) × (length second_changed.now ≡ n / 2) }
    requires small { Small first.now (2 ^ 29) × Small first_changed.now (2 ^ 29) × Small second.now (2 ^ 29) × Small second_changed.now (2 ^ 29) }
    ensures { named_by result ≡ largest_share n shape place first.now first_changed.now second.now second_changed.now }
{
    let cos = cosine::quarter_turn();
    let a = largest_in(&cos, n, n / 2 + place, first, first_changed);
    let b = largest_in(&cos, n, place, second, second_changed);
    let v = cosine::falling(&cos, shape, n, place);
    let w = cosine::rising(&cos, shape, n, place);
    larger_of_two(a, v as u64, b, w as u64)
}
