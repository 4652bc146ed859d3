#![tactic(auto)]
// Sums of products, one body for every count.
ghost use Rattle.std.specs.Prelude.{◌≡◌, ℕ, ◌+◌, ◌*◌, ◌^◌, ◌<◌, ◌≤◌, length, nat_abs};
ghost use Rattle.arithmetic.specs.Lists.{at, table, Small};
ghost use Rattle.inner_products.specs.Products.{products, SmallRows, row};

// The sum of the products of z and a row of a kernel.
#[inline(always)]
pub fn product_sum<const M: usize>(z: &[i32; M], kernel: &[i32; M]) -> i64
    requires few { M ≤ 36 }
    requires small { Small z.now (2 ^ 30) }
    requires kernel_small { Small kernel.now (2 ^ 27) }
    ensures value { result ≡ products M z.now kernel.now }
    ensures size { nat_abs result ≤ M * 2 ^ 57 }
{
    let mut sum: i64 = 0;
    // by index: of `zip` the compiler makes no shorter a loop, and a proof goes by the sum of the first j products
    for j in 0..M {
        sum += z[j] as i64 * kernel[j] as i64;
    }
    sum
}

// One sum for each row.
#[inline(always)]
pub fn product_sums<const M: usize>(z: &[i32; M], kernel: &[[i32; M]; M], t: &mut [i64; M])
    requires few { M ≤ 36 }
    requires small { Small z.now (2 ^ 30) }
    requires kernel_small { SmallRows kernel.now (2 ^ 27) }
    ensures { t.new ≡ table M (λ k. products M z.now (row kernel.now k)) }
{
    for (k, sum) in t.iter_mut().enumerate() {
        *sum = product_sum(z, &kernel[k]);
    }
}
