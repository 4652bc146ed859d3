#![tactic(auto)]
// The sums of a block by pairs of places, one body for every length.
ghost use Rattle.std.specs.Prelude.{◌≡◌, List, ℕ, ◌+◌, ◌-◌, ◌*◌, ◌/◌, ◌%◌, ◌^◌, ◌<◌, ◌≤◌, length, pos, ◌+ℤ◌, ◌-ℤ◌, ◌*ℤ◌, nat_abs};
ghost use Rattle.arithmetic.specs.Rounding.{floor};
ghost use Rattle.arithmetic.specs.Lists.{at, table, Small};
ghost use Rattle.inner_products.specs.Products.{products, SmallRows, row};
ghost use Rattle.level.specs.Places.{spot, signed_at, sum_at, twice};
ghost use Rattle.level.specs.Levels.{place_at, IsLevel, AreSpots, doubled_of, three_to_one, joined_at, Joinable, low_part, IsJoin};

use inner_products::{product_sum, product_sums};

// The pairs of a block's places, and the kernels of their sums and differences. A place is its number, with 128 added where what lies there is turned.
pub struct Level<const H: usize> {
    pub near: [u8; H],
    pub far: [u8; H],
    pub plus: [[i32; H]; H],
    pub minus: [[i32; H]; H],
}

// The number at a place.
#[inline(always)]
fn signed<const M: usize>(z: &[i32; M], place: u8) -> i32
    requires place { spot place < M }
    requires small { Small z.now (2 ^ 29) }
    ensures { result ≡ signed_at z.now place }
{
    let at = if place < 128 { place } else { place - 128 };
    let x = z[at as usize];
    if place < 128 { x } else { -x }
}

// The sum and the difference of each pair.
#[inline(always)]
fn gather<const M: usize, const H: usize>(
    z: &[i32; M],
    near: &[u8; H],
    far: &[u8; H],
    a: &mut [i32; H],
    b: &mut [i32; H],
)
    requires near { AreSpots M near.now }
    requires far { AreSpots M far.now }
    requires small { Small z.now (2 ^ 29) }
    ensures sums { a.new ≡ table H (λ i. signed_at z.now (place_at near.now i) +ℤ signed_at z.now (place_at far.now i)) }
    ensures differences { b.new ≡ table H (λ i. signed_at z.now (place_at near.now i) -ℤ signed_at z.now (place_at far.now i)) }
{
    for (i, &place) in near.iter().enumerate() {
        let x = signed(z, place);
        let y = signed(z, far[i]);
        a[i] = x + y;
        b[i] = x - y;
    }
}

// Sums of products beside those of the third.
#[inline(always)]
fn add_products<const H: usize, const L: usize>(
    a: &[i32; H],
    kernel: &[[i32; H]; H],
    third: &[i64; L],
    out: &mut [i64; H],
)
    requires few { H ≤ 36 }
    requires some { 0 < L }
    requires small { Small a.now (2 ^ 30) }
    requires kernel_small { SmallRows kernel.now (2 ^ 27) }
    requires third_small { Small third.now (36 * 2 ^ 56) }
    ensures { out.new ≡ table H (λ k. at third.now (k % L) +ℤ products H a.now (row kernel.now k)) }
{
    for (k, sum) in out.iter_mut().enumerate() {
        *sum = third[k % L] + product_sum(a, &kernel[k]);
    }
}

// Every third number.
#[inline(always)]
fn every_third<const M: usize, const H: usize>(z: &[i32; M], y: &mut [i32; H])
    requires { M ≡ H + (H + H) }
    ensures { y.new ≡ table H (λ i. at z.now (3 * i + 1)) }
{
    for (i, number) in y.iter_mut().enumerate() {
        *number = z[3 * i + 1];
    }
}

// The sums and the differences of the sums at a block's pairs of places.
pub trait Pairing<const M: usize, const H: usize> {
    ghost near: { List ℕ };

    ghost far: { List ℕ };

    fn pair_sums(z: &[i32; M], p: &mut [i64; H], m: &mut [i64; H])
        requires small { Small z.now (2 ^ 29) }
        ensures sums { p.new ≡ table H (λ k. sum_at M z.now (place_at near k) +ℤ sum_at M z.now (place_at far k)) }
        ensures differences { m.new ≡ table H (λ k. sum_at M z.now (place_at near k) -ℤ sum_at M z.now (place_at far k)) };
}

// The one body: the pairs of a block of M, from those of its third.
#[inline(always)]
pub fn by_third<const M: usize, const H: usize, const L: usize, T: Pairing<H, L>>(
    z: &[i32; M],
    level: &Level<H>,
    p: &mut [i64; H],
    m: &mut [i64; H],
)
    requires three { M ≡ H + (H + H) }
    requires some { (2 ≤ H) × (0 < L) × (L ≤ 36) }
    requires small { Small z.now (2 ^ 29) }
    requires level { IsLevel H L level.now.near level.now.far level.now.plus level.now.minus T.near T.far }
    ensures sums { p.new ≡ table H (λ k. sum_at M z.now (place_at level.now.near k) +ℤ sum_at M z.now (place_at level.now.far k)) }
    ensures differences { m.new ≡ table H (λ k. sum_at M z.now (place_at level.now.near k) -ℤ sum_at M z.now (place_at level.now.far k)) }
{
    let mut y = [0i32; H];
    let mut third_p = [0i64; L];
    let mut third_m = [0i64; L];
    every_third(z, &mut y);
    T::pair_sums(&y, &mut third_p, &mut third_m);
    let mut a = [0i32; H];
    let mut b = [0i32; H];
    gather(z, &level.near, &level.far, &mut a, &mut b);
    add_products(&a, &level.plus, &third_p, p);
    add_products(&b, &level.minus, &third_m, m);
}

// The same of a block that has no third: its places are pairs by themselves.
#[inline(always)]
pub fn by_itself<const D: usize>(
    z: &[i32; D],
    kernel: &[[i32; D]; D],
    p: &mut [i64; D],
    m: &mut [i64; D],
)
    requires some { (0 < D) × (D ≤ 36) }
    requires small { Small z.now (2 ^ 30) }
    requires kernel { kernel.now ≡ doubled_of D }
    ensures sums { p.new ≡ table D (λ k. sum_at D z.now k +ℤ sum_at D z.now k) }
    ensures differences { m.new ≡ table D (λ k. sum_at D z.now k -ℤ sum_at D z.now k) }
{
    product_sums(z, kernel, p);
    m.fill(0);
}

// ---- all sums of a block

// The sums of a block, doubled.
pub trait Summing<const M: usize> {
    fn block_sums(z: &[i32; M], t: &mut [i64; M])
        requires small { Small z.now (2 ^ 31 / M) }
        ensures { t.new ≡ twice M z.now };
}

// The same of numbers up to 2^29.
pub trait WideSumming<const M: usize> {
    fn wide_sums(z: &[i32; M], t: &mut [i64; M])
        requires small { Small z.now (2 ^ 29) }
        ensures { t.new ≡ twice M z.now };
}

// Three numbers to one.
#[inline(always)]
fn folded<const M: usize, const H: usize>(z: &[i32; M], q: usize) -> i32
    requires three { M ≡ H + (H + H) }
    requires q { q < H }
    requires small { Small z.now (2 ^ 29) }
    ensures { result ≡ three_to_one H z.now q }
{
    z[q] - z[H + (H - 1 - q)] - z[H + (H + q)]
}

// The same of a block, for the sums at every third place.
#[inline(always)]
fn fold_three<const M: usize, const H: usize>(z: &[i32; M], w: &mut [i32; H])
    requires three { M ≡ H + (H + H) }
    requires small { Small z.now (2 ^ 29) }
    ensures { w.new ≡ table H (three_to_one H z.now) }
{
    for (q, number) in w.iter_mut().enumerate() {
        *number = folded::<M, H>(z, q);
    }
}

// The sum at an index of the pairs' sums with every third's behind them.
#[inline(always)]
fn joined_sum<const H: usize>(p: &[i64; H], m: &[i64; H], s: &[i64; H], i: usize) -> i64
    requires few { H ≤ 36 }
    requires i { i < H + (H + H) }
    requires joinable { Joinable H p.now m.now }
    ensures { result ≡ joined_at H p.now m.now s.now i }
{
    if i < H {
        p[i] + m[i]
    } else if i < H + H {
        p[i - H] - m[i - H]
    } else {
        s[i - (H + H)]
    }
}

#[inline(always)]
fn line_up<const M: usize, const H: usize>(
    p: &[i64; H],
    m: &[i64; H],
    s: &[i64; H],
    u: &mut [i64; M],
)
    requires three { M ≡ H + (H + H) }
    requires few { H ≤ 36 }
    requires joinable { Joinable H p.now m.now }
    ensures { u.new ≡ table M (joined_at H p.now m.now s.now) }
{
    for (i, sum) in u.iter_mut().enumerate() {
        *sum = joined_sum(p, m, s, i);
    }
}

// The sum at a place: as `signed` is of numbers of 32 bits. A function for both would need a trait with laws of the negation of each, longer than the two.
#[inline(always)]
fn signed_sum<const M: usize>(u: &[i64; M], place: u8) -> i64
    requires place { spot place < M }
    requires small { Small u.now (108 * 2 ^ 56) }
    ensures { result ≡ signed_at u.now place }
{
    let at = if place < 128 { place } else { place - 128 };
    let x = u[at as usize];
    if place < 128 { x } else { -x }
}

// Each sum to its place.
#[inline(always)]
fn put_back<const M: usize>(u: &[i64; M], of: &[u8; M], t: &mut [i64; M])
    requires of { AreSpots M of.now }
    requires small { Small u.now (108 * 2 ^ 56) }
    ensures { t.new ≡ table M (λ j. signed_at u.now (place_at of.now j)) }
{
    for (j, sum) in t.iter_mut().enumerate() {
        *sum = signed_sum(u, of[j]);
    }
}

// The sums of a block of M, from those of its pairs and those of the block folded three to one.
#[inline(always)]
fn from_parts<const M: usize, const H: usize, P: Pairing<M, H>>(
    z: &[i32; M],
    s: &[i64; H],
    of: &[u8; M],
    t: &mut [i64; M],
)
    requires three { M ≡ H + (H + H) }
    requires some { (2 ≤ H) × (H ≤ 36) }
    requires small { Small z.now (2 ^ 29) }
    requires join { IsJoin H P.near P.far of.now }
    requires folded { s.now ≡ twice H (table H (three_to_one H z.now)) }
    ensures { t.new ≡ twice M z.now }
{
    let mut p = [0i64; H];
    let mut m = [0i64; H];
    let mut u = [0i64; M];
    P::pair_sums(z, &mut p, &mut m);
    line_up(&p, &m, s, &mut u);
    put_back(&u, of, t);
}

// The one body: all sums of a block of M, by those of a block of a third.
#[inline(always)]
pub fn all_by_third<const M: usize, const H: usize, P: Pairing<M, H>, B: Summing<H>>(
    z: &[i32; M],
    of: &[u8; M],
    t: &mut [i64; M],
)
    requires three { M ≡ H + (H + H) }
    requires some { (2 ≤ H) × (H ≤ 36) }
    requires small { Small z.now (2 ^ 31 / M) }
    requires join { IsJoin H P.near P.far of.now }
    ensures { t.new ≡ twice M z.now }
{
    let mut w = [0i32; H];
    let mut s = [0i64; H];
    fold_three(z, &mut w);
    B::block_sums(&w, &mut s);
    from_parts::<M, H, P>(z, &s, of, t);
}

// A number is 256 times its high part and its low one, which is not below zero.
#[inline(always)]
fn high(x: i32) -> i32
    ensures { result ≡ floor x 256 }
{
    x >> 8
}

#[inline(always)]
fn low(x: i32) -> i32
    requires small { nat_abs x ≤ 3 * 2 ^ 29 }
    ensures { result ≡ low_part x }
{
    x - 256 * high(x)
}

#[inline(always)]
fn part<const H: usize>(w: &[i32; H], high_parts: &mut [i32; H], low_parts: &mut [i32; H])
    requires small { Small w.now (3 * 2 ^ 29) }
    ensures high { high_parts.new ≡ table H (λ i. floor (at w.now i) 256) }
    ensures low { low_parts.new ≡ table H (λ i. low_part (at w.now i)) }
{
    for (i, &number) in w.iter().enumerate() {
        high_parts[i] = high(number);
        low_parts[i] = low(number);
    }
}

#[inline(always)]
fn whole(high: i64, low: i64) -> i64
    requires high { nat_abs high ≤ 27 * 2 ^ 50 }
    requires low { nat_abs low ≤ 27 * 2 ^ 50 }
    ensures { result ≡ pos 256 *ℤ high +ℤ low }
{
    256 * high + low
}

// Sums of high parts, and those of low parts added.
#[inline(always)]
fn join_parts<const H: usize>(high: &[i64; H], low: &[i64; H], s: &mut [i64; H])
    requires high { Small high.now (27 * 2 ^ 50) }
    requires low { Small low.now (27 * 2 ^ 50) }
    ensures { s.new ≡ table H (λ i. pos 256 *ℤ at high.now i +ℤ at low.now i) }
{
    for (i, sum) in s.iter_mut().enumerate() {
        *sum = whole(high[i], low[i]);
    }
}

// The sums of numbers that outgrow what a block's sums take, by those of their high and their low parts.
#[inline(always)]
fn sums_by_parts<const H: usize, B: Summing<H>>(w: &[i32; H], s: &mut [i64; H])
    requires some { (2 ≤ H) × (H ≤ 36) }
    requires small { Small w.now (3 * 2 ^ 29) }
    ensures { s.new ≡ twice H w.now }
{
    let mut high = [0i32; H];
    let mut low = [0i32; H];
    let mut high_sums = [0i64; H];
    let mut low_sums = [0i64; H];
    part(w, &mut high, &mut low);
    B::block_sums(&high, &mut high_sums);
    B::block_sums(&low, &mut low_sums);
    join_parts(&high_sums, &low_sums, s);
}

// All sums of a block of M of wide numbers: only what is folded three to one outgrows the sums of a third. So it is a body of its own, and `all_by_third` doesn't pay for the second sum.
#[inline(always)]
pub fn all_of_wide<const M: usize, const H: usize, P: Pairing<M, H>, B: Summing<H>>(
    z: &[i32; M],
    of: &[u8; M],
    t: &mut [i64; M],
)
    requires three { M ≡ H + (H + H) }
    requires some { (2 ≤ H) × (H ≤ 36) }
    requires small { Small z.now (2 ^ 29) }
    requires join { IsJoin H P.near P.far of.now }
    ensures { t.new ≡ twice M z.now }
{
    let mut w = [0i32; H];
    let mut s = [0i64; H];
    fold_three(z, &mut w);
    sums_by_parts::<H, B>(&w, &mut s);
    from_parts::<M, H, P>(z, &s, of, t);
}

// The same of a block that has no third.
#[inline(always)]
pub fn all_by_itself<const D: usize>(z: &[i32; D], kernel: &[[i32; D]; D], t: &mut [i64; D])
    requires some { (0 < D) × (D ≤ 36) }
    requires small { Small z.now (2 ^ 30) }
    requires kernel { kernel.now ≡ doubled_of D }
    ensures { t.new ≡ twice D z.now }
{
    product_sums(z, kernel, t);
}
