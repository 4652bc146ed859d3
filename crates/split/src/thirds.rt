// The split: a part of N inputs y gives the inputs of three parts of N/3, and their sums give A(k), B(k) + D(k) and B(k) - D(k), unrounded.
// The names are document 01's. N is the length of y.
ghost use Rattle.std.specs.Prelude.{◌≡◌, ◌-◌, ◌*◌, ◌/◌, ◌^◌, ◌≤◌, ◌<◌, length, pos, nat_abs, ◌+ℤ◌, ◌-ℤ◌, ◌*ℤ◌};
ghost use Rattle.arithmetic.specs.Lists.{at, table, Small};
ghost use Rattle.split.specs.ShortRoute.{a, b, c, e, f, Unrounded};
ghost use Rattle.split.specs.Parts.{middle};
ghost use Rattle.split.specs.TurnLaws.{rotated, limit, Turns, Beside, signed};
ghost use Rattle.split.specs.PartLaws.{third, Given, Third, Room, Summed};

// a, b and c at place n, below N/3.
fn a_at(y: &[i32], n: usize) -> i32
    requires n_in_bounds { n < length y.now / 3 }
    requires small { Small y.now (2 ^ 26) }
    ensures value { result ≡ a (length y.now) (at y.now) n }
    ensures result_bound { nat_abs result ≤ 2 ^ 26 }
{
    y[y.len() / 3 - 1 - n]
}

fn b_at(y: &[i32], n: usize) -> i32
    requires n_in_bounds { n < length y.now / 3 }
    requires small { Small y.now (2 ^ 26) }
    ensures value { result ≡ b (length y.now) (at y.now) n }
    ensures result_bound { nat_abs result ≤ 2 ^ 26 }
{
    y[2 * y.len() / 3 - 1 - n]
}

fn c_at(y: &[i32], n: usize) -> i32
    requires n_in_bounds { n < length y.now / 3 }
    requires small { Small y.now (2 ^ 26) }
    ensures value { result ≡ c (length y.now) (at y.now) n }
    ensures result_bound { nat_abs result ≤ 2 ^ 26 }
{
    y[y.len() - 1 - n]
}

// a - b + c.
fn middle_at(y: &[i32], n: usize) -> i32
    requires n_in_bounds { n < length y.now / 3 }
    requires small { Small y.now (2 ^ 26) }
    ensures { result ≡ middle (length y.now) (at y.now) n }
{
    a_at(y, n) - b_at(y, n) + c_at(y, n)
}

// e = 2c - a + b.
fn e_at(y: &[i32], n: usize) -> i32
    requires n_in_bounds { n < length y.now / 3 }
    requires small { Small y.now (2 ^ 26) }
    ensures { result ≡ e (length y.now) (at y.now) n }
{
    2 * c_at(y, n) - a_at(y, n) + b_at(y, n)
}

// f = a + b.
fn f_at(y: &[i32], n: usize) -> i32
    requires n_in_bounds { n < length y.now / 3 }
    requires small { Small y.now (2 ^ 26) }
    ensures { result ≡ f (length y.now) (at y.now) n }
{
    a_at(y, n) + b_at(y, n)
}

// e p + f q.
fn turn(e: i32, f: i32, p: i32, q: i32) -> i64
    requires e_bound { nat_abs e ≤ 2 ^ 28 }
    requires f_bound { nat_abs f ≤ 2 ^ 28 }
    requires p_bound { nat_abs p ≤ 2 ^ 27 }
    requires q_bound { nat_abs q ≤ 2 ^ 27 }
    ensures { result ≡ e *ℤ p +ℤ f *ℤ q }
{
    e as i64 * p as i64 + f as i64 * q as i64
}

// The rotation of e and f at place n: rB or rC, as p and q are.
fn rotated_at(size: usize, y: &[i32], p: &[i32], q: &[i32], n: usize) -> i32
    requires n_in_bounds { n < length y.now / 3 }
    requires small { Small y.now (limit size) }
    requires turns { Turns (length y.now / 3) p.now q.now }
    ensures value { result ≡ rotated (length y.now) (at y.now) p.now q.now n }
    ensures result_bound { nat_abs result ≤ 2 ^ 29 }
{
    arithmetic::rnd_shift(turn(e_at(y, n), f_at(y, n), p[n], q[n]), 26) as i32
}

// The same with its sign: rC's, of part 2, is changed where n + N/12 is even.
fn outer_at(size: usize, which: usize, y: &[i32], p: &[i32], q: &[i32], n: usize) -> i32
    requires n_in_bounds { n < length y.now / 3 }
    requires small { Small y.now (limit size) }
    requires turns { Turns (length y.now / 3) p.now q.now }
    ensures { result ≡ signed which (length y.now) n (rotated (length y.now) (at y.now) p.now q.now n) }
{
    let r = rotated_at(size, y, p, q, n);
    if which == 1 {
        return r;
    }
    if (n + y.len() / 12) % 2 == 0 { -r } else { r }
}

// The inputs of the three parts of N/3, y having n inputs, for the short route's split and the double route's. A part is named by its number, as in the
// definitions `third` and `signed`: 0, 1 and 2. Of a length's four lists of cosines p and q are the two beside part `which`.
// Their loops go by number: they count to n / 3, which the compiler knows where n is a constant, as it does not know the length of a caller's slice.
pub fn middle_third(n: usize, y: &[i32], w: &mut [i32])
    requires y_len { length y.now ≡ n }
    requires small { Small y.now (limit n) }
    requires w_len { length w.old ≡ n / 3 }
    ensures { w.new ≡ third 0 n (at y.now) }
{
    for i in 0..n / 3 {
        w[i] = middle_at(y, i);
    }
}

pub fn turned_third(n: usize, which: usize, y: &[i32], p: &[i32], q: &[i32], w: &mut [i32])
    requires y_len { length y.now ≡ n }
    requires small { Small y.now (limit n) }
    requires beside { Beside which n p.now q.now }
    requires w_len { length w.old ≡ n / 3 }
    ensures { w.new ≡ third which n (at y.now) }
{
    for i in 0..n / 3 {
        w[i] = outer_at(n, which, y, p, q, i);
    }
}

// The same of a windowed block, in the short route's words: `fill_middle` is named so in docs/READING.md.
pub fn fill_middle(n: usize, y: &[i32], w: &mut [i32])
    requires given { Given n y.now }
    requires w_len { length w.old ≡ n / 3 }
    ensures { Third 0 n y.now w.new }
{
    middle_third(n, y, w);
}

pub fn fill_turned(n: usize, which: usize, y: &[i32], p: &[i32], q: &[i32], w: &mut [i32])
    requires given { Given n y.now }
    requires beside { Beside which n p.now q.now }
    requires w_len { length w.old ≡ n / 3 }
    ensures { Third which n y.now w.new }
{
    turned_third(n, which, y, p, q, w);
}

// B(k) + D(k) and B(k) - D(k), with D(k) = G(N/6-1-k).
fn join(b: &[i64], g: &[i64], plus: &mut [i64], minus: &mut [i64])
    requires g_len { length g.now ≡ length b.now }
    requires plus_len { length plus.old ≡ length b.now }
    requires minus_len { length minus.old ≡ length b.now }
    requires b_small { Small b.now (2 ^ 57) }
    requires g_small { Small g.now (2 ^ 57) }
    ensures plus_after { plus.new ≡ table (length b.now) (λ k. at b.now k +ℤ at g.now (length b.now - 1 - k)) }
    ensures minus_after { minus.new ≡ table (length b.now) (λ k. at b.now k -ℤ at g.now (length b.now - 1 - k)) }
{
    let h = b.len();
    // by index: two slices are written at once, and one is read backwards
    for k in 0..h {
        let d = g[h - 1 - k];
        plus[k] = b[k] + d;
        minus[k] = b[k] - d;
    }
}

// The same of y, from the sums a, b and g of its parts.
pub fn outer_sums(
    n: usize,
    y: &[i32],
    a: &[i64],
    b: &[i64],
    g: &[i64],
    plus: &mut [i64],
    minus: &mut [i64],
)
    requires summed { Summed n y.now a.now b.now g.now }
    requires room { Room (n / 6) plus.old minus.old }
    ensures { Unrounded n (at y.now) a.now plus.new minus.new }
{
    join(b, g, plus, minus);
}
