// Products of 82 bits in two words, compared exactly. `larger_of_two` calls `smaller`.
ghost use Rattle.std.specs.Prelude.{◌≡◌, ◌*◌, ◌^◌, ◌≤◌, ltb};
ghost use Rattle.shares.specs.Products.{IsProduct};

// high × 2^32 + low, low below 2^32.
#[derive(Clone, Copy)]
pub struct Words {
    pub high: u64,
    pub low: u64,
}

#[tactic(auto, using(crate::specs::ProductLaws::two_words))]
fn product(a: u64, b: u64) -> Words
    requires { (a ≤ 2 ^ 56) × (b ≤ 2 ^ 26) }
    ensures { IsProduct a b result }
{
    let under = a % 4294967296 * b;
    let over = a / 4294967296 * b;
    Words {
        high: over + under / 4294967296,
        low: under % 4294967296,
    }
}

// Whether a × b is below c × d.
pub fn smaller(a: u64, b: u64, c: u64, d: u64) -> bool
    requires { (a ≤ 2 ^ 56) × (b ≤ 2 ^ 26) × (c ≤ 2 ^ 56) × (d ≤ 2 ^ 26) }
    ensures { result ≡ ltb (a * b) (c * d) }
{
    let p = product(a, b);
    let q = product(c, d);
    if p.high < q.high {
        return true;
    }
    if q.high < p.high {
        return false;
    }
    p.low < q.low
}
