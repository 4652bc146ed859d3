// A whole number in decimal: its form and its value.
ghost use Rattle.std.specs.Prelude.{◌≡◌, ◌≤◌, T, true, false, length, MatchOption};
ghost use Rattle.arithmetic.specs.Lists.{every};
ghost use Rattle.text.specs.Number.{most_digits, is_digit, leading_zero, is_natural, is_signed, is_number};
ghost use Rattle.text.specs.Number.{natural as Number·natural, value as Number·value};

// The most digits of a number in a listing and in a step table.
pub const DIGITS: usize = 5;

const MINUS: u8 = b'-';

const ZERO: u8 = b'0';

fn is_digit(b: u8) -> bool
    ensures { result ≡ is_digit b }
{
    b.is_ascii_digit()
}

fn all_digits(s: &[u8]) -> bool
    ensures { result ≡ every is_digit s.now }
{
    s.iter().all(|b| is_digit(*b))
}

// A zero in front of other digits.
#[tactic(auto, unfolding(crate::specs::Number::leading_zero))]
fn leading_zero(s: &[u8]) -> bool
    ensures { result ≡ leading_zero s.now }
{
    s.len() > 1 && s[0] == ZERO
}

// 1 to `most` digits, with no leading zero.
#[tactic(auto, unfolding(crate::specs::Number::is_natural))]
fn is_natural(s: &[u8], most: usize) -> bool
    ensures { result ≡ is_natural most s.now }
{
    !s.is_empty() && s.len() <= most && !leading_zero(s) && all_digits(s)
}

// The number that the digits are.
fn natural(s: &[u8]) -> usize
    requires digits { T (every is_digit s.now) }
    requires s_len_bound { length s.now ≤ most_digits }
    ensures { result ≡ Number·natural s.now }
{
    let mut n = 0;
    for b in s {
        n = 10 * n + (*b - ZERO) as usize;
    }
    n
}

// A minus stands in front.
#[tactic(auto, unfolding(crate::specs::Number::is_signed))]
fn is_signed(s: &[u8]) -> bool
    ensures { result ≡ is_signed s.now }
{
    matches!(s, [MINUS, ..])
}

// The bytes are a number: an optional minus and 1 to `most` digits, with no leading zero and no -0.
#[tactic(auto, unfolding(crate::specs::Number::is_number))]
pub fn is_number(s: &[u8], most: usize) -> bool
    requires { most ≤ most_digits }
    ensures { result ≡ is_number most s.now }
{
    if is_signed(s) {
        let digits = &s[1..];
        is_natural(digits, most) && natural(digits) != 0
    } else {
        is_natural(s, most)
    }
}

// The number that the bytes are.
pub fn value(s: &[u8]) -> i64
    requires { T (is_number most_digits s.now) }
    ensures { result ≡ Number·value s.now }
{
    if is_signed(s) {
        -(natural(&s[1..]) as i64)
    } else {
        natural(s) as i64
    }
}

// The number that the bytes are, where they are one.
pub fn parse(s: &[u8], most: usize) -> Option<i64>
    requires { most ≤ most_digits }
    ensures { MatchOption result (is_number most s.now ≡ false) (λ v. (is_number most s.now ≡ true) × (v ≡ Number·value s.now)) }
{
    if is_number(s, most) {
        Some(value(s))
    } else {
        None
    }
}
