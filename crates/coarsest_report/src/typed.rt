// Whole numbers as they are typed.
ghost use Rattle.std.specs.Prelude.{◌≡◌, ◌≤◌, true, false, nat_abs, MatchOption};
ghost use Rattle.text.specs.Number.{most_digits, value};
ghost use Rattle.coarsest_report.specs.Report.{is_whole, distance_of};

use text::number::{DIGITS, parse};

// The number that the bytes are, where they are one of at most so many digits, and not below 0.
pub fn whole(typed: &[u8], most: usize) -> Option<usize>
    requires { most ≤ most_digits }
    ensures { MatchOption result (is_whole most typed.now ≡ false) (λ n. (is_whole most typed.now ≡ true) × (n ≡ nat_abs (value typed.now))) }
{
    let v = parse(typed, most)?;
    if v < 0 { None } else { Some(v as usize) }
}

// The allowed distance: 33, which is turned away, where the bytes are none or more.
pub fn distance_of(typed: &[u8]) -> u32
    ensures { result ≡ distance_of typed.now }
{
    let whole = whole(typed, DIGITS).unwrap_or(33);
    if whole < 33 { whole as u32 } else { 33 }
}
