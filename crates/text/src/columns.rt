// Text in columns: blanks, and a number right aligned.
ghost use Rattle.std.specs.Prelude.{◌≡◌, ◌≤◌, length, replicate};
ghost use Rattle.text.specs.Bytes.{blank};
ghost use Rattle.text.specs.Number.{decimal, printed};
ghost use Rattle.text.specs.Columns.{aligned};

use crate::output::Output;

const BLANK: u8 = b' ';

// Fills columns with blanks.
pub fn put_blanks(out: &mut [u8])
    ensures { out.new ≡ replicate (length out.old) blank }
{
    out.fill(BLANK);
}

// How many digits n has.
fn digits(n: u64) -> usize
    ensures { result ≡ length (decimal n) }
{
    n.max(1).ilog10() as usize + 1
}

// How many bytes a number is printed as.
fn width(v: i64) -> usize
    ensures { result ≡ length (printed v) }
{
    let count = digits(arithmetic::size(v));
    if v < 0 { count + 1 } else { count }
}

// Puts a number into columns, at their end, with blanks in front.
pub fn put_aligned(v: i64, out: &mut [u8])
    requires { length (printed v) ≤ length out.old }
    ensures { out.new ≡ aligned (length out.old) (printed v) }
{
    let at = out.len() - width(v);
    put_blanks(&mut out[..at]);
    Output { bytes: out, at }.number(v);
}
