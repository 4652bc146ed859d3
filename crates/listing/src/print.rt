// What the listing program prints, put behind what is there.
ghost use Rattle.std.specs.Prelude.{◌+◌, ◌*◌, ◌≤◌, length};
ghost use Rattle.text.specs.Outputs.{HasRoom, Puts};
ghost use Rattle.listing.specs.Print.{header, row};

use text::line::{COMMA, LINE_FEED};
use text::output::Output;

// The header of a listing with hops of m samples.
pub fn put_header(m: usize, output: &mut Output)
    requires { (m ≤ 99999) × HasRoom (7 * m + 4) output.old }
    ensures { Puts (header m) output.old output.new }
{
    output.text(b"hop");
    for i in 0..m {
        output.text(b",s");
        output.digits(i as u64);
    }
    output.byte(LINE_FEED);
}

// The row of a hop.
pub fn put_row(hop: usize, samples: &[i16], output: &mut Output)
    requires { (hop ≤ 9999) × HasRoom (7 * length samples.now + 5) output.old }
    ensures { Puts (row hop samples.now) output.old output.new }
{
    output.digits(hop as u64);
    for sample in samples {
        output.byte(COMMA);
        output.number(i64::from(*sample));
    }
    output.byte(LINE_FEED);
}
