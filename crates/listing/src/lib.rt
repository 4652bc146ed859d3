// The listing program on bytes: `round_trip` takes any input, and what it writes is the definition of specs/Listing. The modules `hop` and `verdict` are public for
// `coarsest_report`, which reads listings too, under their requires.
#![tactic(auto)]

mod bank;
mod block;
pub mod hop;
mod print;
pub mod verdict;

ghost use Rattle.text.specs.Buffers.{Written};
ghost use Rattle.text.specs.Outputs.{HasRoom, Puts};
ghost use Rattle.listing.specs.SizeLaws.{room};
ghost use Rattle.listing.specs.Listing.{listing};

use text::output::Output;

// The most bytes that are printed.
pub const ROOM: usize = 262144;

// What is printed for an input.
fn put_listing(input: &[u8], output: &mut Output)
    requires { HasRoom room output.old }
    ensures { Puts (listing input.now) output.old output.new }
{
    match verdict::verify(input) {
        Ok(listing) => {
            print::put_header(listing.n / 2, output);
            bank::put_rows(input, listing, output);
        }
        Err(fault) => output.refusal(fault.number(), fault.line()),
    }
}

// Writes what is printed for an input to the start of a buffer, and answers how many bytes that is.
pub fn round_trip(input: &[u8], out: &mut [u8; ROOM]) -> usize
    ensures { Written (listing input.now) out.old out.new result }
{
    let mut output = Output { bytes: out, at: 0 };
    put_listing(input, &mut output);
    output.at
}
