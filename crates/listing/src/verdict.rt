// The verdict on a whole listing: size first, then the first faulty line.
ghost use Rattle.std.specs.Prelude.{◌≡◌};
ghost use Rattle.text.specs.Lines.{lines, remainder};
ghost use Rattle.listing.specs.Verdicts.{number_of, line_of, verdict_of, by_hops, by_length, verdict};

use crate::hop::is_hop;
use text::line::{LINE_FEED, find};
use text::number::{DIGITS, parse};

// The most bytes of a listing.
const LIMIT: usize = 65536;

/// A listing that is taken: the length of its blocks, and how many hops it has.
#[derive(Clone, Copy, Debug, PartialEq, Eq)]
pub struct Listing {
    pub n: usize,
    pub hops: usize,
}

/// Why a listing is turned away.
#[derive(Clone, Copy, Debug, PartialEq, Eq)]
pub enum Fault {
    /// Line 1 is a number, and no length that is offered.
    Length,
    /// This line is not what it has to be.
    Form(usize),
    /// There are too many bytes.
    Size,
}

impl Fault {
    /// The number that the documents give.
    pub fn number(self) -> u32
        ensures { result ≡ number_of self }
    {
        match self {
            Fault::Length => 1,
            Fault::Form(_) => 5,
            Fault::Size => 6,
        }
    }

    /// The faulty line, and 0 for none.
    pub fn line(self) -> usize
        ensures { result ≡ line_of self }
    {
        match self {
            Fault::Length => 1,
            Fault::Form(line) => line,
            Fault::Size => 0,
        }
    }
}

// The lines behind the first, each of them to be a hop.
fn verify_hops(text: &[u8], n: usize) -> Result<Listing, Fault>
    ensures { verdict_of result ≡ by_hops n 0 (lines text.now) (remainder text.now) }
{
    let mut at = 0;
    let mut hops = 0;
    // From line to line by hand, no index: split_inclusive would hand out a line with its line feed, and a last one without, to be told apart and cut again.
    while at < text.len() {
        let end = find(text, at, LINE_FEED);
        if end == text.len() {
            return Err(Fault::Form(hops + 2));
        }
        if !is_hop(&text[at..end], n / 2) {
            return Err(Fault::Form(hops + 2));
        }
        at = end + 1;
        hops += 1;
    }
    Ok(Listing { n, hops })
}

// The lines behind a well-formed line 1.
fn verify_length(text: &[u8], n: i64) -> Result<Listing, Fault>
    ensures { verdict_of result ≡ by_length n (lines text.now) (remainder text.now) }
{
    if n < 0 || !cosine::is_tabled(n as usize) {
        return Err(Fault::Length);
    }
    verify_hops(text, n as usize)
}

// The verdict on a listing.
pub fn verify(input: &[u8]) -> Result<Listing, Fault>
    ensures { verdict_of result ≡ verdict input.now }
{
    if LIMIT < input.len() {
        return Err(Fault::Size);
    }
    let end = find(input, 0, LINE_FEED);
    if end == input.len() {
        return Err(Fault::Form(1));
    }
    let Some(n) = parse(&input[..end], DIGITS) else {
        return Err(Fault::Form(1));
    };
    verify_length(&input[end + 1..], n)
}
