// A line that is a hop: its form, and its samples.
ghost use Rattle.std.specs.Prelude.{◌≡◌, ◌≤◌, T, length};
ghost use Rattle.arithmetic.specs.Lists.{every};
ghost use Rattle.text.specs.Lines.{fields, line_at, next_line};
ghost use Rattle.listing.specs.Hops.{is_sample, is_hop, samples};

use text::line::{COMMA, LINE_FEED, find};
use text::number::{DIGITS, parse, value};

// A number in the range of a sample.
fn is_sample(field: &[u8]) -> bool
    ensures { result ≡ is_sample field.now }
{
    match parse(field, DIGITS) {
        Some(v) => -32768 <= v && v <= 32767,
        None => false,
    }
}

fn count_fields(line: &[u8]) -> usize
    ensures { result ≡ length (fields line.now) }
{
    line.split(|b| *b == COMMA).count()
}

fn all_samples(line: &[u8]) -> bool
    ensures { result ≡ every is_sample (fields line.now) }
{
    line.split(|b| *b == COMMA).all(|field| is_sample(field))
}

// M samples parted by commas. The samples first: a line is left at a field that is none, and not counted to its end.
#[tactic(auto, unfolding(crate::specs::Hops::is_hop))]
pub fn is_hop(line: &[u8], m: usize) -> bool
    ensures { result ≡ is_hop m line.now }
{
    all_samples(line) && count_fields(line) == m
}

// The samples of a line that is a hop.
fn read_samples(line: &[u8], out: &mut [i16])
    requires { T (is_hop (length out.old) line.now) }
    ensures { out.new ≡ samples line.now }
{
    let mut at = 0;
    for sample in out {
        let end = find(line, at, COMMA);
        *sample = value(&line[at..end]) as i16;
        at = end + 1;
    }
}

// Reads the hop whose line starts at a place, and answers where the next line starts.
pub fn read_hop(input: &[u8], at: usize, out: &mut [i16]) -> usize
    requires { (at ≤ length input.now) × T (is_hop (length out.old) (line_at input.now at)) }
    ensures out_after { out.new ≡ samples (line_at input.now at) }
    ensures value { result ≡ next_line input.now at }
{
    let end = find(input, at, LINE_FEED);
    read_samples(&input[at..end], out);
    end + 1
}
