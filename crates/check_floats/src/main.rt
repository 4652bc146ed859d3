// Coefficients as floats, and the highest and the lowest of a block, through the public calls, compared with what vectors/floats.py makes from the definitions. A float
// is shown as its 64-bit pattern.
#![tactic(auto)]

mod of_blocks;
mod refused;
mod values;

use bank_report::code;
use filter_bank::{Pair, Refusal};
use std::io;

// Room for the coefficients of the longest block and one more.
const ROOM: usize = 109;

// The bit pattern of a float, and 0 of a NaN, where it is not defined.
fn pattern(x: f64) -> u64 {
    if x.is_nan() { 0 } else { x.to_bits() }
}

// The highest and the lowest as a call by value answers them: its number, and both floats, +0.0 twice where it is refused. And the line's end.
fn show_ends(rt: &impl Print, outcome: Result<Pair, Refusal>) -> io::Result<()> {
    let code = code(&outcome);
    let (highest, lowest) = match outcome {
        Ok(pair) => (pattern(pair.highest), pattern(pair.lowest)),
        Err(_) => (0, 0),
    };
    println!(rt; ",{code},{highest},{lowest}")
}

fn main(rt: HostRuntime) -> io::Result<()> {
    values::values(&rt)?;
    of_blocks::blocks(&rt)?;
    refused::refusals(&rt)
}
