// Whole blocks of each length: all their floats in one sum, and the highest and the lowest.
ghost use Rattle.std.specs.Prelude.{◌<◌};

use crate::{ROOM, pattern, show_ends};
use bank_report::{ABOVE, BELOW, LEAST, LENGTHS, MOST, code};
use report::buffers::{first, first_of, with};
use report::noise::offset;
use std::io;

// What the sum of a block's patterns is taken modulo.
const PRIME: u64 = 1000003;

// Coefficients all over -500001 .. 500001.
fn spread() -> [i32; ROOM] {
    let mut x = [0; ROOM];
    for (k, coefficient) in x.iter_mut().enumerate() {
        *coefficient = offset(k as u64 * 7919 + 13, 500001);
    }
    x
}

// The ends of the range at one place and another.
fn ended(high: usize, low: usize) -> [i32; ROOM] {
    with(with(spread(), high, MOST), low, LEAST)
}

// Blocks of one value, spread, with the ends of the range among them, and with a coefficient out of range.
fn made(m: usize) -> [[i32; ROOM]; 8] {
    let last = m.saturating_sub(1);
    [
        [0; ROOM],
        [MOST; ROOM],
        [LEAST; ROOM],
        spread(),
        ended(0, last),
        ended(last, 0),
        with(spread(), m / 2, ABOVE),
        with(spread(), 0, BELOW),
    ]
}

// The sum with the float at place k.
fn summed(sum: u64, k: usize, x: f64) -> u64
    ensures { result < 1000003 }
{
    (sum % PRIME + (k as u64 % PRIME + 1) * (pattern(x) % PRIME)) % PRIME
}

// A sum that each float and its place change.
fn sum(out: &[f64]) -> u64 {
    let mut sum = 0;
    for (k, x) in first(out, ROOM).iter().enumerate() {
        sum = summed(sum, k, *x);
    }
    sum
}

// What both calls answer.
fn block(rt: &impl Print, n: usize, kind: usize, block: [i32; ROOM]) -> io::Result<()> {
    let m = n / 2;
    let x = first(&block, m);
    let mut room = [9.0f64; ROOM];
    let out = first_of(&mut room, m);
    let code = code(&filter_bank::floats(n, x, out));
    print!(rt; "block,{n},{kind},{code},{}", sum(out))?;
    show_ends(rt, filter_bank::highest_lowest(n, x))
}

pub fn blocks(rt: &impl Print) -> io::Result<()> {
    for n in LENGTHS {
        for (kind, x) in made(n / 2).iter().enumerate() {
            block(rt, n, kind, *x)?;
        }
    }
    Ok(())
}
