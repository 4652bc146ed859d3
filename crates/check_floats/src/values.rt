// Single coefficients as floats: zero, the ends of the range, and those about each power of two, with either sign.
use crate::pattern;
use bank_report::{LEAST, MOST};
use std::io;

// The largest size of a coefficient.
const LARGEST: u32 = 536870912;

// Entry 0 of a block of six of it.
fn value(rt: &impl Print, v: i32) -> io::Result<()> {
    let mut out = [9.0f64; 6];
    let _ = filter_bank::floats(12, &[v; 6], &mut out);
    println!(rt; "value,{v},{}", pattern(out[0]))
}

// With either sign, where they are coefficients.
fn signed(rt: &impl Print, size: u32) -> io::Result<()> {
    if size <= LARGEST {
        let v = size as i32;
        value(rt, v)?;
        value(rt, -v)?;
    }
    Ok(())
}

// Powers of two up to the largest size.
fn powers(rt: &impl Print) -> io::Result<()> {
    let mut power: u32 = 1;
    for _ in 0..30 {
        signed(rt, power)?;
        signed(rt, power.saturating_sub(1))?;
        signed(rt, power.saturating_add(1))?;
        power = power.saturating_mul(2);
    }
    Ok(())
}

pub fn values(rt: &impl Print) -> io::Result<()> {
    value(rt, 0)?;
    value(rt, 1)?;
    value(rt, -1)?;
    powers(rt)?;
    value(rt, MOST)?;
    value(rt, LEAST)
}
