// What `floats` and `put_ends` turn away, in the order 1, 2, 3, and that they then leave the room alone.
use crate::{ROOM, show_ends};
use bank_report::{ABOVE, code};
use report::buffers::{first, first_of, with};
use std::io;

// Room for the highest and the lowest and one more.
const ENDS: usize = 3;

// What every room holds beforehand.
const BEFORE: f64 = 9.0;

// The whole room holds what it held before. It is shown as 1.
fn is_kept(room: &[f64]) -> bool {
    room.iter().all(|x| *x == BEFORE)
}

// So many small coefficients, of which the last is out of range or not; room for so many floats, and for so many ends.
#[derive(Clone, Copy)]
struct Lent {
    coefficients: usize,
    is_bad: bool,
    floats: usize,
    ends: usize,
}

// What the calls are asked, and what they answer.
fn asked(rt: &impl Print, n: usize, lent: Lent) -> io::Result<()> {
    let small = [5; ROOM];
    let spoilt = match lent.coefficients.checked_sub(1) {
        Some(last) if lent.is_bad => with(small, last, ABOVE),
        _ => small,
    };
    let x = first(&spoilt, lent.coefficients);
    let mut floats = [BEFORE; ROOM];
    let out = first_of(&mut floats, lent.floats);
    let mut both = [BEFORE; ENDS];
    let ends = first_of(&mut both, lent.ends);
    let bad = u32::from(lent.is_bad);
    print!(rt;
        "refused,{n},{},{},{},{bad}",
        x.len(),
        out.len(),
        ends.len()
    )?;
    let filled = code(&filter_bank::floats(n, x, out));
    let kept = u32::from(is_kept(out));
    print!(rt; ",{filled},{kept}")?;
    let put = code(&filter_bank::put_ends(n, x, ends));
    let kept = u32::from(is_kept(ends));
    print!(rt; ",{put},{kept}")?;
    show_ends(rt, filter_bank::highest_lowest(n, x))
}

// Each room for the ends, with coefficients in range and not.
fn at_lengths(rt: &impl Print, n: usize, coefficients: usize, floats: usize) -> io::Result<()> {
    for ends in [1, 2, 3] {
        for is_bad in [false, true] {
            let lent = Lent {
                coefficients,
                is_bad,
                floats,
                ends,
            };
            asked(rt, n, lent)?;
        }
    }
    Ok(())
}

// Fewer coefficients than m, m and more; and room for fewer floats, for m and for more.
fn lengths(rt: &impl Print, n: usize, m: usize) -> io::Result<()> {
    let counts = [m.saturating_sub(1), m, m.saturating_add(1)];
    for coefficients in counts {
        for floats in counts {
            at_lengths(rt, n, coefficients, floats)?;
        }
    }
    Ok(())
}

pub fn refusals(rt: &impl Print) -> io::Result<()> {
    for (n, m) in [
        (0, 0),
        (1, 0),
        (11, 5),
        (12, 6),
        (13, 6),
        (24, 12),
        (36, 18),
        (72, 36),
        (108, 54),
        (144, 72),
        (216, 108),
        (217, 108),
        (432, 108),
    ] {
        lengths(rt, n, m)?;
    }
    Ok(())
}
