// What both calls turn away, in the order 1, 2, 12.
ghost use Rattle.std.specs.Prelude.{◌≤◌, ◌<◌};

use crate::show;
use bank_report::code;
use report::buffers::{first, first_of};
use report::noise::samples;
use std::io;

// Room for the samples of one hop too many at the shortest length, and one more.
const ROOM: usize = 24577;

// The numbers that are lent, one more than are written.
const NUMBERS: usize = 4;

// The choices of five causes.
const CHOICES: usize = 32;

// The largest distance, and one above it.
const MOST: u32 = 32;

const ABOVE: u32 = 33;

// Few trials: what matters is whether any is made.
const BUDGET: usize = 3;

// A recording, with the distance that is allowed: the length of its blocks, its hops, and so many samples.
#[derive(Clone, Copy)]
struct Asked {
    n: usize,
    hops: usize,
    l: usize,
    allowed: u32,
}

// What both calls are asked and what they answer, with room for the first of four numbers, which are all shown afterwards.
fn ask(rt: &impl Print, asked: Asked, size: usize) -> io::Result<()> {
    let Asked {
        n,
        hops,
        l,
        allowed,
    } = asked;
    let noise: [i16; ROOM] = samples(7, 32768);
    let x = first(&noise, l);
    let mut numbers = [12345; NUMBERS];
    let room = first_of(&mut numbers, size);
    print!(rt; "asked,{n},{hops},{},{allowed},{}", x.len(), room.len())?;
    show(rt, filter_bank::coarsest_step(n, hops, x, allowed, BUDGET))?;
    let code = code(&filter_bank::find_step(n, hops, x, allowed, BUDGET, room));
    let [step, trials, untried, beside] = numbers;
    println!(rt; ",{code},{step},{trials},{untried},{beside}")
}

// Samples that are one fewer, one more or none, and all of them.
fn lengths(rt: &impl Print, asked: Asked) -> io::Result<()>
    requires { (1 ≤ asked.l) × (asked.l < 24577) }
{
    for l in [asked.l - 1, asked.l + 1, 0, asked.l] {
        ask(rt, Asked { l, ..asked }, 3)?;
    }
    Ok(())
}

// Distances that are taken, and others, some of which are 0 or 1 where upper bits are lost.
fn distances(rt: &impl Print, asked: Asked) -> io::Result<()> {
    for allowed in [0, 31, MOST, ABOVE, 256, 65537, 2147483648, 4294967295] {
        ask(rt, Asked { allowed, ..asked }, 3)?;
    }
    Ok(())
}

fn rooms(rt: &impl Print, asked: Asked) -> io::Result<()> {
    for size in 0..5 {
        ask(rt, asked, size)?;
    }
    Ok(())
}

// Numbers of hops that are not those of the samples, some of which pass for them where upper bits are lost, as they are or times M.
fn counts(rt: &impl Print, asked: Asked) -> io::Result<()>
    requires { (1 ≤ asked.hops) × (asked.hops ≤ 4095) }
{
    let l = asked.l;
    for (hops, l) in [
        (0, l),
        (0, 0),
        (asked.hops - 1, l),
        (asked.hops + 1, l),
        (4096, l),
        (4294967296 + asked.hops, l),
        (9223372036854775808 + asked.hops, l),
        (9223372036854775808, 0),
        (18446744073709551615, 0),
    ] {
        ask(rt, Asked { hops, l, ..asked }, 3)?;
    }
    Ok(())
}

// A tabled length, and the samples of so many hops of it.
fn tabled(rt: &impl Print, n: usize, hops: usize, l: usize) -> io::Result<()>
    requires { (1 ≤ hops) × (hops ≤ 4095) × (1 ≤ l) × (l < 24577) }
{
    let asked = Asked {
        n,
        hops,
        l,
        allowed: 1,
    };
    lengths(rt, asked)?;
    distances(rt, asked)?;
    rooms(rt, asked)?;
    counts(rt, asked)
}

// The one value where a choice has the cause of this bit, 1, 2, 4, 8 or 16, and else the other.
fn either<T: Copy>(choice: usize, bit: usize, damaged: T, sound: T) -> T
    requires { 1 ≤ bit }
{
    if choice / bit % 2 == 1 {
        damaged
    } else {
        sound
    }
}

// Three hops of N = 24 with every choice of the causes: the first in their order is answered.
fn causes(rt: &impl Print) -> io::Result<()> {
    for choice in 0..CHOICES {
        let asked = Asked {
            n: either(choice, 1, 25, 24),
            hops: either(choice, 2, 4096, 3),
            l: either(choice, 4, 35, 36),
            allowed: either(choice, 16, ABOVE, MOST),
        };
        ask(rt, asked, either(choice, 8, 4, 3))?;
    }
    Ok(())
}

// A length that is not tabled: with the samples of two hops of m, with one fewer, and with everything else wrong too.
fn untabled(rt: &impl Print, n: usize, m: usize) -> io::Result<()>
    requires { (1 ≤ m) × (m ≤ 108) }
{
    let asked = Asked {
        n,
        hops: 2,
        l: 2 * m,
        allowed: 1,
    };
    ask(rt, asked, 3)?;
    ask(
        rt,
        Asked {
            l: 2 * m - 1,
            ..asked
        },
        3,
    )?;
    ask(
        rt,
        Asked {
            allowed: ABOVE,
            ..asked
        },
        3,
    )?;
    ask(rt, asked, 2)?;
    let nothing = Asked {
        n,
        hops: 0,
        l: 0,
        allowed: 4294967295,
    };
    ask(rt, nothing, 0)
}

// One hop more than there may be, with a distance that is taken and one that is not.
fn too_many(rt: &impl Print) -> io::Result<()> {
    for allowed in [1, ABOVE] {
        let asked = Asked {
            n: 12,
            hops: 4096,
            l: 24576,
            allowed,
        };
        ask(rt, asked, 3)?;
    }
    Ok(())
}

pub fn refusals(rt: &impl Print) -> io::Result<()> {
    tabled(rt, 12, 3, 18)?;
    tabled(rt, 12, 4095, 24570)?;
    tabled(rt, 24, 1, 12)?;
    tabled(rt, 36, 2, 36)?;
    tabled(rt, 72, 2, 72)?;
    tabled(rt, 108, 1, 54)?;
    tabled(rt, 216, 2, 216)?;
    too_many(rt)?;
    causes(rt)?;
    untabled(rt, 0, 6)?;
    untabled(rt, 11, 5)?;
    untabled(rt, 13, 6)?;
    untabled(rt, 48, 24)?;
    untabled(rt, 144, 72)?;
    untabled(rt, 217, 108)?;
    untabled(rt, usize::MAX, 36)
}
