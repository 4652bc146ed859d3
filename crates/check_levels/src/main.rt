// Step tables and levels through the public calls, compared with what vectors/levels.py makes from the definitions.
#![tactic(auto)]

ghost use Rattle.std.specs.Prelude.{◌≤◌, ◌<◌, ◌+◌};

use bank_report::streams::{
    ENTRIES, block_of, forged, forged_state, fresh, fresh_state, joints_of, route_of, stepped,
};
use bank_report::{ABOVE, BELOW, LEAST, LONG, LONG_JOINTS, MOST, ROUTES, SHORT, code};
use filter_bank::{Joints, Offer, Stream};
use report::buffers::{alternating, first, first_of, with};
use report::noise::{below, random};
use report::{Entries, noise};
use std::alloc::Global;
use std::io::{self, Write};

// Room for the coefficients of a block, and for buffers that are too long.
const ROOM: usize = 112;

// The most entries of a buffer that are shown one by one.
const SHOWN: usize = 6;

// Blocks of a stream, and the tables that hold every step at N = 216.
const BLOCKS: usize = 16;

const SWEEPS: usize = 607;

// Random tables at each length, and how often a byte of each is changed.
const RANDOM: usize = 18;

const CHANGES: usize = 8;

// The largest step.
const COARSEST: usize = 65536;

// A length that is named, and the coefficients of a block in the tables and buffers beside it: N / 2 where it is tabled.
#[derive(Clone, Copy)]
struct Length {
    n: usize,
    m: usize,
    ghost in_range: { (6 ≤ m) × (m ≤ 108) },
}

// A seed of a tabled length: so many times N, and one more for each block or table.
fn seed(at: Length, times: usize, index: usize) -> u32
    requires { (times ≤ 1000) × (index ≤ 1000) }
{
    (times * 2 * at.m + index) as u32
}

// The places of a table by capitals: M, E the last coefficient and D the one before it, H the last of the first half, I the one behind it; W and B are E
// where upper bits are lost.
fn place(at: Length, byte: u8) -> Option<usize> {
    let m = at.m;
    match byte {
        b'M' => Some(m),
        b'E' => Some(m - 1),
        b'D' => Some(m - 2),
        b'H' => Some(m / 2 - 1),
        b'I' => Some(m / 2),
        b'W' => Some(65535 + m),
        b'B' => Some(255 + m),
        _ => None,
    }
}

// Part of a table, with each capital as the number of its place.
fn put(text: &mut Vec<u8>, at: Length, part: &[u8]) -> io::Result<()> {
    for byte in part {
        match place(at, *byte) {
            Some(place) => write!(text, "{place}")?,
            None => text.push(*byte)?,
        }
    }
    Ok(())
}

// A table from three parts.
fn table_of(
    alloc: Global,
    at: Length,
    before: &[u8],
    line: &[u8],
    after: &[u8],
) -> io::Result<Vec<u8>> {
    let mut text = Vec::new(alloc);
    put(&mut text, at, before)?;
    put(&mut text, at, line)?;
    put(&mut text, at, after)?;
    Ok(text)
}

// The steps of coefficients that have a line each: from one on, up to the largest; or the smallest three and the largest by turns.
#[derive(Clone, Copy)]
enum Steps {
    From(usize),
    Mixed,
}

fn step_at(steps: Steps, k: usize) -> usize {
    match steps {
        Steps::From(base) => base.saturating_add(k).min(COARSEST),
        Steps::Mixed if k % 4 == 3 => COARSEST,
        Steps::Mixed => k % 4 + 1,
    }
}

// A table with a line for each coefficient, of which one may be missing and one stand twice.
#[derive(Clone, Copy)]
struct Lines {
    steps: Steps,
    missing: Option<usize>,
    doubled: Option<usize>,
}

// Neither missing nor doubled.
fn whole(steps: Steps) -> Lines {
    Lines {
        steps,
        missing: None,
        doubled: None,
    }
}

fn put_lines(text: &mut Vec<u8>, at: Length, lines: Lines) -> io::Result<()> {
    for k in 0..at.m {
        let step = step_at(lines.steps, k);
        if lines.missing == Some(k) {
            continue;
        }
        write!(text, "{k},{k},{step}\n")?;
        if lines.doubled == Some(k) {
            write!(text, "{k},{k},{step}\n")?;
        }
    }
    Ok(())
}

fn table_by_lines(alloc: Global, at: Length, lines: Lines) -> io::Result<Vec<u8>> {
    let mut text = Vec::new(alloc);
    put_lines(&mut text, at, lines)?;
    Ok(text)
}

// What step-table prints for a length as it is typed.
fn show_report(rt: &impl Print, number: &[u8], table: &[u8]) -> io::Result<()> {
    let mut out = [0; table_report::ROOM];
    let end = table_report::report(number, table, &mut out);
    rt.write_all(first(&out, end))
}

// A table by its length and its sum, what it tells, the numbers of the calls on a block and on levels; and its report, which has the line of a refusal.
fn judge(rt: &HostRuntime, at: Length, table: &[u8]) -> io::Result<()> {
    let n = at.n;
    print!(rt; "table,{n},{},{}", table.len(), report::sum_bytes(table))?;
    for route in ROUTES {
        let told = filter_bank::told_distance(route, n, table);
        print!(rt; ",{},{}", code(&told), told.unwrap_or(0))?;
    }
    let x = [77; ROOM];
    let mut room = [12345; ROOM];
    let out = first_of(&mut room, at.m);
    let quantised = code(&filter_bank::quantise(n, table, first(&x, at.m), out));
    let restored = code(&filter_bank::dequantise(n, table, first(&x, at.m), out));
    println!(rt; ",{quantised},{restored}")?;
    let number = format!(in rt.alloc(); "{n}")?;
    show_report(rt, number.as_bytes(), table)
}

fn framed(
    rt: &HostRuntime,
    at: Length,
    before: &[u8],
    line: &[u8],
    after: &[u8],
) -> io::Result<()> {
    let table = table_of(rt.alloc(), at, before, line, after)?;
    judge(rt, at, &table)
}

// A line that is none: alone, first, between others, last, behind an overlap, and behind a gap. 9 everywhere.
fn malformed(rt: &HostRuntime, at: Length, line: &[u8]) -> io::Result<()> {
    framed(rt, at, b"", line, b"")?;
    framed(rt, at, b"", line, b"0,E,1\n")?;
    framed(rt, at, b"0,0,1\n", line, b"1,E,65536\n")?;
    framed(rt, at, b"0,E,3\n", line, b"")?;
    framed(rt, at, b"0,H,3\nH,E,2\n", line, b"")?;
    framed(rt, at, b"1,E,2\n", line, b"0,0,1\n")
}

// Lines that are none.
const MALFORMED: [&[u8]; 50] = [
    // Fields that are missing or too many.
    b"\n",
    b",\n",
    b",,\n",
    b"0\n",
    b"0,H\n",
    b"0,H,3,\n",
    b"0,H,3,4\n",
    b",H,3\n",
    b"0,,3\n",
    b"0,H,\n",
    b"0;H;3\n",
    b"0,H,3",
    // Bytes that are no part of a number.
    b" 0,H,3\n",
    b"0, H,3\n",
    b"0,H,3 \n",
    b"0,H,3\r\n",
    b"\t0,H,3\n",
    b"0,H,3\x00\n",
    b"0,\xffH,3\n",
    b"0,H,3.\n",
    b"0,H,1e3\n",
    b"first,last,step\n",
    b"x",
    // Numbers that are not in their form: signs and leading zeros, and too many digits or none.
    b"+0,H,3\n",
    b"0,+H,3\n",
    b"0,H,+3\n",
    b"00,H,3\n",
    b"0,0H,3\n",
    b"0,H,03\n",
    b"-0,H,3\n",
    b"0,-0,3\n",
    b"0,H,-0\n",
    b"--1,H,3\n",
    b"0,H,-\n",
    b"0,H,100000\n",
    b"0,H,4294967299\n",
    // Steps that are out of range, and first or last ones.
    b"0,H,0\n",
    b"0,H,-1\n",
    b"0,H,65537\n",
    b"0,H,99999\n",
    b"0,H,-65535\n",
    b"-1,H,3\n",
    b"-H,H,3\n",
    b"I,H,3\n",
    b"0,-1,3\n",
    b"0,M,3\n",
    b"M,M,3\n",
    b"0,W,3\n",
    b"0,B,3\n",
    b"65536,W,3\n",
];

// A table of two lines, the first up to `last` and the other from `first` on.
fn pair(rt: &HostRuntime, at: Length, last: usize, first: usize) -> io::Result<()> {
    let table = format!(in rt.alloc(); "0,{last},3\n{first},{},2\n", at.m - 1)?;
    judge(rt, at, table.as_bytes())
}

// A joint behind coefficient j: kept, overlapping by one or wholly, and with a gap.
fn joint(rt: &HostRuntime, at: Length, j: usize) -> io::Result<()>
    requires { j ≤ 108 }
{
    pair(rt, at, j, j + 1)?;
    pair(rt, at, j, j)?;
    pair(rt, at, j, 0)?;
    pair(rt, at, j, j + 2)
}

// A table with a line for each coefficient.
fn judge_lines(rt: &HostRuntime, at: Length, lines: Lines) -> io::Result<()> {
    let table = table_by_lines(rt.alloc(), at, lines)?;
    judge(rt, at, &table)
}

// With line j missing, with it doubled, and with one missing and one doubled.
fn spoilt_lines(rt: &HostRuntime, at: Length, j: usize) -> io::Result<()>
    requires { j < at.m }
{
    let lines = whole(Steps::From(1));
    let missing = Lines {
        missing: Some(j),
        ..lines
    };
    judge_lines(rt, at, missing)?;
    judge_lines(
        rt,
        at,
        Lines {
            doubled: Some(j),
            ..lines
        },
    )?;
    judge_lines(
        rt,
        at,
        Lines {
            doubled: Some(at.m - 1 - j),
            ..missing
        },
    )
}

fn joints(rt: &HostRuntime, at: Length) -> io::Result<()> {
    for j in 0..at.m {
        joint(rt, at, j)?;
        spoilt_lines(rt, at, j)?;
    }
    Ok(())
}

// Gaps and overlaps of which the first decides, 9 before them, and an end that is missing.
const CAUSES: [&[u8]; 18] = [
    b"",
    b"1,E,2\n",
    b"1,E,2\n0,0,2\n",
    b"E,E,2\nE,E,2\n",
    b"I,E,1\n0,H,1\n",
    b"0,0,1\n",
    b"0,H,1\n",
    b"0,D,1\n",
    b"0,0,1\n2,E,1\n1,1,1\n",
    b"0,0,1\n2,3,1\n3,E,1\n",
    b"0,1,1\n1,1,1\n3,E,1\n",
    b"0,E,1\n0,E,1\n",
    b"0,E,1\nE,E,1\n",
    b"0,H,3\nH,E,2\nE,E,0\n",
    b"0,H,3\nH,E,2\nE,E,1",
    b"1,H,3\nI,E,2\n\n",
    b"0,H,3\nI,D,2\n",
    b"0,E,1\n\n0,E,1\n",
];

// Tables that are taken, of one line and of two; and what they tell.
const TAKEN: [&[u8]; 6] = [
    b"0,E,1\n",
    b"0,E,2\n",
    b"0,E,3\n",
    b"0,E,65536\n",
    b"0,D,1\nE,E,65535\n",
    b"0,0,47\n1,E,46\n",
];

// Where a told distance becomes one larger: half the largest step is 7 or 8 more than a multiple of 16, and 16 or 32 more by the other routes.
const TELLINGS: [&[u8]; 9] = [
    b"0,E,15\n",
    b"0,E,16\n",
    b"0,H,17\nI,E,1\n",
    b"0,H,1\nI,E,47\n",
    b"0,E,48\n",
    b"0,E,1023\n",
    b"0,E,1024\n",
    b"0,E,65519\n",
    b"0,E,65520\n",
];

fn judge_each(rt: &HostRuntime, at: Length, tables: &[&[u8]]) -> io::Result<()> {
    for table in tables {
        framed(rt, at, *table, b"", b"")?;
    }
    Ok(())
}

// Far too many lines, alone and with a last one that is none.
fn long_table(rt: &HostRuntime, at: Length, last: &[u8]) -> io::Result<()> {
    let mut table = Vec::new(rt.alloc());
    for _ in 0..3000 {
        put(&mut table, at, b"0,E,65536\n")?;
    }
    put(&mut table, at, last)?;
    judge(rt, at, &table)
}

fn tables(rt: &HostRuntime, at: Length) -> io::Result<()> {
    for line in MALFORMED {
        malformed(rt, at, line)?;
    }
    judge_each(rt, at, &CAUSES)?;
    joints(rt, at)?;
    judge_each(rt, at, &TAKEN)?;
    for steps in [
        Steps::Mixed,
        Steps::From(1),
        Steps::From(65536),
        Steps::From(65430),
    ] {
        judge_lines(rt, at, whole(steps))?;
    }
    judge_each(rt, at, &TELLINGS)?;
    long_table(rt, at, b"")?;
    long_table(rt, at, b"0,E,0\n")
}

// Blocks: quiet, at the edge of the samples' range, of the whole range, and at its ends.
fn blocks(at: Length) -> [[i32; ROOM]; 7] {
    [
        noise::coefficients(seed(at, 100, 0), 3),
        noise::coefficients(seed(at, 100, 1), 1000),
        noise::coefficients(seed(at, 100, 2), 6000000),
        noise::coefficients(seed(at, 100, 3), 536870912),
        alternating(MOST, LEAST),
        alternating(LEAST, MOST),
        alternating(MOST - 1, LEAST + 1),
    ]
}

// Levels: of the whole range of coefficients, the ends of i32, and around where the largest step is clipped.
fn level_blocks(at: Length) -> [[i32; ROOM]; 8] {
    [
        noise::coefficients(seed(at, 100, 0), 1073741823),
        alternating(2147483647, -2147483648),
        alternating(-2147483648, 2147483647),
        alternating(8192, -8192),
        alternating(8191, -8191),
        noise::coefficients(seed(at, 100, 5), 8193),
        alternating(178956971, -178956971),
        alternating(268435456, -268435457),
    ]
}

// The levels of a block in a buffer of l marks, what the call answers, and the buffer afterwards.
fn quantised(
    rt: &impl Print,
    n: usize,
    table: &[u8],
    x: &[i32],
    l: usize,
) -> io::Result<[i32; ROOM]> {
    let mut room = [12345; ROOM];
    let levels = first_of(&mut room, l);
    let code = code(&filter_bank::quantise(n, table, x, levels));
    let shown = Entries {
        of: levels,
        most: SHOWN,
    };
    println!(rt; "levels,{code}{shown}")?;
    Ok(room)
}

fn restored(rt: &impl Print, n: usize, table: &[u8], levels: &[i32], l: usize) -> io::Result<()> {
    let mut room = [12345; ROOM];
    let out = first_of(&mut room, l);
    let code = code(&filter_bank::dequantise(n, table, levels, out));
    let shown = Entries {
        of: out,
        most: SHOWN,
    };
    println!(rt; "back,{code}{shown}")
}

// A block through level and back.
fn through(rt: &impl Print, at: Length, table: &[u8], x: [i32; ROOM]) -> io::Result<()> {
    let levels = quantised(rt, at.n, table, first(&x, at.m), at.m)?;
    restored(rt, at.n, table, first(&levels, at.m), at.m)
}

// Levels back.
fn back(rt: &impl Print, at: Length, table: &[u8], levels: [i32; ROOM]) -> io::Result<()> {
    restored(rt, at.n, table, first(&levels, at.m), at.m)
}

// All blocks by a table, and all levels.
fn levelled(rt: &impl Print, at: Length, table: &[u8]) -> io::Result<()> {
    for x in blocks(at) {
        through(rt, at, table, x)?;
    }
    for levels in level_blocks(at) {
        back(rt, at, table, levels)?;
    }
    Ok(())
}

fn levelled_by(rt: &HostRuntime, at: Length, text: &[u8]) -> io::Result<()> {
    let table = table_of(rt.alloc(), at, text, b"", b"")?;
    levelled(rt, at, &table)
}

fn levelled_by_lines(rt: &HostRuntime, at: Length, steps: Steps) -> io::Result<()> {
    let table = table_by_lines(rt.alloc(), at, whole(steps))?;
    levelled(rt, at, &table)
}

fn levels_of(rt: &HostRuntime, at: Length) -> io::Result<()> {
    levelled_by(rt, at, b"0,E,1\n")?;
    levelled_by(rt, at, b"0,E,2\n")?;
    levelled_by(rt, at, b"0,E,3\n")?;
    levelled_by(rt, at, b"0,E,7\n")?;
    levelled_by(rt, at, b"0,E,65535\n")?;
    levelled_by(rt, at, b"0,E,65536\n")?;
    levelled_by(rt, at, b"0,H,3\nI,E,65536\n")?;
    levelled_by(rt, at, b"0,0,2\n1,E,1\n")?;
    levelled_by_lines(rt, at, Steps::Mixed)?;
    levelled_by_lines(rt, at, Steps::From(1))?;
    levelled_by_lines(rt, at, Steps::From(65430))?;
    levelled_by(rt, at, b"0,E,1\n0,0,1\n")
}

// Buffers of c coefficients and l levels, with every coefficient in its range and with the first beyond it.
fn sized(rt: &impl Print, n: usize, table: &[u8], c: usize, l: usize) -> io::Result<()> {
    let x: [i32; ROOM] = noise::coefficients(9, 1000);
    quantised(rt, n, table, first(&x, c), l)?;
    quantised(rt, n, table, first(&with(x, 0, ABOVE), c), l)?;
    restored(rt, n, table, first(&x, c), l)
}

// Lengths that are one fewer, one more or none; and a coefficient beyond its range at either end, or just behind the last.
fn spoilt(rt: &impl Print, at: Length, table: &[u8]) -> io::Result<()> {
    let Length { n, m, .. } = at;
    for (c, l) in [
        (m - 1, m),
        (m + 1, m),
        (m, m - 1),
        (m, m + 1),
        (m - 1, m - 1),
        (0, m),
        (m, 0),
        (0, 0),
    ] {
        sized(rt, n, table, c, l)?;
    }
    let x = noise::coefficients(9, 1000);
    through(rt, at, table, with(x, 0, BELOW))?;
    through(rt, at, table, with(x, m - 1, ABOVE))?;
    through(rt, at, table, with(x, m, ABOVE))
}

fn spoilt_by(rt: &HostRuntime, at: Length, text: &[u8]) -> io::Result<()> {
    let table = table_of(rt.alloc(), at, text, b"", b"")?;
    spoilt(rt, at, &table)
}

// The table is tested before the lengths, and these before the coefficients.
fn refusals(rt: &HostRuntime, at: Length) -> io::Result<()> {
    spoilt_by(rt, at, b"0,E,2\n")?;
    spoilt_by(rt, at, b"0,E,2")?;
    spoilt_by(rt, at, b"0,D,2\n")?;
    spoilt_by(rt, at, b"0,E,2\n0,E,2\n")
}

// The told distance by the number of a route, with no room, room for one number and room for two, and both places afterwards.
fn tell_by(rt: &impl Print, number: u32, n: usize, table: &[u8]) -> io::Result<()> {
    print!(rt; "tell,{n},{number}")?;
    for l in 0..3 {
        let mut places = [12345; 2];
        let code = code(&filter_bank::tell(number, n, table, first_of(&mut places, l)));
        let [told, beside] = places;
        print!(rt; ",{code},{told},{beside}")?;
    }
    println!(rt; "")
}

// The numbers of the routes, and numbers of none.
fn tell_table(rt: &HostRuntime, at: Length, text: &[u8]) -> io::Result<()> {
    let table = table_of(rt.alloc(), at, text, b"", b"")?;
    for number in [0, 1, 2, 3, 4294967295] {
        tell_by(rt, number, at.n, &table)?;
    }
    Ok(())
}

// Tables that are taken, and one for each cause, which stands before the length of the room.
fn tell_tables(rt: &HostRuntime, at: Length) -> io::Result<()> {
    tell_table(rt, at, b"0,E,1\n")?;
    tell_table(rt, at, b"0,H,65536\nI,E,2\n")?;
    tell_table(rt, at, b"0,E,65537\n")?;
    tell_table(rt, at, b"")?;
    tell_table(rt, at, b"0,E,2\nE,E,2\n")
}

// A length that is not tabled: 1 with any table, and with the buffers of m.
fn untabled(rt: &HostRuntime, at: Length) -> io::Result<()> {
    framed(rt, at, b"0,E,2\n", b"", b"")?;
    framed(rt, at, b"0,E,0\n", b"", b"")?;
    framed(rt, at, b"", b"", b"")?;
    spoilt_by(rt, at, b"0,E,2\n")?;
    spoilt_by(rt, at, b"x")?;
    tell_tables(rt, at)
}

// Every step, at both ends of the range, at N = 216.
fn sweep(rt: &HostRuntime) -> io::Result<()> {
    let at = Length { n: 216, m: 108 };
    for t in 0..SWEEPS {
        let table = table_by_lines(rt.alloc(), at, whole(Steps::From(108 * t + 1)))?;
        through(rt, at, &table, alternating(MOST, LEAST))?;
        through(rt, at, &table, alternating(LEAST, MOST))?;
    }
    Ok(())
}

// The most coefficients of a line, and the largest step, of random table t.
fn reach_of(at: Length, t: usize) -> usize
    ensures { (1 ≤ result) × (result ≤ 216) }
{
    match t % 3 {
        0 => 3,
        1 => at.m / 2,
        _ => 2 * at.m,
    }
}

fn largest_of(t: usize) -> usize
    ensures { (1 ≤ result) × (result ≤ 65536) }
{
    match t / 3 % 3 {
        0 => 65536,
        1 => 300,
        _ => 4,
    }
}

// The last coefficient of a line, with so many behind its first where the table has them.
fn last_of(m: usize, first: usize, behind: usize) -> usize
    requires { (first < m) × (m ≤ 108) × (behind < 216) }
    ensures upper_bound { result < m }
    ensures lower_bound { first ≤ result }
{
    (first + behind).min(m - 1)
}

// Random table t, which is taken: lines of up to `reach` coefficients, and steps up to `largest`. Each line begins behind the last of the one before.
fn random_lines(alloc: Global, at: Length, t: usize, seed: u32) -> io::Result<Vec<u8>> {
    let mut text = Vec::new(alloc);
    let reach = reach_of(at, t);
    let largest = largest_of(t);
    let mut first = 0;
    let mut number = seed;
    while first < at.m {
        number = random(number);
        let last = last_of(at.m, first, below(number, reach));
        number = random(number);
        let step = 1 + below(number, largest);
        write!(text, "{first},{last},{step}\n")?;
        first = last + 1;
    }
    Ok(text)
}

// What bytes are changed to: those that tables are made of, or a blank, a carriage return or a plus.
const BYTES: [u8; 16] = *b"0123456789,-\n \r+";

// A table with one byte changed, or one more behind its last.
fn changed(rt: &HostRuntime, at: Length, table: &Vec<u8>, number: u32) -> io::Result<()> {
    let byte = BYTES[below(random(number), 16)];
    let mut changed = table.clone()?;
    let place = below(number, table.len().saturating_add(1));
    match changed.get_mut(place) {
        Some(old) => *old = byte,
        None => changed.push(byte)?,
    }
    judge(rt, at, &changed)
}

// Random table t: as it is, with a block through it, then cut short, and then with bytes changed.
fn random_table(rt: &HostRuntime, at: Length, t: usize) -> io::Result<()>
    requires { t < 18 }
{
    let seed = seed(at, 1000, t);
    let table = random_lines(rt.alloc(), at, t, seed)?;
    judge(rt, at, &table)?;
    through(rt, at, &table, noise::coefficients(seed, 536870912))?;
    let end = below(random(seed), table.len().saturating_add(1));
    judge(rt, at, first(&table, end))?;
    let mut number = seed;
    for _ in 0..CHANGES {
        number = random(random(number));
        changed(rt, at, &table, number)?;
    }
    Ok(())
}

fn random_tables(rt: &HostRuntime, at: Length) -> io::Result<()> {
    for t in 0..RANDOM {
        random_table(rt, at, t)?;
    }
    Ok(())
}

// What step-table prints for bytes as they are typed, which are shown by their length and their sum: for tables that are taken at 12 and at 108, and one for
// each cause.
fn typed(rt: &impl Print, number: &[u8]) -> io::Result<()> {
    let tables: [&[u8]; 5] = [b"0,5,2\n", b"0,53,3\n", b"0,5,0\n", b"", b"0,2,1\n2,5,1\n"];
    for table in tables {
        println!(rt; "typed,{},{}", number.len(), report::sum_bytes(number))?;
        show_report(rt, number, table)?;
    }
    Ok(())
}

// Lengths; then other numbers, some of which are 12 where a sign or upper bits are lost; then bytes that are no number.
const TYPED: [&[u8]; 31] = [
    b"12",
    b"24",
    b"36",
    b"72",
    b"108",
    b"216",
    b"0",
    b"1",
    b"48",
    b"144",
    b"-12",
    b"-1",
    b"268",
    b"65548",
    b"-65524",
    b"4294967308",
    b"",
    b"-",
    b"012",
    b"000012",
    b"-0",
    b"+12",
    b" 12",
    b"12 ",
    b"12\n",
    b"12\x00",
    b"12,",
    b"12.0",
    b"0x0c",
    b"\xff12",
    b"twelve",
];

// The tables of a stream.
#[derive(Clone, Copy)]
enum Table {
    // Such as are taken.
    Finest,
    Halves,
    Mixed,
    Coarsest,
    Middle,
    // 9.
    NoStep,
    // 10.
    Empty,
    // 11.
    Doubled,
    // 9.
    Unended,
    // 10.
    Gap,
}

const TAKEN_TABLES: [Table; 5] = [
    Table::Finest,
    Table::Halves,
    Table::Mixed,
    Table::Coarsest,
    Table::Middle,
];

fn stream_table(alloc: Global, at: Length, table: Table) -> io::Result<Vec<u8>> {
    let text: &[u8] = match table {
        Table::Finest => b"0,E,1\n",
        Table::Halves => b"0,H,3\nI,E,64\n",
        Table::Mixed => return table_by_lines(alloc, at, whole(Steps::Mixed)),
        Table::Coarsest => b"0,E,65536\n",
        Table::Middle => b"0,E,777\n",
        Table::NoStep => b"0,E,0\n",
        Table::Empty => b"",
        Table::Doubled => b"0,H,1\nH,E,1\n",
        Table::Unended => b"0,E,1",
        Table::Gap => b"1,E,1\n",
    };
    table_of(alloc, at, text, b"", b"")
}

// What takes steps on levels: a stream by value, or a state in place.
trait LevelSteps {
    // The number of the answer.
    fn step(&mut self, offer: Offer, table: &[u8], levels: &[i32], out: &mut [i16]) -> u32;

    fn show(&self, rt: &impl Print) -> io::Result<()>;
}

impl LevelSteps for Stream {
    fn step(&mut self, offer: Offer, table: &[u8], levels: &[i32], out: &mut [i16]) -> u32 {
        let (next, code) = stepped(filter_bank::step_levels(*self, offer, table, levels, out));
        *self = next;
        code
    }

    fn show(&self, rt: &impl Print) -> io::Result<()> {
        let sum = report::sum(&self.tail);
        println!(rt; "stream,{},{},{},{sum}", self.n, self.expected, self.shape)
    }
}

#[derive(Drop)]
struct State<'a> {
    entries: &'a mut [i64],
}

impl<'a> LevelSteps for State<'a> {
    fn step(&mut self, offer: Offer, table: &[u8], levels: &[i32], out: &mut [i16]) -> u32 {
        code(&filter_bank::step_levels_in_place(self.entries, offer, table, levels, out))
    }

    fn show(&self, rt: &impl Print) -> io::Result<()> {
        let sum = report::sum(self.entries);
        println!(rt; "state,{},{sum}", self.entries.len())
    }
}

// A step as it is offered: the first levels of a block, under its number, between its joints and by a table, and a buffer of as many marks.
#[derive(Clone, Copy)]
struct Step {
    offer: Offer,
    table: Table,
    levels: [i32; ROOM],
    count: usize,
    marks: usize,
}

fn tried<S: LevelSteps>(rt: &HostRuntime, at: Length, s: &mut S, step: Step) -> io::Result<()> {
    let table = stream_table(rt.alloc(), at, step.table)?;
    let mut room = [12345; ROOM];
    let out = first_of(&mut room, step.marks);
    let code = s.step(step.offer, &table, first(&step.levels, step.count), out);
    let hop = Entries {
        of: out,
        most: SHOWN,
    };
    println!(rt; "out,{code}{hop}")?;
    s.show(rt)
}

// The step under another number and between other joints.
fn named(step: Step, number: u32, left: u32, right: u32) -> Step {
    let joints = Joints { left, right };
    Step {
        offer: Offer { number, joints },
        ..step
    }
}

// The step by another table.
fn by(step: Step, table: Table) -> Step {
    Step { table, ..step }
}

// The step with other lengths of levels and of a hop.
fn lent(step: Step, count: usize, marks: usize) -> Step {
    Step {
        count,
        marks,
        ..step
    }
}

// Damaged steps: another number, the other left shape, no right shape, each with a table that is none; such tables with a wrong length, and alone; and wrong
// lengths alone.
fn damaged(at: Length, step: Step) -> [Step; 14] {
    let m = at.m;
    let Offer { number, joints } = step.offer;
    let Joints { left, right } = joints;
    let other = if left == LONG { SHORT } else { LONG };
    [
        by(named(step, 77, other, right), Table::NoStep),
        by(named(step, number, other, right), Table::Empty),
        by(named(step, number, left, 2), Table::Doubled),
        by(lent(step, m - 1, m), Table::Unended),
        by(lent(step, 0, m), Table::Gap),
        by(lent(step, m, m - 1), Table::NoStep),
        by(step, Table::Empty),
        by(step, Table::Doubled),
        lent(step, m - 1, m),
        lent(step, m + 1, m),
        lent(step, 0, m),
        lent(step, m, m - 1),
        lent(step, m, m + 1),
        lent(step, m, 0),
    ]
}

// Levels of block b: from quiet ones to the ends of i32.
fn stored(at: Length, b: usize) -> [i32; ROOM] {
    let seed = seed(at, 200, b % 100);
    match b % 5 {
        0 => noise::coefficients(seed, 1000000),
        1 => noise::coefficients(seed, 100000),
        2 => noise::coefficients(seed, 100),
        3 => noise::coefficients(seed, 100),
        _ => level_blocks(at)[b % 8],
    }
}

// Block b as it is offered with these levels.
fn step_of(at: Length, b: usize, levels: [i32; ROOM]) -> Step
    requires { b < 16 }
{
    let number = b as u32;
    let joints = joints_of(number);
    Step {
        offer: Offer { number, joints },
        table: TAKEN_TABLES[b % 5],
        levels,
        count: at.m,
        marks: at.m,
    }
}

// Blocks in place and by value, each behind a damaged one.
fn each_way(rt: &HostRuntime, at: Length) -> io::Result<()> {
    let mut s = fresh(at.n);
    let mut entries = fresh_state(at.n);
    let mut state = State {
        entries: &mut entries,
    };
    for b in 0..BLOCKS {
        let step = step_of(at, b, stored(at, b));
        let spoilt = damaged(at, step)[b % 14];
        tried(rt, at, &mut state, spoilt)?;
        tried(rt, at, &mut state, step)?;
        tried(rt, at, &mut s, spoilt)?;
        tried(rt, at, &mut s, step)?;
    }
    Ok(())
}

// A step on what expects block 5, by a table that is taken.
fn quiet(at: Length) -> Step {
    Step {
        offer: Offer {
            number: 5,
            joints: LONG_JOINTS,
        },
        table: Table::Halves,
        levels: noise::coefficients(3, 1000),
        count: at.m,
        marks: at.m,
    }
}

// A stream that no step can go on from: 4 before 7, 8, 9, 10, 11 and 2.
fn on_forged(rt: &HostRuntime, at: Length, v: i64) -> io::Result<()> {
    let m = at.m;
    let step = quiet(at);
    for step in [
        step,
        named(step, 6, LONG, LONG),
        named(step, 5, SHORT, 2),
        by(step, Table::NoStep),
        by(lent(step, 0, m), Table::Empty),
        by(lent(step, m, 0), Table::Doubled),
        lent(step, 0, 0),
    ] {
        tried(rt, at, &mut forged(at.n, 5, LONG, v), step)?;
    }
    Ok(())
}

// The same in place, on the first entries of a state.
fn in_forged(rt: &HostRuntime, at: Length, n: i64, v: i64) -> io::Result<()> {
    let m = at.m;
    let step = quiet(at);
    let other = by(named(step, 6, SHORT, LONG), Table::NoStep);
    for (size, step) in [
        (ENTRIES, step),
        (ENTRIES, other),
        (ENTRIES, by(named(step, 5, SHORT, LONG), Table::Empty)),
        (ENTRIES, by(lent(step, 0, m), Table::Doubled)),
        (ENTRIES, lent(step, 0, m)),
        (ENTRIES - 1, step),
        (ENTRIES + 1, other),
        (0, step),
    ] {
        let mut held = forged_state(n, 5, 0, v);
        let mut state = State {
            entries: first_of(&mut held, size),
        };
        tried(rt, at, &mut state, step)?;
    }
    Ok(())
}

// A sound tail, and one that is one beyond its limit: M times 2^55.
fn forgeries(rt: &HostRuntime, at: Length, beyond: i64) -> io::Result<()> {
    let n = 2 * at.m as i64;
    on_forged(rt, at, 1099511627776)?;
    on_forged(rt, at, beyond)?;
    in_forged(rt, at, n, 1099511627776)?;
    in_forged(rt, at, n, beyond)
}

// Block b, which covers hops b and b + 1: analysed, stored as levels by a table of its own, and played back.
fn play(rt: &HostRuntime, at: Length, s: &mut Stream, b: usize) -> io::Result<()>
    requires { b < 16 }
{
    let n = 2 * at.m;
    let x = block_of(n, b, 2000);
    let mut c = [12345; ROOM];
    let spectrum = first_of(&mut c, at.m);
    let joints = joints_of(b as u32);
    let _ = filter_bank::analyse(route_of(n, b), n, joints, first(&x, n), spectrum);
    let table = stream_table(rt.alloc(), at, TAKEN_TABLES[b % 5])?;
    let levels = quantised(rt, n, &table, spectrum, at.m)?;
    tried(rt, at, s, step_of(at, b, levels))
}

fn played(rt: &HostRuntime, at: Length) -> io::Result<()> {
    let mut s = fresh(at.n);
    for b in 0..BLOCKS {
        play(rt, at, &mut s, b)?;
    }
    Ok(())
}

// A length that is tabled, and an entry beyond the limit of its tails.
fn offered(rt: &HostRuntime, at: Length, beyond: i64) -> io::Result<()> {
    tables(rt, at)?;
    random_tables(rt, at)?;
    tell_tables(rt, at)?;
    levels_of(rt, at)?;
    refusals(rt, at)?;
    each_way(rt, at)?;
    forgeries(rt, at, beyond)?;
    played(rt, at)
}

fn main(rt: HostRuntime) -> io::Result<()> {
    offered(&rt, Length { n: 12, m: 6 }, 216172782113783809)?;
    offered(&rt, Length { n: 24, m: 12 }, 432345564227567616)?;
    offered(&rt, Length { n: 36, m: 18 }, -648518346341351425)?;
    offered(&rt, Length { n: 72, m: 36 }, 1297036692682702849)?;
    offered(&rt, Length { n: 108, m: 54 }, -1945555039024054273)?;
    offered(&rt, Length { n: 216, m: 108 }, 3891110078048108545)?;
    untabled(&rt, Length { n: 0, m: 6 })?;
    untabled(&rt, Length { n: 11, m: 6 })?;
    untabled(&rt, Length { n: 48, m: 24 })?;
    untabled(&rt, Length { n: 144, m: 72 })?;
    untabled(&rt, Length { n: 217, m: 108 })?;
    untabled(
        &rt,
        Length {
            n: usize::MAX,
            m: 36,
        },
    )?;
    on_forged(&rt, Length { n: 48, m: 24 }, 0)?;
    in_forged(&rt, Length { n: 12, m: 6 }, -12, 0)?;
    for number in TYPED {
        typed(&rt, number)?;
    }
    sweep(&rt)
}
