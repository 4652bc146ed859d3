// Pages through the public call, compared with what vectors/page.py makes from the definitions.
#![tactic(auto)]

ghost use Rattle.std.specs.Prelude.{◌≤◌, ◌<◌};

use bank_report::{ABOVE, BELOW, LEAST, LENGTHS, MOST, ORDERS, code, order_name};
use filter_bank::{Order, Route};
use report::buffers::{first, first_of, with};
use report::noise::{Numbers, offset, samples};
use std::io;

// The most hops of a recording.
const HOPS: usize = 4095;

// Room for the coefficients of a few hops of the longest length, and for buffers that are too long.
const SMALL: usize = 440;

// Room for the coefficients of one hop too many at the shortest length, and so of 454 and 226 hops at the two longest.
const LONG: usize = 24582;

// The longest page that is shown whole: two blocks of N = 72.
const SHOWN: usize = 972;

// The last three lines of a page.
const LAST: usize = 243;

// What a buffer holds before a call.
const MARK: u8 = b'.';

// The powers of ten within a coefficient's range.
const POWERS: [i32; 9] = [
    1, 10, 100, 1000, 10000, 100000, 1000000, 10000000, 100000000,
];

// What coefficients are made up: all of them 0, at the ends of their range, anywhere in it, or beside a power of ten.
#[derive(Clone, Copy)]
enum Kind {
    Zero,
    Loud,
    Wide,
    Tens,
}

// A power of ten or the number below it, with either sign.
fn beside_ten(number: u32) -> i32 {
    let power = POWERS[(number / 65536 % 9) as usize];
    match number / 589824 % 4 {
        0 => -power,
        1 => 1 - power,
        2 => power - 1,
        _ => power,
    }
}

// A coefficient of a kind.
fn made(kind: Kind, number: u32) -> i32 {
    match kind {
        Kind::Zero => 0,
        Kind::Loud if number / 65536 % 2 == 0 => LEAST,
        Kind::Loud => MOST,
        Kind::Wide => offset(u64::from(number), 536870912),
        Kind::Tens => beside_ten(number),
    }
}

// Coefficients of a kind at every place.
fn coefficients<const N: usize>(kind: Kind, seed: u32) -> [i32; N] {
    let mut c = [0; N];
    for (coefficient, number) in c.iter_mut().zip(Numbers::behind(seed)) {
        *coefficient = made(kind, number);
    }
    c
}

// What a page is asked of: a length, a number of hops, so many coefficients, and room for so many bytes.
#[derive(Clone, Copy)]
struct Lent {
    n: usize,
    hops: usize,
    count: usize,
    bytes: usize,
}

// What was printed: a page whole, and of a long one its last lines.
fn show(rt: &impl Print, page: &[u8]) -> io::Result<()> {
    if page.len() <= SHOWN {
        return rt.write_all(page);
    }
    rt.write_all(&page[page.len() - LAST..])
}

// One call on a buffer of marks: what it was handed, its number, the buffer afterwards by its length and its sum, and the page if there is one.
fn printed(rt: &HostRuntime, order: Order, lent: Lent, c: &[i32]) -> io::Result<()> {
    let Lent { n, hops, .. } = lent;
    let x = first(c, lent.count);
    let mut out = vec![in rt.alloc(); MARK; lent.bytes]?;
    let outcome = page::page(order, n, hops, x, &mut out);
    let code = code(&outcome);
    let order = order_name(order);
    let sum = report::sum_bytes(&out);
    println!(rt;
        "page,{order},{n},{hops},{},{code},{},{sum}",
        x.len(),
        out.len()
    )?;
    if outcome.is_ok() {
        show(rt, &out)?;
    }
    Ok(())
}

// The same numbers taken in one order and in the other: two pages.
fn offer(rt: &HostRuntime, lent: Lent, c: &[i32]) -> io::Result<()> {
    for order in ORDERS {
        printed(rt, order, lent, c)?;
    }
    Ok(())
}

// A page of the coefficients of a recording, from either order; of marks where the route is not offered.
fn recorded(
    rt: &HostRuntime,
    route: Route,
    lent: Lent,
    x: [i16; SMALL],
    samples: usize,
) -> io::Result<()> {
    let Lent { n, hops, count, .. } = lent;
    for order in ORDERS {
        let mut room = [12345; SMALL];
        let c = first_of(&mut room, count);
        let x = first(&x, samples);
        let _ = filter_bank::analyse_recording(route, order, n, hops, x, c);
        printed(rt, order, lent, c)?;
    }
    Ok(())
}

// What the pages of so many hops of m are lent.
fn stated(n: usize, m: usize, hops: usize) -> Lent
    requires { (m ≤ 108) × (hops ≤ 3) }
{
    let blocks = hops + 1;
    Lent {
        n,
        hops,
        count: blocks * m,
        bytes: 81 * blocks * (m / 6),
    }
}

// Pages of coefficients of each kind, and of those of a recording: silence, noise, and noise as loud as can be.
fn pages(rt: &HostRuntime, n: usize, hops: usize) -> io::Result<()>
    requires { (n ≤ 216) × (hops ≤ 3) }
{
    let m = n / 2;
    let lent = stated(n, m, hops);
    let seed = (n + hops) as u32;
    for kind in [Kind::Zero, Kind::Loud, Kind::Wide, Kind::Tens] {
        let c: [i32; SMALL] = coefficients(kind, seed);
        offer(rt, lent, &c)?;
    }
    let count = hops * m;
    recorded(rt, Route::Direct, lent, [0; SMALL], count)?;
    recorded(rt, Route::Direct, lent, samples(seed, 32768), count)?;
    recorded(rt, Route::Direct, lent, samples(seed, 0), count)?;
    recorded(rt, Route::Short, lent, samples(seed, 0), count)
}

// Coefficients anywhere in their range, with v in one place.
fn wide_with(place: usize, v: i32) -> [i32; SMALL] {
    with(coefficients(Kind::Wide, 9), place, v)
}

// Coefficients in their range, and with the first beyond it.
fn every(rt: &HostRuntime, n: usize, hops: usize, count: usize, bytes: usize) -> io::Result<()> {
    let lent = Lent {
        n,
        hops,
        count,
        bytes,
    };
    offer(rt, lent, &wide_with(0, 1))?;
    offer(rt, lent, &wide_with(0, BELOW))
}

// Coefficients and bytes that are one fewer, one more, none, or of another line or block; the stated lengths last.
fn lengths(rt: &HostRuntime, lent: Lent) -> io::Result<()> {
    let Lent {
        n,
        hops,
        count: l,
        bytes: p,
    } = lent;
    for (count, bytes) in [
        (l.saturating_sub(1), p),
        (l.saturating_add(1), p),
        (0, p),
        (l, p.saturating_sub(1)),
        (l, p.saturating_add(1)),
        (l, 0),
        (l.saturating_sub(6), p.saturating_sub(81)),
        (l.saturating_add(6), p.saturating_add(81)),
        (l, p.saturating_sub(81)),
        (l, p.saturating_add(81)),
        (0, 0),
        (l, p),
    ] {
        every(rt, n, hops, count, bytes)?;
    }
    Ok(())
}

// Numbers of hops that are not taken, with the buffers of one hop, of one block, and with none: none, one too many, and such as pass for 0 or 1 where upper
// bits are lost: as they are, with 1 added or multiplied.
fn wrong_counts(rt: &HostRuntime, n: usize, m: usize) -> io::Result<()>
    requires { m ≤ 108 }
{
    let w = m / 6;
    for hops in [
        0,
        HOPS + 1,
        4294967297,
        9223372036854775808,
        9223372036854775809,
        18446744073709551615,
    ] {
        every(rt, n, hops, 2 * m, 162 * w)?;
        every(rt, n, hops, m, 81 * w)?;
        every(rt, n, hops, 0, 0)?;
    }
    Ok(())
}

// A coefficient at the ends of the first block and of the last, of two, and just past them, where it is no cause: just in its range, just beyond it, and far
// beyond.
fn limits(rt: &HostRuntime, n: usize) -> io::Result<()>
    requires { (2 ≤ n) × (n ≤ 216) }
{
    let m = n / 2;
    let lent = stated(n, m, 1);
    for v in [MOST, ABOVE, LEAST, BELOW, i32::MAX, i32::MIN] {
        for place in [0, m - 1, m, 2 * m - 1, 2 * m] {
            offer(rt, lent, &wide_with(place, v))?;
        }
    }
    Ok(())
}

// Pages of a length, and what is refused at it.
fn tabled(rt: &HostRuntime, n: usize) -> io::Result<()>
    requires { (12 ≤ n) × (n ≤ 216) }
{
    pages(rt, n, 1)?;
    pages(rt, n, 2)?;
    pages(rt, n, 3)?;
    lengths(rt, stated(n, n / 2, 1))?;
    lengths(rt, stated(n, n / 2, 2))?;
    wrong_counts(rt, n, n / 2)?;
    limits(rt, n)
}

// A length that is not tabled: with the buffers of one hop of every length that is, of its own, and with everything else wrong too.
fn untabled(rt: &HostRuntime, n: usize, m: usize) -> io::Result<()>
    requires { m ≤ 108 }
{
    for length in LENGTHS {
        every(rt, n, 1, length, length / 12 * 162)?;
    }
    lengths(
        rt,
        Lent {
            n,
            hops: 1,
            count: 2 * m + 6,
            bytes: 162 * (m / 6) + 81,
        },
    )?;
    wrong_counts(rt, n, m)
}

// A page of many hops, of coefficients anywhere in their range with v in one place.
fn long(
    rt: &HostRuntime,
    n: usize,
    hops: usize,
    place: usize,
    v: i32,
    count: usize,
    bytes: usize,
) -> io::Result<()> {
    let c: [i32; LONG] = with(coefficients(Kind::Wide, 3), place, v);
    offer(
        rt,
        Lent {
            n,
            hops,
            count,
            bytes,
        },
        &c,
    )
}

// The most hops: in range, with the last coefficient beyond it, and with one just past the last; and one hop more. At the two longest lengths as many as fit
// the same room.
fn longest(rt: &HostRuntime) -> io::Result<()> {
    long(rt, 12, HOPS, 24575, 7, 24576, 331776)?;
    long(rt, 12, HOPS, 24575, ABOVE, 24576, 331776)?;
    long(rt, 12, HOPS, 24576, ABOVE, 24576, 331776)?;
    long(rt, 12, HOPS + 1, 24581, 7, 24582, 331857)?;
    long(rt, 108, 454, 0, 7, 24570, 331695)?;
    long(rt, 216, 226, 0, 7, 24516, 330966)
}

fn main(rt: HostRuntime) -> io::Result<()> {
    tabled(&rt, 12)?;
    tabled(&rt, 24)?;
    tabled(&rt, 36)?;
    tabled(&rt, 72)?;
    tabled(&rt, 108)?;
    tabled(&rt, 216)?;
    untabled(&rt, 0, 0)?;
    untabled(&rt, 11, 5)?;
    untabled(&rt, 48, 24)?;
    untabled(&rt, usize::MAX, 36)?;
    untabled(&rt, 144, 72)?;
    untabled(&rt, 217, 108)?;
    longest(&rt)
}
