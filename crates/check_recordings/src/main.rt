// Whole recordings through the public calls, compared with what vectors/recordings.py makes from the definitions.
#![tactic(auto)]

ghost use Rattle.std.specs.Prelude.{◌≡◌, ◌≤◌, ◌<◌, length};

use bank_report::{
    ABOVE, BELOW, LEAST, LENGTHS, MOST, ORDERS, ROUTES, code, order_name, route_name,
};
use filter_bank::{Order, Route};
use report::Entries;
use report::buffers::{differing, first, first_of, with};
use report::noise::{Numbers, fill, offset, samples};
use std::io;

// The most hops of a recording.
const HOPS: usize = 4095;

// Room for a few hops of the longest length and for buffers that are too long.
const ROOM: usize = 330;

// The most entries of a buffer that are shown one by one: three blocks of N = 36.
const SHOWN: usize = 54;

// What a buffer of samples holds before a call, and one of coefficients.
const MARK: i16 = 12345;

const MARKS: i32 = 12345;

// A coefficient of the range changed by -span .. span.
fn changed(v: i32, number: u32, span: u32) -> i32
    requires { span ≤ 32768 }
{
    if v < LEAST || MOST < v {
        return v;
    }
    v + offset(u64::from(number / 65536), span)
}

// Every coefficient changed.
fn change(c: &mut [i32], seed: u32, span: u32)
    requires { span ≤ 32768 }
    ensures { length c.new ≡ length c.old }
{
    for (coefficient, number) in c.iter_mut().zip(Numbers::behind(seed)) {
        *coefficient = changed(*coefficient, number, span);
    }
}

// One call each: what it was handed, its number, and the buffer afterwards.
fn analysed(
    rt: &impl Print,
    route: Route,
    order: Order,
    n: usize,
    hops: usize,
    x: &[i16],
    out: &mut [i32],
) -> io::Result<()> {
    let code = code(&filter_bank::analyse_recording(route, order, n, hops, x, out));
    let route = route_name(route);
    let order = order_name(order);
    let shown = Entries {
        of: out,
        most: SHOWN,
    };
    println!(rt; "{route},{order},{n},{hops},{},{code}{shown}", x.len())
}

fn synthesised(
    rt: &impl Print,
    order: Order,
    n: usize,
    hops: usize,
    c: &[i32],
    out: &mut [i16],
) -> io::Result<()> {
    let code = code(&filter_bank::synthesise_recording(order, n, hops, c, out));
    let order = order_name(order);
    let shown = Entries {
        of: out,
        most: SHOWN,
    };
    println!(rt; "synthesis,{order},{n},{hops},{},{code}{shown}", c.len())
}

fn reordered(
    rt: &impl Print,
    to: Order,
    n: usize,
    hops: usize,
    c: &[i32],
    out: &mut [i32],
) -> io::Result<()> {
    let code = code(&filter_bank::reorder(to, n, hops, c, out));
    let order = order_name(to);
    let shown = Entries {
        of: out,
        most: SHOWN,
    };
    println!(rt; "reorder,{order},{n},{hops},{},{code}{shown}", c.len())
}

// The inner part of a buffer.
fn viewed(rt: &impl Print, n: usize, hops: usize, out: &[i16]) -> io::Result<()> {
    let part = filter_bank::inner(n, hops, out);
    let shown = Entries {
        of: part,
        most: SHOWN,
    };
    println!(rt; "inner,{n},{hops},{}{shown}", part.len())
}

// A recording: the length of its blocks, its hops and its samples.
#[derive(Clone, Copy)]
struct Recording<'a> {
    n: usize,
    hops: usize,
    x: &'a [i16],
}

// Coefficients back to samples, the inner part against the recording, and marks at every place: what the next call writes is seen.
fn back(
    rt: &impl Print,
    order: Order,
    of: Recording,
    c: &[i32],
    out: &mut [i16],
) -> io::Result<()> {
    let Recording { n, hops, x } = of;
    synthesised(rt, order, n, hops, c, out)?;
    println!(rt; "differ,{}", differing(x, filter_bank::inner(n, hops, out)))?;
    viewed(rt, n, hops, out)?;
    out.fill(MARK);
    Ok(())
}

// A recording there and back in both orders: by its coefficients as they are, ..
fn as_they_are(
    rt: &impl Print,
    route: Route,
    of: Recording,
    c: &mut [i32],
    d: &mut [i32],
    out: &mut [i16],
) -> io::Result<()> {
    let Recording { n, hops, x } = of;
    analysed(rt, route, Order::ByBlock, n, hops, x, c)?;
    back(rt, Order::ByBlock, of, c, out)?;
    analysed(rt, route, Order::ByFrequency, n, hops, x, d)?;
    back(rt, Order::ByFrequency, of, d, out)
}

// .. changed a little, brought to the other order and back again over others, ..
fn changed_a_little(
    rt: &impl Print,
    of: Recording,
    c: &mut [i32],
    d: &mut [i32],
    out: &mut [i16],
) -> io::Result<()> {
    let Recording { n, hops, .. } = of;
    change(c, 3, 7);
    reordered(rt, Order::ByFrequency, n, hops, c, d)?;
    back(rt, Order::ByFrequency, of, d, out)?;
    change(c, 5, 32768);
    reordered(rt, Order::ByBlock, n, hops, d, c)
}

// .. changed much, and with the last out of range, which is the same in both orders.
fn changed_much(
    rt: &impl Print,
    of: Recording,
    c: &mut [i32],
    d: &mut [i32],
    out: &mut [i16],
) -> io::Result<()> {
    let Recording { n, hops, .. } = of;
    change(d, 4, 5000);
    reordered(rt, Order::ByBlock, n, hops, d, c)?;
    back(rt, Order::ByBlock, of, c, out)?;
    if let Some(last) = d.last_mut() {
        *last = ABOVE;
    }
    reordered(rt, Order::ByBlock, n, hops, d, c)?;
    back(rt, Order::ByFrequency, of, d, out)
}

fn there_and_back(rt: &HostRuntime, route: Route, of: Recording) -> io::Result<()> {
    let l = of.x.len();
    let m = l.saturating_add(of.n / 2);
    let mut c = vec![in rt.alloc(); MARKS; m]?;
    let mut d = vec![in rt.alloc(); MARKS; m]?;
    let mut out = vec![in rt.alloc(); MARK; l]?;
    as_they_are(rt, route, of, &mut c, &mut d, &mut out)?;
    changed_a_little(rt, of, &mut c, &mut d, &mut out)?;
    changed_much(rt, of, &mut c, &mut d, &mut out)
}

// A recording of noise.
fn noisy(rt: &HostRuntime, route: Route, n: usize, hops: usize, span: u32) -> io::Result<()>
    requires { (n ≤ 216) × (hops ≤ 4096) × (span ≤ 32768) }
{
    let mut x = vec![in rt.alloc(); 0i16; hops * (n / 2)]?;
    fill(&mut x, (n + hops) as u32, span);
    there_and_back(rt, route, Recording { n, hops, x: &x })
}

// Silence but for a click in the first sample and one in the last.
fn clicked(rt: &HostRuntime, route: Route, n: usize, hops: usize) -> io::Result<()>
    requires { (n ≤ 216) × (hops ≤ 4096) }
{
    let mut x = vec![in rt.alloc(); 0i16; hops * (n / 2)]?;
    if let Some(first) = x.first_mut() {
        *first = i16::MAX;
    }
    if let Some(last) = x.last_mut() {
        *last = i16::MIN;
    }
    there_and_back(rt, route, Recording { n, hops, x: &x })
}

// Recordings of few hops, from quiet to the loudest, of the most, and of none and one too many.
fn recordings(rt: &HostRuntime, route: Route, n: usize) -> io::Result<()>
    requires { n ≤ 216 }
{
    noisy(rt, route, n, 1, 32768)?;
    noisy(rt, route, n, 2, 32768)?;
    noisy(rt, route, n, 3, 32768)?;
    noisy(rt, route, n, 1, 1)?;
    noisy(rt, route, n, 2, 100)?;
    noisy(rt, route, n, 1, 0)?;
    noisy(rt, route, n, 3, 0)?;
    clicked(rt, route, n, 1)?;
    clicked(rt, route, n, 2)?;
    clicked(rt, route, n, 3)?;
    clicked(rt, route, n, HOPS)?;
    noisy(rt, route, n, HOPS, 32768)?;
    noisy(rt, route, n, 0, 32768)?;
    noisy(rt, route, n, HOPS + 1, 32768)
}

// A few hops of noise.
fn sound() -> [i16; ROOM] {
    samples(5, 32768)
}

// Coefficients of noise with v in one place.
fn noise_with(place: usize, v: i32) -> [i32; ROOM] {
    let mut c = [0; ROOM];
    change(&mut c, 9, 30000);
    with(c, place, v)
}

// What a call is lent: a length, a number of hops, and so many samples and coefficients.
#[derive(Clone, Copy)]
struct Lent {
    n: usize,
    hops: usize,
    l: usize,
    m: usize,
}

fn offer(rt: &impl Print, route: Route, order: Order, lent: Lent) -> io::Result<()> {
    let x = sound();
    let mut room = [MARKS; ROOM];
    let out = first_of(&mut room, lent.m);
    analysed(rt, route, order, lent.n, lent.hops, first(&x, lent.l), out)
}

fn play(rt: &impl Print, order: Order, lent: Lent, c: [i32; ROOM]) -> io::Result<()> {
    let mut room = [MARK; ROOM];
    let out = first_of(&mut room, lent.l);
    synthesised(rt, order, lent.n, lent.hops, first(&c, lent.m), out)
}

// In an order the calls on coefficients in range and with one that is not.
fn ordered(rt: &impl Print, order: Order, lent: Lent) -> io::Result<()> {
    for route in ROUTES {
        offer(rt, route, order, lent)?;
    }
    play(rt, order, lent, noise_with(0, 1))?;
    play(rt, order, lent, noise_with(0, BELOW))
}

// Every call, and the inner part of l samples.
fn every(rt: &impl Print, lent: Lent) -> io::Result<()> {
    for order in ORDERS {
        ordered(rt, order, lent)?;
    }
    let out = sound();
    viewed(rt, lent.n, lent.hops, first(&out, lent.l))
}

// A call that brings `from` coefficients to an order, into a buffer of `to` marks.
fn bring(
    rt: &impl Print,
    order: Order,
    n: usize,
    hops: usize,
    c: [i32; ROOM],
    from: usize,
    to: usize,
) -> io::Result<()> {
    let mut room = [MARKS; ROOM];
    let out = first_of(&mut room, to);
    reordered(rt, order, n, hops, first(&c, from), out)
}

// Coefficients in range and with one that is not.
fn exchange(rt: &impl Print, n: usize, hops: usize, from: usize, to: usize) -> io::Result<()> {
    for c in [noise_with(0, 1), noise_with(0, BELOW)] {
        for order in ORDERS {
            bring(rt, order, n, hops, c, from, to)?;
        }
    }
    Ok(())
}

// Coefficients that are one fewer, one more or none, on either side and on both; the stated length last.
fn exchanges(rt: &impl Print, n: usize, hops: usize, m: usize) -> io::Result<()>
    requires { (1 ≤ m) × (m < 330) }
{
    for (from, to) in [
        (m - 1, m),
        (m + 1, m),
        (0, m),
        (m, m - 1),
        (m, m + 1),
        (m, 0),
        (m - 1, m - 1),
        (m + 1, m + 1),
        (0, 0),
        (m, m),
    ] {
        exchange(rt, n, hops, from, to)?;
    }
    Ok(())
}

// Samples and coefficients that are one fewer, one more, none, or one in place of the other; the stated lengths last.
fn lengths(rt: &impl Print, stated: Lent) -> io::Result<()>
    requires { (1 ≤ stated.l) × (stated.l < 330) × (1 ≤ stated.m) × (stated.m < 330) }
{
    let Lent { n, hops, l, m } = stated;
    for (l, m) in [
        (l - 1, m),
        (l + 1, m),
        (0, m),
        (l, m - 1),
        (l, m + 1),
        (l, 0),
        (l - 1, m - 1),
        (l + 1, m + 1),
        (0, 0),
        (m, l),
        (l, l),
        (m, m),
        (l, m),
    ] {
        every(rt, Lent { n, hops, l, m })?;
    }
    exchanges(rt, n, hops, m)
}

// A number of hops that is not taken: with buffers of one hop, of none, and with no buffers.
fn wrong_count(rt: &impl Print, n: usize, m: usize, hops: usize) -> io::Result<()>
    requires { m ≤ 108 }
{
    for (l, m) in [(m, 2 * m), (0, m), (0, 0)] {
        every(rt, Lent { n, hops, l, m })?;
    }
    exchange(rt, n, hops, 2 * m, 2 * m)?;
    exchange(rt, n, hops, 0, 0)
}

// None, one too many, and numbers that pass for 0 or 1 where upper bits are lost: as they are, with 1 added or times M.
fn wrong_counts(rt: &impl Print, n: usize, m: usize) -> io::Result<()>
    requires { m ≤ 108 }
{
    for hops in [
        0,
        HOPS + 1,
        4294967297,
        9223372036854775808,
        9223372036854775809,
        18446744073709551615,
    ] {
        wrong_count(rt, n, m, hops)?;
    }
    Ok(())
}

// The coefficient v in a place of three blocks, or just past them.
fn limited(rt: &impl Print, n: usize, place: usize, v: i32) -> io::Result<()>
    requires { n ≤ 216 }
{
    let l = 2 * (n / 2);
    let m = 3 * (n / 2);
    let hops = 2;
    let c = noise_with(place, v);
    for order in ORDERS {
        play(rt, order, Lent { n, hops, l, m }, c)?;
    }
    for order in ORDERS {
        bring(rt, order, n, hops, c, m, m)?;
    }
    Ok(())
}

// In the first place of each block and in the last but that of the second, and just past them, where it is no cause.
fn limit(rt: &impl Print, n: usize, v: i32) -> io::Result<()>
    requires { (2 ≤ n) × (n ≤ 216) }
{
    let m = n / 2;
    for place in [0, m - 1, m, 2 * m, 3 * m - 1, 3 * m] {
        limited(rt, n, place, v)?;
    }
    Ok(())
}

// What is refused at a length.
fn refused(rt: &impl Print, n: usize) -> io::Result<()>
    requires { (2 ≤ n) × (n ≤ 216) }
{
    let m = n / 2;
    lengths(
        rt,
        Lent {
            n,
            hops: 1,
            l: m,
            m: 2 * m,
        },
    )?;
    lengths(
        rt,
        Lent {
            n,
            hops: 2,
            l: 2 * m,
            m: 3 * m,
        },
    )?;
    wrong_counts(rt, n, m)?;
    for v in [MOST, ABOVE, LEAST, BELOW, i32::MAX, i32::MIN] {
        limit(rt, n, v)?;
    }
    Ok(())
}

// A length by the first routes, of which each is offered.
fn tabled(rt: &HostRuntime, n: usize, routes: usize) -> io::Result<()>
    requires { (2 ≤ n) × (n ≤ 216) }
{
    for route in first(&ROUTES, routes) {
        recordings(rt, *route, n)?;
    }
    refused(rt, n)
}

// A length that is not tabled: with the buffers of two hops of every length that is, with its own, and with everything else wrong too.
fn untabled(rt: &impl Print, n: usize, m: usize) -> io::Result<()>
    requires { m ≤ 108 }
{
    let hops = 2;
    for l in LENGTHS {
        let m = l / 2 * 3;
        every(rt, Lent { n, hops, l, m })?;
    }
    lengths(
        rt,
        Lent {
            n,
            hops,
            l: 2 * m + 1,
            m: 3 * m + 1,
        },
    )?;
    wrong_counts(rt, n, m)
}

fn main(rt: HostRuntime) -> io::Result<()> {
    tabled(&rt, 12, 2)?;
    tabled(&rt, 24, 2)?;
    tabled(&rt, 36, 3)?;
    tabled(&rt, 72, 3)?;
    tabled(&rt, 108, 1)?;
    tabled(&rt, 216, 1)?;
    untabled(&rt, 0, 0)?;
    untabled(&rt, 11, 5)?;
    untabled(&rt, 48, 24)?;
    untabled(&rt, usize::MAX, 36)?;
    untabled(&rt, 144, 72)?;
    untabled(&rt, 217, 108)
}
