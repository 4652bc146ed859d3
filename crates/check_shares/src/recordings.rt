// Which coefficient moved a sample of a recording: the calls over recordings, from either order.
ghost use Rattle.std.specs.Prelude.{◌≤◌, ◌<◌};

use crate::{CHOICES, NUMBERS, causes_by, either, show, show_named};
use bank_report::{ABOVE, BELOW, ORDERS, order_name};
use filter_bank::Order;
use report::buffers::{first, first_of, with};
use report::noise::coefficients;
use share_calls::Change;
use std::io;

// Room for the coefficients of one hop too many at the shortest length, and so of 681 and 226 hops at N = 72 and 216.
const MANY: usize = 24582;

// A recording, in an order: the length of its blocks and its hops.
#[derive(Clone, Copy)]
struct Recording {
    order: Order,
    n: usize,
    hops: usize,
}

// A sample of it: its hop, and its place there.
#[derive(Clone, Copy)]
struct Sample {
    of: Recording,
    hop: usize,
    place: usize,
}

// Behind the word for a case: what both calls are asked and what they answer, with room for some of four numbers.
fn lend(rt: &impl Print, sample: Sample, x: &[i32], y: &[i32], room: usize) -> io::Result<()> {
    let Sample { of, hop, place } = sample;
    let Recording { order, n, hops } = of;
    let change = Change {
        original: x,
        changed: y,
    };
    let name = order_name(order);
    print!(rt; ",{name},{n},{hops},{hop},{place}")?;
    show(
        rt,
        filter_bank::largest_share_recording(order, n, hops, change, hop, place),
    )?;
    let mut named = [12345; NUMBERS];
    let lent = first_of(&mut named, room);
    let outcome = filter_bank::name_share_recording(order, n, hops, change, hop, place, lent);
    show_named(rt, outcome, named)
}

// Where coefficient k of block b lies.
fn lies(order: Order, m: usize, hops: usize, b: usize, k: usize) -> usize
    requires { (m ≤ 108) × (hops ≤ 4095) × (b ≤ 4095) × (k ≤ 108) }
{
    match order {
        Order::ByBlock => b * m + k,
        Order::ByFrequency => k * (hops + 1) + b,
    }
}

// Every one of l coefficients changes at random: the same numbers, taken in either order.
fn noisy(rt: &impl Print, sample: Sample, l: usize, span: u32) -> io::Result<()>
    requires { span < 1073741824 }
{
    let x: [i32; MANY] = coefficients(5, span);
    let y: [i32; MANY] = coefficients(6, span);
    print!(rt; "recording,noise,{span}")?;
    lend(rt, sample, first(&x, l), first(&y, l), 3)
}

fn still(rt: &impl Print, sample: Sample, l: usize) -> io::Result<()> {
    let x: [i32; MANY] = coefficients(7, 536870912);
    print!(rt; "recording,still")?;
    lend(rt, sample, first(&x, l), first(&x, l), 3)
}

// Coefficient k of block b changes, and no other: the same answer from either order.
fn one(rt: &impl Print, sample: Sample, m: usize, l: usize, b: usize, k: usize) -> io::Result<()>
    requires { (m ≤ 108) × (sample.of.hops ≤ 4095) × (b ≤ 4095) × (k ≤ 108) }
{
    let x: [i32; MANY] = coefficients(7, 536870912);
    let y = with(x, lies(sample.of.order, m, sample.of.hops, b, k), 0);
    print!(rt; "recording,one,{b},{k}")?;
    lend(rt, sample, first(&x, l), first(&y, l), 3)
}

// Changes everywhere, none, one in the earlier block, one in the later, and one in a block that does not cover the hop if there is any.
fn at_hop(rt: &impl Print, of: Recording, l: usize, hop: usize) -> io::Result<()>
    requires { (2 ≤ of.n) × (of.n ≤ 216) × (of.hops ≤ 4095) × (hop < of.hops) }
{
    let m = of.n / 2;
    let front = Sample { of, hop, place: 0 };
    let inner = Sample { of, hop, place: 1 };
    let back = Sample {
        of,
        hop,
        place: m - 1,
    };
    noisy(rt, front, l, 536870912)?;
    noisy(rt, back, l, 1000)?;
    still(rt, inner, l)?;
    one(rt, front, m, l, hop, m - 1)?;
    one(rt, back, m, l, hop + 1, 0)?;
    one(rt, inner, m, l, (hop + 2) % (of.hops + 1), m / 2)
}

// The first hop, one in the middle and the last.
fn over(rt: &impl Print, n: usize, hops: usize) -> io::Result<()>
    requires { (2 ≤ n) × (n ≤ 216) × (1 ≤ hops) × (hops ≤ 4095) }
{
    let l = (hops + 1) * (n / 2);
    for hop in [0, hops / 2, hops - 1] {
        let hop = hop.min(hops - 1);
        for order in ORDERS {
            at_hop(rt, Recording { order, n, hops }, l, hop)?;
        }
    }
    Ok(())
}

// Lists of p and q coefficients, and a room.
fn sized(rt: &impl Print, sample: Sample, p: usize, q: usize, room: usize) -> io::Result<()> {
    let x: [i32; MANY] = coefficients(3, 1000);
    let y: [i32; MANY] = coefficients(4, 1000);
    print!(rt; "recording,sized,{p},{q},{room}")?;
    lend(rt, sample, first(&x, p), first(&y, q), room)
}

// Hops and places outside the recording, and the last of each.
fn outside(rt: &impl Print, of: Recording, l: usize) -> io::Result<()>
    requires { (2 ≤ of.n) × (of.n ≤ 216) × (1 ≤ of.hops) × (of.hops ≤ 4095) }
{
    let m = of.n / 2;
    let hops = of.hops;
    for (hop, place) in [
        (hops, 0),
        (hops + 1, 0),
        (4294967296, 0),
        (18446744073709551615, 0),
        (0, m),
        (0, m + 1),
        (0, 18446744073709551615),
        (hops - 1, m - 1),
    ] {
        sized(rt, Sample { of, hop, place }, l, l, 3)?;
    }
    Ok(())
}

// The first sample of as many hops.
fn front(of: Recording, hops: usize) -> Sample {
    Sample {
        of: Recording { hops, ..of },
        hop: 0,
        place: 0,
    }
}

// Numbers of hops that are not those of the lists, some of which pass for them where upper bits are lost.
fn counts(rt: &impl Print, of: Recording, l: usize) -> io::Result<()>
    requires { (1 ≤ of.hops) × (of.hops ≤ 4095) }
{
    for hops in [
        0,
        of.hops - 1,
        of.hops + 1,
        4294967296 + of.hops,
        9223372036854775808 + of.hops,
    ] {
        sized(rt, front(of, hops), l, l, 3)?;
    }
    sized(rt, front(of, usize::MAX), 0, 0, 3)
}

// Lists that are one shorter, one longer or empty, and other rooms.
fn lengths(rt: &impl Print, of: Recording, l: usize) -> io::Result<()>
    requires { (1 ≤ l) × (l < 24582) }
{
    for (p, q, room) in [
        (l - 1, l, 3),
        (l + 1, l, 3),
        (0, l, 3),
        (l, l - 1, 3),
        (l, l + 1, 3),
        (l, 0, 3),
        (l, l, 0),
        (l, l, 2),
        (l, l, 4),
    ] {
        sized(rt, front(of, of.hops), p, q, room)?;
    }
    Ok(())
}

// The coefficient v in one place of both lists in turn.
fn beyond(rt: &impl Print, of: Recording, l: usize, at: usize, v: i32) -> io::Result<()> {
    let x: [i32; MANY] = coefficients(3, 1000);
    let y: [i32; MANY] = coefficients(4, 1000);
    let sample = Sample {
        of,
        hop: 0,
        place: 1,
    };
    print!(rt; "recording,original,{at},{v}")?;
    lend(rt, sample, first(&with(x, at, v), l), first(&y, l), 3)?;
    print!(rt; "recording,changed,{at},{v}")?;
    lend(rt, sample, first(&x, l), first(&with(y, at, v), l), 3)
}

// In the first place, in the middle and in the last, which is far from the two blocks of the first hop; just behind it is not looked at, and at the limit taken.
fn limits(rt: &impl Print, of: Recording, l: usize) -> io::Result<()>
    requires { 1 ≤ l }
{
    for (at, v) in [
        (0, BELOW),
        (l - 1, ABOVE),
        (l / 2, i32::MIN),
        (l, ABOVE),
        (0, BELOW + 1),
        (l - 1, ABOVE - 1),
    ] {
        beyond(rt, of, l, at, v)?;
    }
    Ok(())
}

fn refused(rt: &impl Print, n: usize, hops: usize, l: usize) -> io::Result<()>
    requires { (2 ≤ n) × (n ≤ 216) × (1 ≤ hops) × (hops ≤ 4095) × (1 ≤ l) × (l < 24582) }
{
    for order in ORDERS {
        let of = Recording { order, n, hops };
        outside(rt, of, l)?;
        counts(rt, of, l)?;
        lengths(rt, of, l)?;
        limits(rt, of, l)?;
    }
    Ok(())
}

// Three hops of N = 24, of which the last is meant, with a choice of causes: the coefficient is one of block 0.
fn causes_of(rt: &impl Print, order: Order, choice: usize) -> io::Result<()> {
    let causes = causes_by(choice);
    let of = Recording {
        order,
        n: either(causes.length, 25, 24),
        hops: 3,
    };
    let sample = Sample {
        of,
        hop: either(causes.shape_or_hop, 3, 2),
        place: either(causes.place, 12, 11),
    };
    let l = either(causes.lists, 47, 48);
    let x: [i32; MANY] = coefficients(3, 1000);
    let y: [i32; MANY] = with(
        coefficients(4, 1000),
        0,
        either(causes.coefficient, BELOW, 0),
    );
    print!(rt; "recording,causes,{choice}")?;
    lend(
        rt,
        sample,
        first(&x, l),
        first(&y, l),
        either(causes.room, 4, 3),
    )
}

// Every choice of the causes: the first in their order is answered.
fn causes(rt: &impl Print) -> io::Result<()> {
    for choice in 0..CHOICES {
        for order in ORDERS {
            causes_of(rt, order, choice)?;
        }
    }
    Ok(())
}

// A length that is not tabled, with the lists of two hops of m, and with none.
fn untabled(rt: &impl Print, n: usize, m: usize) -> io::Result<()>
    requires { m ≤ 108 }
{
    for order in ORDERS {
        let of = Recording { order, n, hops: 2 };
        sized(rt, front(of, 2), 3 * m, 3 * m, 3)?;
    }
    let none = Sample {
        of: Recording {
            order: Order::ByFrequency,
            n,
            hops: 0,
        },
        hop: 9,
        place: 9,
    };
    sized(rt, none, 0, 0, 4)
}

// Recordings of 1, 2, 3 and the most hops, at the shortest length and at others.
fn taken(rt: &impl Print) -> io::Result<()> {
    over(rt, 12, 1)?;
    over(rt, 12, 2)?;
    over(rt, 12, 3)?;
    over(rt, 12, 4095)?;
    over(rt, 24, 2)?;
    over(rt, 36, 3)?;
    over(rt, 72, 3)?;
    over(rt, 72, 681)?;
    over(rt, 108, 2)?;
    over(rt, 216, 1)?;
    over(rt, 216, 3)?;
    over(rt, 216, 226)
}

fn turned_away(rt: &impl Print) -> io::Result<()> {
    refused(rt, 12, 3, 24)?;
    refused(rt, 12, 4095, 24576)?;
    refused(rt, 72, 2, 108)?;
    refused(rt, 216, 3, 432)?;
    for order in ORDERS {
        let of = Recording {
            order,
            n: 12,
            hops: 4096,
        };
        sized(rt, front(of, 4096), 24582, 24582, 3)?;
    }
    Ok(())
}

pub fn recordings(rt: &impl Print) -> io::Result<()> {
    taken(rt)?;
    turned_away(rt)?;
    causes(rt)?;
    untabled(rt, 0, 6)?;
    untabled(rt, 13, 6)?;
    untabled(rt, 48, 24)?;
    untabled(rt, 144, 72)?;
    untabled(rt, 217, 108)?;
    untabled(rt, usize::MAX, 36)
}
