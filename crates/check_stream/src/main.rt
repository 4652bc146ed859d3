// Streams through the public calls, step after step, compared with what vectors/stream.py makes from the definitions.
#![tactic(auto)]

ghost use Rattle.std.specs.Prelude.{◌≤◌, ◌<◌, ◌^◌};

use bank_report::streams::{
    ENTRIES, block_of, forged, forged_state, fresh, fresh_state, joints_of, route_of, stepped,
};
use bank_report::{ABOVE, BELOW, LEAST, LENGTHS, LONG, LONG_JOINTS, MOST, SHORT, code};
use filter_bank::{Joints, Offer, Stream};
use report::buffers::{alternating, differing, first, first_of, with};
use report::{Entries, noise};
use std::{fmt, io};

// Room for a hop of the longest block, for a state, and for buffers that are too long.
const ROOM: usize = 112;

// The most samples of a hop that are shown one by one, and the entries of a tail.
const SHOWN: usize = 40;

const SHOWN_TAIL: usize = 18;

// An entry of a tail that is heard in the samples.
const HEARD: i64 = 1099511627776;

// Blocks of a long stream, and of one that is played back.
const BLOCKS: usize = 12;

const PLAYED: usize = 48;

// Numbers of blocks in the order in which they are offered: as they follow, shuffled until all are taken, repeated, the first one late, and
// without block 1.
const ORDERED: [u32; 16] = [0, 1, 2, 3, 4, 5, 6, 7, 8, 9, 10, 11, 12, 13, 14, 15];

const SHUFFLED: [u32; 9] = [3, 1, 0, 2, 0, 3, 1, 2, 3];

const REPEATED: [u32; 6] = [0, 0, 1, 1, 0, 2];

const LATE: [u32; 6] = [1, 2, 0, 2, 1, 2];

const MISSING: [u32; 4] = [0, 2, 3, 2];

// Around the last number, which is taken once, and around the first that fills 32 bits.
const AROUND_LAST: [u32; 5] = [4294967294, 0, 4294967295, 0, 4294967295];

const AROUND_MIDDLE: [u32; 3] = [2147483648, 2147483647, 2147483648];

// The first entries of a tail or of a state, each behind a comma, and the sum of the others.
#[derive(Clone, Copy)]
struct Beginning<'a> {
    of: &'a [i64],
    most: usize,
}

impl<'a> fmt::Display for Beginning<'a> {
    fn fmt<W: fmt::Write>(&self, f: &mut fmt::Formatter<W>) -> fmt::Result {
        let (shown, others) = self.of.split_at(self.most.min(self.of.len()));
        for entry in shown {
            let entry = *entry;
            write!(f, ",{entry}")?;
        }
        let sum = report::sum(others);
        write!(f, ",{sum}")
    }
}

// What takes steps: a stream by value, or a state in place.
trait Steps {
    // The number of the answer.
    fn step(&mut self, offer: Offer, x: &[i32], out: &mut [i16]) -> u32;

    fn show(&self, rt: &impl Print) -> io::Result<()>;
}

impl Steps for Stream {
    fn step(&mut self, offer: Offer, x: &[i32], out: &mut [i16]) -> u32 {
        let (next, code) = stepped(filter_bank::step(*self, offer, x, out));
        *self = next;
        code
    }

    fn show(&self, rt: &impl Print) -> io::Result<()> {
        let tail = Beginning {
            of: &self.tail,
            most: SHOWN_TAIL,
        };
        println!(rt; "stream,{},{},{}{tail}", self.n, self.expected, self.shape)
    }
}

// A state, which shows as many entries of its tail.
#[derive(Drop)]
struct State<'a> {
    entries: &'a mut [i64],
}

impl<'a> Steps for State<'a> {
    fn step(&mut self, offer: Offer, x: &[i32], out: &mut [i16]) -> u32 {
        code(&filter_bank::step_in_place(self.entries, offer, x, out))
    }

    fn show(&self, rt: &impl Print) -> io::Result<()> {
        let entries = Beginning {
            of: self.entries,
            most: SHOWN_TAIL + 3,
        };
        println!(rt; "state{entries}")
    }
}

// A step as it is offered: the first entries of a block, under its number and between its joints, and a buffer of as many marks.
#[derive(Clone, Copy)]
struct Step {
    offer: Offer,
    x: [i32; ROOM],
    entries: usize,
    marks: usize,
}

// A step whose buffers have m entries.
fn step_of(number: u32, joints: Joints, x: [i32; ROOM], m: usize) -> Step {
    Step {
        offer: Offer { number, joints },
        x,
        entries: m,
        marks: m,
    }
}

// What a step answers, the buffer, and what is left of the stream.
fn tried<S: Steps>(rt: &impl Print, s: &mut S, step: Step) -> io::Result<()> {
    let mut room = [12345; ROOM];
    let out = first_of(&mut room, step.marks);
    let code = s.step(step.offer, first(&step.x, step.entries), out);
    let hop = Entries {
        of: out,
        most: SHOWN,
    };
    println!(rt; "out,{code}{hop}")?;
    s.show(rt)
}

// A step under the number and the left shape that the stream expects. Number 0 where it expects none.
fn due(s: &Stream, right: u32, x: [i32; ROOM], m: usize) -> Step {
    let number = u32::try_from(s.expected).unwrap_or(0);
    let left = s.shape;
    step_of(number, Joints { left, right }, x, m)
}

fn offer_to(
    rt: &impl Print,
    s: &mut Stream,
    right: u32,
    x: [i32; ROOM],
    m: usize,
) -> io::Result<()> {
    let step = due(s, right, x, m);
    tried(rt, s, step)
}

fn offer(rt: &impl Print, s: &mut Stream, x: [i32; ROOM], m: usize) -> io::Result<()> {
    offer_to(rt, s, LONG, x, m)
}

// Of the first entries of a block, with a buffer of as many marks.
fn offer_sized(
    rt: &impl Print,
    s: &mut Stream,
    x: [i32; ROOM],
    entries: usize,
    marks: usize,
) -> io::Result<()> {
    let step = Step {
        marks,
        ..due(s, LONG, x, entries)
    };
    tried(rt, s, step)
}

// Quiet, at the edge of the samples' range, and loud, block by block.
fn span(b: usize) -> u32
    ensures { result < 2 ^ 30 }
{
    match b % 4 {
        0 => 1048576,
        1 => 6000000,
        2 => 5000,
        _ => 536870912,
    }
}

// Why a step is refused.
#[derive(Clone, Copy)]
enum Damage {
    // The length of either buffer.
    FewEntries,
    ManyMarks,
    // A coefficient, alone and with a length.
    Above,
    BelowAndFewMarks,
    // The left shape, which is the other one or above 1.
    OtherLeft,
    NoLeft,
    // The right one.
    NoRight,
    FarRight,
}

const DAMAGES: [Damage; 8] = [
    Damage::FewEntries,
    Damage::ManyMarks,
    Damage::Above,
    Damage::BelowAndFewMarks,
    Damage::OtherLeft,
    Damage::NoLeft,
    Damage::NoRight,
    Damage::FarRight,
];

fn other(shape: u32) -> u32 {
    if shape == LONG { SHORT } else { LONG }
}

fn between(step: Step, left: u32, right: u32) -> Step {
    let joints = Joints { left, right };
    Step {
        offer: Offer {
            joints,
            ..step.offer
        },
        ..step
    }
}

// The step, damaged: one with buffers of the same length.
fn spoilt(step: Step, damage: Damage) -> Step {
    let m = step.entries;
    let less = m.saturating_sub(1);
    let Joints { left, right } = step.offer.joints;
    match damage {
        Damage::FewEntries => Step {
            entries: less,
            ..step
        },
        Damage::ManyMarks => Step {
            marks: m.saturating_add(1),
            ..step
        },
        Damage::Above => Step {
            x: with(step.x, less, ABOVE),
            ..step
        },
        Damage::BelowAndFewMarks => Step {
            x: with(step.x, 0, BELOW),
            marks: less,
            ..step
        },
        Damage::OtherLeft => between(step, other(left), right),
        Damage::NoLeft => between(step, 2, right),
        Damage::NoRight => between(step, left, 2),
        Damage::FarRight => between(step, left, u32::MAX),
    }
}

fn refused(
    rt: &impl Print,
    s: &mut Stream,
    x: [i32; ROOM],
    m: usize,
    damage: Damage,
) -> io::Result<()> {
    let step = spoilt(due(s, LONG, x, m), damage);
    tried(rt, s, step)
}

// A long stream: a refused step first and after every block.
fn long(rt: &impl Print, n: usize) -> io::Result<()>
    requires { n ≤ 216 }
{
    let m = n / 2;
    let mut s = fresh(n);
    refused(rt, &mut s, [MOST; ROOM], m, Damage::Above)?;
    for b in 0..BLOCKS {
        let x = noise::coefficients((100 * n + b) as u32, span(b));
        offer_to(rt, &mut s, joints_of(b as u32).right, x, m)?;
        refused(rt, &mut s, x, m, DAMAGES[b % 8])?;
    }
    Ok(())
}

// The block of a number: the same whenever it comes.
fn block(n: usize, number: u32) -> [i32; ROOM]
    requires { n ≤ 216 }
{
    let b = number as usize % 100;
    noise::coefficients((200 * n + b) as u32, span(b))
}

// The damage at a place of a list: in a long one every kind meets more than one span.
fn damage_at(i: usize) -> Damage {
    DAMAGES[(i % 8 + i / 8 % 8) % 8]
}

// A block in place, with a damaged one under the same number before it, and by value: both answers are the same.
fn either_way(
    rt: &impl Print,
    n: usize,
    s: &mut Stream,
    state: &mut State,
    number: u32,
    damage: Damage,
) -> io::Result<()>
    requires { n ≤ 216 }
{
    let step = step_of(number, joints_of(number), block(n, number), n / 2);
    tried(rt, state, spoilt(step, damage))?;
    tried(rt, state, step)?;
    tried(rt, s, step)
}

// Blocks in an order.
fn beside(
    rt: &impl Print,
    n: usize,
    stream: Stream,
    entries: [i64; ENTRIES],
    order: &[u32],
) -> io::Result<()>
    requires { n ≤ 216 }
{
    let mut s = stream;
    let mut held = entries;
    let mut state = State { entries: &mut held };
    for (i, number) in order.iter().enumerate() {
        either_way(rt, n, &mut s, &mut state, *number, damage_at(i))?;
    }
    Ok(())
}

// The same blocks to a fresh stream.
fn fresh_beside(rt: &impl Print, n: usize, order: &[u32]) -> io::Result<()>
    requires { n ≤ 216 }
{
    beside(rt, n, fresh(n), fresh_state(n), order)
}

// And to a fresh one that is made to expect another number, and the left shape of its block.
fn forged_beside(rt: &impl Print, n: usize, expected: u32, order: &[u32]) -> io::Result<()>
    requires { n ≤ 216 }
{
    let shape = joints_of(expected).left;
    let s = forged(n, expected as u64, shape, 0);
    let mut state = fresh_state(n);
    state[1] = expected as i64;
    state[2] = shape as i64;
    beside(rt, n, s, state, order)
}

fn orders(rt: &impl Print, n: usize) -> io::Result<()>
    requires { n ≤ 216 }
{
    fresh_beside(rt, n, &ORDERED)?;
    fresh_beside(rt, n, &SHUFFLED)?;
    fresh_beside(rt, n, &REPEATED)?;
    fresh_beside(rt, n, &LATE)?;
    fresh_beside(rt, n, &MISSING)?;
    forged_beside(rt, n, 4294967295, &AROUND_LAST)?;
    forged_beside(rt, n, 2147483647, &AROUND_MIDDLE)
}

// Block b, which covers hops b and b + 1, analysed and played back: the numbers of its analysis, of a step with the other left shape and of its own, and how
// many samples of hop b did not come back.
fn play(rt: &impl Print, s: &mut Stream, n: usize, b: usize) -> io::Result<()>
    requires { (n ≤ 216) × (b < 48) }
{
    let m = n / 2;
    let number = b as u32;
    let joints = joints_of(number);
    let Joints { left, right } = joints;
    let bent = Joints {
        left: other(left),
        right,
    };
    let x = block_of(n, b, 2);
    let mut spectrum = [0; stream::STORAGE];
    let c = first_of(&mut spectrum, m);
    let analysed = code(&filter_bank::analyse(route_of(n, b), n, joints, first(&x, n), c));
    let mut room = [12345; stream::STORAGE];
    let out = first_of(&mut room, m);
    let bent = s.step(
        Offer {
            number,
            joints: bent,
        },
        c,
        out,
    );
    let taken = s.step(Offer { number, joints }, c, out);
    let lost = differing(first(&x, m), out);
    println!(rt; "back,{n},{b},{left},{right},{analysed},{bent},{taken},{lost}")
}

// Sound that is analysed and played back, block after block, in a mixture of shapes and routes: step b returns hop b, but for the run-in.
fn played(rt: &impl Print, n: usize) -> io::Result<()>
    requires { n ≤ 216 }
{
    let mut s = fresh(n);
    for b in 0..PLAYED {
        play(rt, &mut s, n, b)?;
    }
    Ok(())
}

// Damaged blocks under numbers that the stream does not expect, one too low and one too high by turns: 7 before 8, 2 and 3.
fn unexpected(rt: &impl Print, n: usize) -> io::Result<()> {
    let m = n / 2;
    let x = noise::coefficients(13, 1000000);
    let mut s = fresh(n);
    offer(rt, &mut s, x, m)?;
    for (i, damage) in DAMAGES.iter().enumerate() {
        let number = if i % 2 == 0 { 0 } else { 2 };
        tried(
            rt,
            &mut s,
            spoilt(step_of(number, LONG_JOINTS, x, m), *damage),
        )?;
    }
    offer(rt, &mut s, x, m)
}

// Damaged blocks with shapes that the stream does not expect or that no joint has: 8 before 2 and 3.
fn misshapen(rt: &impl Print, n: usize) -> io::Result<()> {
    let m = n / 2;
    let x = noise::coefficients(14, 1000000);
    let mut s = fresh(n);
    offer_to(rt, &mut s, SHORT, x, m)?;
    for (left, right, damage) in [
        (LONG, LONG, Damage::FewEntries),
        (2, SHORT, Damage::ManyMarks),
        (SHORT, 2, Damage::Above),
        (LONG, u32::MAX, Damage::BelowAndFewMarks),
    ] {
        let step = step_of(1, Joints { left, right }, x, m);
        tried(rt, &mut s, spoilt(step, damage))?;
    }
    offer(rt, &mut s, x, m)
}

// A quiet block under a number.
fn quiet(number: u32, left: u32, right: u32, m: usize) -> Step {
    step_of(
        number,
        Joints { left, right },
        noise::coefficients(9, 1000000),
        m,
    )
}

// One step in place on the first `size` entries of a state.
fn in_place(rt: &impl Print, state: [i64; ROOM], size: usize, step: Step) -> io::Result<()> {
    let mut held = state;
    let mut state = State {
        entries: first_of(&mut held, size),
    };
    tried(rt, &mut state, step)
}

// A forged state of this size, between long joints.
fn sized(
    rt: &impl Print,
    n: i64,
    expected: i64,
    v: i64,
    size: usize,
    number: u32,
    m: usize,
) -> io::Result<()> {
    in_place(
        rt,
        forged_state(n, expected, 0, v),
        size,
        quiet(number, LONG, LONG, m),
    )
}

// One step on a stream that is forged.
fn on_forged(rt: &impl Print, stream: Stream, step: Step) -> io::Result<()> {
    let mut s = stream;
    tried(rt, &mut s, step)
}

// A stream that is made to expect a left shape, and a block with one: taken where both are 1, and else 8. A shape above 1 is never taken.
fn forged_shapes(rt: &impl Print, n: usize, m: usize) -> io::Result<()> {
    for (shape, left) in [
        (1, 0),
        (1, 1),
        (2, 0),
        (2, 1),
        (2, 2),
        (4294967295, 0),
        (4294967295, 1),
        (4294967295, 4294967295),
    ] {
        on_forged(rt, forged(n, 5, shape, 7), quiet(5, left, LONG, m))?;
    }
    Ok(())
}

// An empty block: 8 before 2. Another number: 7 before 8.
fn shape_causes(rt: &impl Print, n: usize, m: usize) -> io::Result<()> {
    let s = forged(n, 5, 2, 7);
    let step = step_of(5, LONG_JOINTS, [MOST; ROOM], m);
    on_forged(rt, s, Step { entries: 0, ..step })?;
    on_forged(rt, s, step_of(6, LONG_JOINTS, [MOST; ROOM], m))
}

// In place it can be negative or have more than 32 bits: some blocks have the shape that is left of it in 32.
fn shapes_in_place(rt: &impl Print, n: i64, m: usize) -> io::Result<()> {
    for (shape, left) in [
        (1, 0),
        (1, 1),
        (2, 0),
        (2, 1),
        (2, 2),
        (-1, 0),
        (-1, 1),
        (-1, 4294967295),
        (4294967296, 0),
        (4294967297, 1),
        (-4294967296, 0),
        (-4294967295, 1),
        (9223372036854775807, 1),
        (9223372036854775807, 4294967295),
        (-9223372036854775808, 0),
    ] {
        let state = forged_state(n, 5, shape, 7);
        in_place(rt, state, ENTRIES, quiet(5, left, LONG, m))?;
    }
    Ok(())
}

// The same causes, and a state of another length.
fn shape_causes_in_place(rt: &impl Print, n: i64, m: usize) -> io::Result<()> {
    let state = forged_state(n, 5, -1, 7);
    in_place(rt, state, ENTRIES, quiet(5, LONG, LONG, 0))?;
    in_place(rt, state, ENTRIES, quiet(6, LONG, LONG, m))?;
    in_place(rt, state, ENTRIES - 1, quiet(5, LONG, LONG, m))
}

fn shapes(rt: &impl Print, n: usize) -> io::Result<()>
    requires { n ≤ 216 }
{
    let m = n / 2;
    forged_shapes(rt, n, m)?;
    shape_causes(rt, n, m)?;
    shapes_in_place(rt, n as i64, m)?;
    shape_causes_in_place(rt, n as i64, m)
}

// A forged expected number that no block has, and the number that is left of it in 32 bits.
fn strays(rt: &impl Print, n: usize) -> io::Result<()> {
    for (expected, number) in [
        (4294967296, 0),
        (4294967301, 5),
        (9223372036854775808, 0),
        (18446744073709551615, 4294967295),
    ] {
        let s = forged(n, expected, LONG, HEARD);
        on_forged(rt, s, quiet(number, LONG, LONG, n / 2))?;
    }
    Ok(())
}

// In place it can be negative: the number is then what is left of it in 32 bits, or its size.
fn strays_in_place(rt: &impl Print, n: i64, m: usize) -> io::Result<()> {
    for (expected, number) in [
        (4294967296, 0),
        (4294967301, 5),
        (9223372036854775807, 4294967295),
        (-1, 4294967295),
        (-5, 5),
        (-4294967296, 0),
        (-9223372036854775808, 0),
    ] {
        sized(rt, n, expected, HEARD, ENTRIES, number, m)?;
    }
    Ok(())
}

// Buffers of another size than m, one of them or both.
fn wrong(rt: &impl Print, s: &mut Stream, x: [i32; ROOM], m: usize, size: usize) -> io::Result<()> {
    offer_sized(rt, s, x, m, size)?;
    offer_sized(rt, s, x, size, m)?;
    offer_sized(rt, s, x, size, size)
}

// Wrong lengths between two good blocks.
fn sizes(rt: &impl Print, n: usize) -> io::Result<()>
    requires { 2 ≤ n }
{
    let m = n / 2;
    let x = noise::coefficients(11, 1000000);
    let mut s = fresh(n);
    offer(rt, &mut s, x, m)?;
    wrong(rt, &mut s, x, m, 0)?;
    wrong(rt, &mut s, x, m, m - 1)?;
    wrong(rt, &mut s, x, m, m + 1)?;
    offer(rt, &mut s, x, m)
}

// Loud blocks. All of one sign and then alternating have the signs of the kernel's entries for one place: no sum of a tail entry
// and a value goes further, at joints of either shape. It is tried both ways.
fn extremes(rt: &impl Print, n: usize, shape: u32) -> io::Result<()> {
    let m = n / 2;
    let highest = [MOST; ROOM];
    let lowest = [LEAST; ROOM];
    let even = alternating(LEAST, MOST);
    let odd = alternating(MOST, LEAST);
    let mut s = fresh(n);
    for x in [highest, lowest, lowest, odd, odd, odd, highest, even] {
        offer_to(rt, &mut s, shape, x, m)?;
    }
    offer(rt, &mut s, [0; ROOM], m)
}

// The coefficient v, first and last, taken or not, and with buffers that are short or long by one.
fn limit(rt: &impl Print, n: usize, v: i32) -> io::Result<()>
    requires { 2 ≤ n }
{
    let m = n / 2;
    let x = noise::coefficients(7, 1000000);
    let front = with(x, 0, v);
    let back = with(x, m - 1, v);
    let mut s = fresh(n);
    offer(rt, &mut s, front, m)?;
    offer(rt, &mut s, back, m)?;
    wrong(rt, &mut s, front, m, m - 1)?;
    wrong(rt, &mut s, back, m, m + 1)?;
    offer(rt, &mut s, x, m)
}

fn coefficient_limits(rt: &impl Print, n: usize) -> io::Result<()>
    requires { 2 ≤ n }
{
    for v in [MOST, ABOVE, LEAST, BELOW, i32::MAX, i32::MIN] {
        limit(rt, n, v)?;
    }
    Ok(())
}

// A coefficient beyond the range at every place.
fn limit_places(rt: &impl Print, n: usize) -> io::Result<()> {
    let m = n / 2;
    let mut s = fresh(n);
    for k in 0..m {
        offer(rt, &mut s, with([MOST; ROOM], k, ABOVE), m)?;
        offer(rt, &mut s, with([MOST; ROOM], k, BELOW), m)?;
    }
    Ok(())
}

// A forged stream that expects block 5, all its tail entries `rest` but entry i, which is v: one step on a quiet block.
fn with_entry(rt: &impl Print, n: usize, m: usize, rest: i64, i: usize, v: i64) -> io::Result<()> {
    let s = forged(n, 5, LONG, rest);
    let tail = with(s.tail, i, v);
    on_forged(rt, Stream { tail, ..s }, quiet(5, LONG, LONG, m))
}

// The same in place.
fn with_entry_in_place(
    rt: &impl Print,
    n: i64,
    m: usize,
    rest: i64,
    i: usize,
    v: i64,
) -> io::Result<()>
    requires { i < 108 }
{
    let state = with(forged_state(n, 5, 0, rest), 3 + i, v);
    in_place(rt, state, ENTRIES, quiet(5, LONG, LONG, m))
}

// A forged stream is refused with 4 before any length, any coefficient, the number and the shapes are looked at, even where it expects none.
fn forged_first(rt: &impl Print, n: usize, m: usize, v: i64) -> io::Result<()> {
    let x = [MOST; ROOM];
    let mut s = forged(n, 5, LONG, v);
    offer_sized(rt, &mut s, x, 0, m)?;
    offer(rt, &mut s, with(x, 0, ABOVE), m)?;
    offer_sized(rt, &mut s, with(x, 0, BELOW), m, 0)?;
    tried(rt, &mut s, step_of(6, LONG_JOINTS, x, m))?;
    let none = forged(n, 4294967296, LONG, v);
    on_forged(rt, none, step_of(0, LONG_JOINTS, x, m))?;
    let misshapen = Joints { left: 2, right: 2 };
    on_forged(rt, forged(n, 5, 2, v), step_of(6, misshapen, x, m))
}

// In place too, and a state of another length is 2 before that.
fn first_in_place(rt: &impl Print, n: i64, m: usize, v: i64) -> io::Result<()> {
    sized(rt, n, 5, v, ENTRIES, 5, m)?;
    sized(rt, n, 5, v, ENTRIES, 6, m)?;
    sized(rt, n, -1, v, ENTRIES, 4294967295, m)?;
    sized(rt, n, 5, v, ENTRIES - 1, 6, m)?;
    in_place(rt, forged_state(n, 5, -1, v), ENTRIES, quiet(6, 2, 2, m))
}

// The limits of a tail at a length: the most, M times 2^55, one above it, the least and one below it.
#[derive(Clone, Copy)]
struct Limits {
    n: usize,
    most: i64,
    above: i64,
    least: i64,
    below: i64,
}

const LIMITS: [Limits; 6] = [
    Limits {
        n: 12,
        most: 216172782113783808,
        above: 216172782113783809,
        least: -216172782113783808,
        below: -216172782113783809,
    },
    Limits {
        n: 24,
        most: 432345564227567616,
        above: 432345564227567617,
        least: -432345564227567616,
        below: -432345564227567617,
    },
    Limits {
        n: 36,
        most: 648518346341351424,
        above: 648518346341351425,
        least: -648518346341351424,
        below: -648518346341351425,
    },
    Limits {
        n: 72,
        most: 1297036692682702848,
        above: 1297036692682702849,
        least: -1297036692682702848,
        below: -1297036692682702849,
    },
    Limits {
        n: 108,
        most: 1945555039024054272,
        above: 1945555039024054273,
        least: -1945555039024054272,
        below: -1945555039024054273,
    },
    Limits {
        n: 216,
        most: 3891110078048108544,
        above: 3891110078048108545,
        least: -3891110078048108544,
        below: -3891110078048108545,
    },
];

// Tail entries at the limit and one beyond, in the first place and in the last; and a whole tail at it, with a block that drives one place as far as it goes.
fn edges(rt: &impl Print, m: usize, limits: Limits) -> io::Result<()>
    requires { 1 ≤ m }
{
    let Limits {
        n,
        most,
        above,
        least,
        below,
    } = limits;
    for (rest, i, v) in [
        (most, 0, most),
        (least, 0, least),
        (most, m - 1, least),
        (0, 0, above),
        (0, 0, below),
        (0, m - 1, above),
        (0, m - 1, below),
        (0, m - 1, i64::MIN),
        (0, m - 1, i64::MAX),
    ] {
        with_entry(rt, n, m, rest, i, v)?;
    }
    forged_first(rt, n, m, above)?;
    forged_first(rt, n, m, below)?;
    let even = step_of(5, LONG_JOINTS, alternating(LEAST, MOST), m);
    let odd = step_of(5, LONG_JOINTS, alternating(MOST, LEAST), m);
    on_forged(rt, forged(n, 5, LONG, most), odd)?;
    on_forged(rt, forged(n, 5, LONG, least), even)
}

// A tail entry beyond the limit at every place.
fn tail_places(rt: &impl Print, m: usize, limits: Limits) -> io::Result<()> {
    for i in 0..m {
        with_entry(rt, limits.n, m, 0, i, limits.above)?;
        with_entry(rt, limits.n, m, 0, i, limits.below)?;
    }
    Ok(())
}

fn edges_in_place(rt: &impl Print, n: i64, m: usize, limits: Limits) -> io::Result<()>
    requires { (1 ≤ m) × (m ≤ 108) }
{
    let Limits {
        most,
        above,
        least,
        below,
        ..
    } = limits;
    with_entry_in_place(rt, n, m, most, m - 1, least)?;
    with_entry_in_place(rt, n, m, 0, 0, above)?;
    with_entry_in_place(rt, n, m, 0, 0, below)?;
    with_entry_in_place(rt, n, m, 0, m - 1, above)?;
    with_entry_in_place(rt, n, m, 0, m - 1, below)?;
    first_in_place(rt, n, m, above)?;
    first_in_place(rt, n, m, below)
}

fn tails(rt: &impl Print, limits: Limits) -> io::Result<()>
    requires { (2 ≤ limits.n) × (limits.n ≤ 216) }
{
    let m = limits.n / 2;
    edges(rt, m, limits)?;
    tail_places(rt, m, limits)?;
    edges_in_place(rt, limits.n as i64, m, limits)
}

// A tail of zeros whose entries beyond M are v, through steps that are taken and refused.
fn kept(rt: &impl Print, n: usize, v: i64) -> io::Result<()>
    requires { n ≤ 216 }
{
    let m = n / 2;
    let mut s = forged(n, 5, LONG, 0);
    s.tail[m..].fill(v);
    offer_to(rt, &mut s, SHORT, noise::coefficients(9, 1000000), m)?;
    refused(
        rt,
        &mut s,
        noise::coefficients(10, 1000000),
        m,
        Damage::Above,
    )?;
    offer_to(rt, &mut s, SHORT, alternating(MOST, LEAST), m)?;
    refused(rt, &mut s, alternating(LEAST, MOST), m, Damage::ManyMarks)?;
    offer(rt, &mut s, noise::coefficients(12, 1000000), m)
}

// Rubbish v beyond M, at place i and at all of them: kept, and never a cause.
fn beyond(rt: &impl Print, n: usize, i: usize, v: i64) -> io::Result<()>
    requires { (n ≤ 216) × (i < 108) }
{
    let m = n / 2;
    with_entry(rt, n, m, 0, i, v)?;
    with_entry_in_place(rt, n as i64, m, 0, i, v)?;
    kept(rt, n, v)
}

// The first place beyond M and the last.
fn rubbish_beyond(rt: &impl Print, n: usize) -> io::Result<()>
    requires { n < 216 }
{
    beyond(rt, n, n / 2, i64::MIN)?;
    beyond(rt, n, stream::STORAGE - 1, i64::MAX)
}

// No entry, N alone, a state with a tail of one hop, one entry fewer than a state has and one more, and a state, which is taken.
fn state_sizes(rt: &impl Print, n: i64, m: usize) -> io::Result<()>
    requires { m ≤ 108 }
{
    for size in [0, 1, m + 3, ENTRIES - 1, ENTRIES + 1, ENTRIES] {
        sized(rt, n, 5, HEARD, size, 5, m)?;
    }
    Ok(())
}

fn length(rt: &impl Print, n: usize) -> io::Result<()>
    requires { (2 ≤ n) × (n ≤ 216) }
{
    long(rt, n)?;
    orders(rt, n)?;
    played(rt, n)?;
    unexpected(rt, n)?;
    misshapen(rt, n)?;
    shapes(rt, n)?;
    strays(rt, n)?;
    strays_in_place(rt, n as i64, n / 2)?;
    sizes(rt, n)?;
    extremes(rt, n, LONG)?;
    extremes(rt, n, SHORT)?;
    coefficient_limits(rt, n)?;
    limit_places(rt, n)?;
    state_sizes(rt, n as i64, n / 2)
}

// A fresh stream, and the number of the answer.
fn made(rt: &impl Print, n: usize) -> io::Result<()> {
    let code = code(&filter_bank::fresh(n));
    println!(rt; "fresh,{n},{code}")?;
    fresh(n).show(rt)
}

// The same in place, in a buffer of `size` entries that hold something else.
fn made_in_place(rt: &impl Print, n: usize, size: usize) -> io::Result<()> {
    let mut held = [7; ROOM];
    let entries = first_of(&mut held, size);
    let code = code(&filter_bank::fresh_in_place(n, entries));
    println!(rt; "fresh,{n},{code}")?;
    State { entries }.show(rt)
}

// Streams of a length that is tabled.
fn tabled(rt: &impl Print, n: usize) -> io::Result<()> {
    made(rt, n)?;
    for size in [0, 1, ENTRIES - 1, ENTRIES + 1, ENTRIES] {
        made_in_place(rt, n, size)?;
    }
    Ok(())
}

// Streams of a length that is not tabled.
fn untabled(rt: &impl Print, n: usize) -> io::Result<()> {
    made(rt, n)?;
    made_in_place(rt, n, 0)?;
    made_in_place(rt, n, ENTRIES)?;
    with_entry(rt, n, 0, 0, 0, 0)?;
    with_entry(rt, n, 18, 0, 3, 5)?;
    forged_first(rt, n, 24, 0)
}

// States of such a length, of one that is 12 in 32 bits, and of negative ones.
fn untabled_in_place(rt: &impl Print) -> io::Result<()> {
    for n in [
        0,
        11,
        48,
        107,
        144,
        217,
        432,
        4294967308,
        -1,
        -12,
        -9223372036854775808,
    ] {
        first_in_place(rt, n, 18, 0)?;
    }
    Ok(())
}

// A fresh stream and the coefficient c alone: U at place M, which the tail shows, meets an exact half above zero and below.
fn half_values(rt: &impl Print) -> io::Result<()> {
    for (n, c) in [
        (12, 33554432),
        (12, -33554432),
        (24, 33554432),
        (24, -33554432),
        (36, 33554432),
        (36, -33554432),
        (72, 33554432),
        (72, -33554432),
        (108, 33554432),
        (108, -33554432),
        (216, 8388608),
        (216, -8388608),
    ] {
        offer(rt, &mut fresh(n), with([0; ROOM], 0, c), n / 2)?;
    }
    Ok(())
}

// A tail of t, which is half a sample, above zero or below, and no coefficients.
fn half_samples(rt: &impl Print) -> io::Result<()> {
    for (n, t) in [
        (12, -6442450944),
        (12, 6442450944),
        (24, -12884901888),
        (24, 12884901888),
        (36, -19327352832),
        (36, 19327352832),
        (72, -38654705664),
        (72, 38654705664),
        (108, -57982058496),
        (108, 57982058496),
        (216, -115964116992),
        (216, 115964116992),
    ] {
        offer(rt, &mut forged(n, 5, LONG, t), [0; ROOM], n / 2)?;
    }
    Ok(())
}

fn main(rt: HostRuntime) -> io::Result<()> {
    for n in LENGTHS {
        tabled(&rt, n)?;
    }
    for n in [0, 11, 48, usize::MAX, 107, 144, 217, 432] {
        untabled(&rt, n)?;
    }
    untabled_in_place(&rt)?;
    length(&rt, 12)?;
    length(&rt, 24)?;
    length(&rt, 36)?;
    length(&rt, 72)?;
    length(&rt, 108)?;
    length(&rt, 216)?;
    for limits in LIMITS {
        tails(&rt, limits)?;
    }
    rubbish_beyond(&rt, 12)?;
    rubbish_beyond(&rt, 24)?;
    rubbish_beyond(&rt, 36)?;
    rubbish_beyond(&rt, 72)?;
    rubbish_beyond(&rt, 108)?;
    half_values(&rt)?;
    half_samples(&rt)
}
