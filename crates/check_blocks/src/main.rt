// Blocks through the public analysis, by every route and between joints of every shape, compared with what vectors/blocks.py makes from the definitions.
#![tactic(auto)]

ghost use Rattle.std.specs.Prelude.{◌≤◌, ◌<◌, ◌/◌, T};
ghost use Rattle.cosine.specs.Kernels.{tabled};

use bank_report::{LENGTHS, LONG, LONG_JOINTS, ROUTES, SHORT, code, route_name};
use filter_bank::{Joints, Route};
use report::buffers::{alternating, first, first_of, with};
use report::{Entries, noise};
use std::io;

// Room for the longest block and for buffers that are too long.
const ROOM: usize = 220;

// The most coefficients that are shown one by one.
const SHOWN: usize = 40;

// Two values that samples have.
#[derive(Clone, Copy)]
struct Values {
    low: i16,
    high: i16,
}

const LOUD: Values = Values {
    low: i16::MIN,
    high: i16::MAX,
};

const QUIET: Values = Values { low: -1, high: 1 };

// One call: its route, N, the shapes of the block's joints and the number of samples, and what is then in a buffer of m marks.
fn offer(
    rt: &impl Print,
    route: Route,
    n: usize,
    joints: Joints,
    x: &[i16],
    m: usize,
) -> io::Result<()> {
    let mut room = [12345; ROOM];
    let out = first_of(&mut room, m);
    let code = code(&filter_bank::analyse(route, n, joints, x, out));
    let name = route_name(route);
    let Joints { left, right } = joints;
    let shown = Entries {
        of: out,
        most: SHOWN,
    };
    println!(rt; "{name},{n},{left},{right},{},{code}{shown}", x.len())
}

fn each_route(rt: &impl Print, n: usize, joints: Joints, x: &[i16], m: usize) -> io::Result<()> {
    for route in ROUTES {
        offer(rt, route, n, joints, x, m)?;
    }
    Ok(())
}

// A block of the stated lengths.
fn block(rt: &impl Print, n: usize, joints: Joints, x: [i16; ROOM]) -> io::Result<()> {
    each_route(rt, n, joints, first(&x, n), n / 2)
}

// All of the range, louder and softer parts of it, and a quiet one, block by block.
fn span(b: usize) -> u32
    ensures { result ≤ 32768 }
{
    match b % 4 {
        0 => 32768,
        1 => 4096,
        2 => 100,
        _ => 2,
    }
}

// The sample v at place i, and silence.
fn impulse(i: usize, v: i16) -> [i16; ROOM] {
    with([0; ROOM], i, v)
}

// `high` where the kernel of coefficient k is above 0 and `low` elsewhere: no other signs drive it further.
fn driven(n: usize, k: usize, values: Values) -> [i16; ROOM]
    requires { T (tabled n) × (n ≤ 216) × (k < n / 2) }
{
    let cos = cosine::quarter_turn();
    let mut x = [0; ROOM];
    for (i, sample) in x[..n].iter_mut().enumerate() {
        *sample = if cosine::kernel(&cos, n, i, k) > 0 {
            values.high
        } else {
            values.low
        };
    }
    x
}

// The two values the other way round.
fn exchanged(values: Values) -> Values {
    Values {
        low: values.high,
        high: values.low,
    }
}

// Blocks of two values: each alone, and in turn either way.
fn steadies(rt: &impl Print, n: usize, joints: Joints, values: Values) -> io::Result<()> {
    let Values { low, high } = values;
    block(rt, n, joints, [low; ROOM])?;
    block(rt, n, joints, [high; ROOM])?;
    block(rt, n, joints, alternating(low, high))?;
    block(rt, n, joints, alternating(high, low))
}

// One of two values at every place.
fn impulses(rt: &impl Print, n: usize, values: Values) -> io::Result<()> {
    for i in 0..n {
        block(rt, n, LONG_JOINTS, impulse(i, values.low))?;
        block(rt, n, LONG_JOINTS, impulse(i, values.high))?;
    }
    Ok(())
}

// Every coefficient driven as far as it goes, either way.
fn drives(rt: &impl Print, n: usize, joints: Joints, values: Values) -> io::Result<()>
    requires { T (tabled n) × (n ≤ 216) }
{
    for k in 0..n / 2 {
        block(rt, n, joints, driven(n, k, values))?;
        block(rt, n, joints, driven(n, k, exchanged(values)))?;
    }
    Ok(())
}

fn noises(rt: &impl Print, n: usize, joints: Joints, count: usize) -> io::Result<()>
    requires { (n ≤ 216) × (count ≤ 40) }
{
    for b in 0..count {
        block(rt, n, joints, noise::samples((100 * n + b) as u32, span(b)))?;
    }
    Ok(())
}

// The loudest blocks or the quiet ones, between long joints.
fn two_values(rt: &impl Print, n: usize, values: Values) -> io::Result<()>
    requires { T (tabled n) × (n ≤ 216) }
{
    steadies(rt, n, LONG_JOINTS, values)?;
    impulses(rt, n, values)?;
    drives(rt, n, LONG_JOINTS, values)
}

// The loudest samples at place i of a block, and at its mirror.
fn mirrored(rt: &impl Print, n: usize, joints: Joints, i: usize) -> io::Result<()>
    requires { i < n }
{
    block(rt, n, joints, impulse(i, i16::MIN))?;
    block(rt, n, joints, impulse(i, i16::MAX))?;
    block(rt, n, joints, impulse(n - 1 - i, i16::MIN))?;
    block(rt, n, joints, impulse(n - 1 - i, i16::MAX))
}

// The first and the last place of each third of a half, which a short joint has in zeros, in its rise and in ones.
fn thirds(rt: &impl Print, n: usize, joints: Joints) -> io::Result<()>
    requires { 6 ≤ n }
{
    let r = n / 6;
    mirrored(rt, n, joints, 0)?;
    mirrored(rt, n, joints, r - 1)?;
    mirrored(rt, n, joints, r)?;
    mirrored(rt, n, joints, 2 * r - 1)?;
    mirrored(rt, n, joints, 2 * r)?;
    mirrored(rt, n, joints, 3 * r - 1)
}

// Blocks between joints of which one or both are short.
fn shaped(rt: &impl Print, n: usize, left: u32, right: u32) -> io::Result<()>
    requires { T (tabled n) × (6 ≤ n) × (n ≤ 216) }
{
    let joints = Joints { left, right };
    steadies(rt, n, joints, LOUD)?;
    thirds(rt, n, joints)?;
    drives(rt, n, joints, LOUD)?;
    noises(rt, n, joints, 8)
}

// A good block between joints that have no such shape: above 1, and such that are 0 or 1 in 8, 16 or 31 bits.
fn wrong_shapes(rt: &impl Print, n: usize) -> io::Result<()> {
    let x = noise::samples(9, 32768);
    for (left, right) in [
        (2, 0),
        (0, 2),
        (2, 2),
        (2, 1),
        (1, 2),
        (256, 0),
        (0, 257),
        (65536, 1),
        (1, 65537),
        (2147483648, 0),
        (0, 2147483649),
        (4294967295, 4294967295),
    ] {
        block(rt, n, Joints { left, right }, x)?;
    }
    Ok(())
}

// Buffers that are longer, shorter, empty, or one in place of the other.
fn wrong_lengths(rt: &impl Print, n: usize, joints: Joints) -> io::Result<()>
    requires { (2 ≤ n) × (n ≤ 216) }
{
    let x: [i16; ROOM] = noise::samples(n as u32, 32768);
    let m = n / 2;
    for (samples, coefficients) in [
        (n - 1, m),
        (n + 1, m),
        (n, m - 1),
        (n, m + 1),
        (n - 1, m - 1),
        (n + 1, m + 1),
        (0, 0),
        (0, m),
        (n, 0),
        (m, n),
        (m, m),
        (n, n),
    ] {
        each_route(rt, n, joints, first(&x, samples), coefficients)?;
    }
    Ok(())
}

// The buffers of every length under the name of one.
fn named(rt: &impl Print, n: usize) -> io::Result<()> {
    let x: [i16; ROOM] = noise::samples(5, 32768);
    for length in LENGTHS {
        each_route(rt, n, LONG_JOINTS, first(&x, length), length / 2)?;
    }
    Ok(())
}

// A call on the first l samples of noise and m marks.
fn lent(
    rt: &impl Print,
    n: usize,
    left: u32,
    right: u32,
    seed: u32,
    l: usize,
    m: usize,
) -> io::Result<()> {
    let x: [i16; ROOM] = noise::samples(seed, 32768);
    each_route(rt, n, Joints { left, right }, first(&x, l), m)
}

// A length that is not tabled: with buffers of every length, with its own or others, with none, and with shapes above 1.
fn untabled(rt: &impl Print, n: usize, l: usize, m: usize) -> io::Result<()> {
    named(rt, n)?;
    lent(rt, n, LONG, LONG, 6, l, m)?;
    lent(rt, n, LONG, LONG, 7, 0, 0)?;
    lent(rt, n, LONG, LONG, 8, 80, 80)?;
    lent(rt, n, 2, LONG, 6, l, m)?;
    lent(rt, n, SHORT, 2, 7, 0, 0)
}

// Blocks between long joints.
fn long_joints(rt: &impl Print, n: usize) -> io::Result<()>
    requires { T (tabled n) × (n ≤ 216) }
{
    block(rt, n, LONG_JOINTS, [0; ROOM])?;
    two_values(rt, n, LOUD)?;
    two_values(rt, n, QUIET)?;
    noises(rt, n, LONG_JOINTS, 40)
}

fn short_joints(rt: &impl Print, n: usize) -> io::Result<()>
    requires { T (tabled n) × (6 ≤ n) × (n ≤ 216) }
{
    shaped(rt, n, LONG, SHORT)?;
    shaped(rt, n, SHORT, LONG)?;
    shaped(rt, n, SHORT, SHORT)
}

// Wrong shapes, and wrong lengths beside shapes of either kind.
fn refused(rt: &impl Print, n: usize) -> io::Result<()>
    requires { (2 ≤ n) × (n ≤ 216) }
{
    wrong_shapes(rt, n)?;
    for (left, right) in [(LONG, LONG), (SHORT, SHORT), (2, LONG), (SHORT, 2)] {
        wrong_lengths(rt, n, Joints { left, right })?;
    }
    Ok(())
}

fn offered(rt: &impl Print, n: usize) -> io::Result<()>
    requires { T (tabled n) × (6 ≤ n) × (n ≤ 216) }
{
    long_joints(rt, n)?;
    short_joints(rt, n)?;
    refused(rt, n)?;
    named(rt, n)
}

// A block of n: a sample at one place and another at a second, and silence.
struct Two(usize, (usize, i16), (usize, i16));

// Blocks in which an exact half below zero is met, as vectors/halves.py finds them.
static HALVES: [Two; 50] = [
    // y, X, A, rB, rC, B + D and B - D, a line for each.
    Two(12, (0, -16384), (1, 2)),
    Two(12, (0, 22648), (1, -31887)),
    Two(12, (0, 29547), (2, 1449)),
    Two(12, (3, 7782), (11, -31277)),
    Two(12, (3, 21368), (11, -27347)),
    Two(12, (1, 10464), (0, -21011)),
    Two(12, (1, -11016), (0, -28904)),
    Two(24, (3, -32768), (4, 2)),
    Two(24, (0, -2071), (1, -28753)),
    Two(24, (0, 11518), (1, -2137)),
    Two(24, (7, 15907), (23, -31618)),
    Two(24, (7, 23044), (23, -32498)),
    Two(24, (1, -26072), (0, -31697)),
    Two(24, (1, -17397), (0, -15645)),
    Two(36, (0, -24576), (1, 1)),
    Two(36, (0, 26282), (1, -28661)),
    Two(36, (0, 6211), (1, 5600)),
    Two(36, (11, 12948), (35, -31105)),
    Two(36, (11, 7126), (35, -31327)),
    Two(36, (1, -23189), (0, -30886)),
    Two(36, (1, 2398), (0, 2324)),
    // By the double route rB and rC of the splits of a - b + c, of rB and of rC, and then what X(3k), X(3k + 1) and X(3k + 2) are rounded from.
    Two(36, (8, 8352), (24, -29699)),
    Two(36, (8, -10140), (24, -30330)),
    Two(36, (8, -14110), (24, -28476)),
    Two(36, (8, -7153), (24, -32523)),
    Two(36, (8, -5281), (24, -32578)),
    Two(36, (8, 9549), (24, -31886)),
    Two(36, (0, -21191), (1, 1124)),
    Two(36, (0, 25054), (1, -4841)),
    Two(36, (0, 20186), (1, 2861)),
    // y, X, A, rB, rC, B + D and B - D, again.
    Two(72, (0, -32768), (1, 1)),
    Two(72, (0, -19629), (1, -29601)),
    Two(72, (0, -26894), (1, 25811)),
    Two(72, (23, 30783), (71, -31555)),
    Two(72, (23, 27462), (71, -32522)),
    Two(72, (1, -25562), (0, -25268)),
    Two(72, (1, 13215), (0, -26755)),
    // By the double route the same as above.
    Two(72, (16, 5259), (48, -25371)),
    Two(72, (16, 10059), (48, -32702)),
    Two(72, (16, -18590), (48, -31185)),
    Two(72, (16, 4408), (48, -32453)),
    Two(72, (16, 21157), (48, -12395)),
    Two(72, (16, 18227), (48, -1200)),
    Two(72, (0, 23299), (1, -31091)),
    Two(72, (0, 23500), (1, 5140)),
    Two(72, (0, 9569), (1, 19302)),
    // At the two longest lengths y and X.
    Two(108, (0, -16384), (1, 1)),
    Two(108, (0, -27483), (1, -29584)),
    Two(216, (1, -32768), (2, 1)),
    Two(216, (0, 20764), (1, -32597)),
];

fn with_two(rt: &impl Print, samples: &Two) -> io::Result<()> {
    let Two(n, (i, v), (j, w)) = samples;
    block(rt, *n, LONG_JOINTS, with(impulse(*i, *v), *j, *w))
}

fn halves(rt: &impl Print) -> io::Result<()> {
    for samples in &HALVES {
        with_two(rt, samples)?;
    }
    Ok(())
}

#[tactic(auto, unfolding(cosine::specs::Kernels::tabled, cosine::specs::Kernels::lengths, arithmetic::specs::Lists::every))]
fn main(rt: HostRuntime) -> io::Result<()> {
    offered(&rt, 12)?;
    offered(&rt, 24)?;
    offered(&rt, 36)?;
    offered(&rt, 72)?;
    offered(&rt, 108)?;
    offered(&rt, 216)?;
    untabled(&rt, 0, 1, 1)?;
    untabled(&rt, 11, 11, 5)?;
    untabled(&rt, 13, 13, 6)?;
    untabled(&rt, 48, 48, 24)?;
    untabled(&rt, 18446744073709551615, 80, 40)?;
    untabled(&rt, 107, 107, 53)?;
    untabled(&rt, 144, 144, 72)?;
    untabled(&rt, 217, 217, 108)?;
    untabled(&rt, 432, 216, 108)?;
    halves(&rt)
}
