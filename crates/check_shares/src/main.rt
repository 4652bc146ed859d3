// Which coefficient moved a sample, through the public calls, compared with what vectors/shares.py makes from the definitions.
#![tactic(auto)]

mod near;
mod recordings;

ghost use Rattle.std.specs.Prelude.{◌≤◌, ◌<◌, ◌/◌, ◌^◌, T, IfSome};
ghost use Rattle.cosine.specs.Kernels.{tabled};

use bank_report::{ABOVE, BELOW, LONG, SHORT, code};
use filter_bank::{Refusal, Share};
use report::buffers::{alternating, first, first_of, with};
use report::noise;
use report::noise::{below, random};
use share_calls::Change;
use std::io;

// Room for the coefficients of a block, and for buffers that are too long.
const ROOM: usize = 112;

// Room for the numbers of a share and one more.
const NUMBERS: usize = 4;

// The largest change, from one end of the range to the other.
const WHOLE: i32 = 1073741824;

// Random blocks, and the choices of causes, at each length.
const NOISES: usize = 48;

const CHOICES: usize = 64;

// The blocks that cover a sample. As a number the earlier is 0 and the later 1.
#[derive(Clone, Copy)]
enum Which {
    Earlier,
    Later,
}

// The original coefficients of a block and the changed ones.
#[derive(Clone, Copy)]
struct Block {
    original: [i32; ROOM],
    changed: [i32; ROOM],
}

// The two blocks that cover a sample.
#[derive(Clone, Copy)]
struct Blocks {
    earlier: Block,
    later: Block,
}

// A sample: the length of its blocks, the shape of the joint that they share, and its place in the hop.
#[derive(Clone, Copy)]
struct Sample {
    n: usize,
    shape: u32,
    place: usize,
}

// How many coefficients are lent of each list, the earlier block's original and changed ones and then the later's, and room for how many numbers.
#[derive(Clone, Copy)]
struct Sizes {
    lists: [usize; 4],
    room: usize,
}

// A coefficient of a block, and by how much it changes.
#[derive(Clone, Copy)]
struct Move {
    block: Which,
    k: usize,
    d: i32,
}

// What a call by value answers: its number, and 1, the block and the coefficient where one is named.
fn show(rt: &impl Print, outcome: Result<Option<Share>, Refusal>) -> io::Result<()> {
    let code = code(&outcome);
    match outcome {
        Ok(Some(share)) => print!(rt; ",{code},1,{},{}", share.block, share.coefficient),
        _ => print!(rt; ",{code},0,0,0"),
    }
}

// What the call for C answers, all numbers of its room afterwards, and the line's end.
fn show_named(
    rt: &impl Print,
    outcome: Result<(), Refusal>,
    named: [u32; NUMBERS],
) -> io::Result<()> {
    let code = code(&outcome);
    let [any, block, coefficient, beside] = named;
    println!(rt; ",{code},{any},{block},{coefficient},{beside}")
}

// Behind the word for a case: what both calls are asked and what they answer.
fn offer(rt: &impl Print, sample: Sample, blocks: &Blocks, sizes: Sizes) -> io::Result<()> {
    let Sample { n, shape, place } = sample;
    let [a, b, c, d] = sizes.lists;
    let earlier = Change {
        original: first(&blocks.earlier.original, a),
        changed: first(&blocks.earlier.changed, b),
    };
    let later = Change {
        original: first(&blocks.later.original, c),
        changed: first(&blocks.later.changed, d),
    };
    print!(rt; ",{n},{shape},{place}")?;
    show(
        rt,
        filter_bank::largest_share(n, shape, earlier, later, place),
    )?;
    let mut named = [12345; NUMBERS];
    let room = first_of(&mut named, sizes.room);
    let outcome = filter_bank::name_share(n, shape, earlier, later, place, room);
    show_named(rt, outcome, named)
}

// The stated sizes.
fn stated(m: usize) -> Sizes {
    Sizes {
        lists: [m; 4],
        room: 3,
    }
}

// The calls with every length as it should be.
fn asked(rt: &impl Print, sample: Sample, blocks: &Blocks) -> io::Result<()> {
    offer(rt, sample, blocks, stated(sample.n / 2))
}

// A block that does not change.
fn still(seed: u32) -> Block {
    let x = noise::coefficients(seed, 536870912);
    Block {
        original: x,
        changed: x,
    }
}

fn still_blocks() -> Blocks {
    Blocks {
        earlier: still(1),
        later: still(2),
    }
}

// What a change of d goes from and to, about zero.
fn from(d: i32) -> i32 {
    -(d / 2)
}

fn to(d: i32) -> i32 {
    d - d / 2
}

// The same block with a change of d at coefficient k: up at an even one, down at an odd one.
fn moved_block(x: Block, k: usize, d: i32) -> Block {
    let (original, changed) = if k % 2 == 0 {
        (from(d), to(d))
    } else {
        (to(d), from(d))
    };
    Block {
        original: with(x.original, k, original),
        changed: with(x.changed, k, changed),
    }
}

fn moved(blocks: Blocks, by: Move) -> Blocks {
    match by.block {
        Which::Earlier => Blocks {
            earlier: moved_block(blocks.earlier, by.k, by.d),
            ..blocks
        },
        Which::Later => Blocks {
            later: moved_block(blocks.later, by.k, by.d),
            ..blocks
        },
    }
}

// Every coefficient changes by d.
fn all_moved(d: i32) -> Block {
    Block {
        original: alternating(from(d), to(d)),
        changed: alternating(to(d), from(d)),
    }
}

// Every coefficient of the earlier block changes by d, and every one of the later by e. Where 3 divides 2i + 1 + M, i the place in a block, three coefficients or more have
// its largest K: ties within a block.
fn alike(rt: &impl Print, sample: Sample, d: i32, e: i32) -> io::Result<()> {
    print!(rt; "alike,{d},{e}")?;
    let blocks = Blocks {
        earlier: all_moved(d),
        later: all_moved(e),
    };
    asked(rt, sample, &blocks)
}

// No change; the least and the largest, in either block or in both. A block whose W is 0 is never named.
fn at_place(rt: &impl Print, sample: Sample) -> io::Result<()> {
    print!(rt; "still")?;
    asked(rt, sample, &still_blocks())?;
    for (d, e) in [
        (1, 0),
        (0, 1),
        (1, 1),
        (WHOLE, 0),
        (0, WHOLE),
        (WHOLE, WHOLE),
    ] {
        alike(rt, sample, d, e)?;
    }
    Ok(())
}

fn every_place(rt: &impl Print, n: usize, shape: u32) -> io::Result<()> {
    for place in 0..n / 2 {
        at_place(rt, Sample { n, shape, place })?;
    }
    Ok(())
}

// One coefficient changes: each is looked at.
fn one(rt: &impl Print, sample: Sample, by: Move) -> io::Result<()> {
    print!(rt; "one,{},{},{}", by.block as u32, by.k, by.d)?;
    asked(rt, sample, &moved(still_blocks(), by))
}

// In either block and at either shape, by the least change or by the largest.
fn ones(rt: &impl Print, n: usize) -> io::Result<()>
    requires { (2 ≤ n) × (n ≤ 216) }
{
    for k in 0..n / 2 {
        let place = (7 * k + 3) % (n / 2);
        for (shape, block, d) in [
            (LONG, Which::Earlier, 1),
            (LONG, Which::Later, WHOLE),
            (SHORT, Which::Earlier, WHOLE),
            (SHORT, Which::Later, 1),
        ] {
            one(rt, Sample { n, shape, place }, Move { block, k, d })?;
        }
    }
    Ok(())
}

// Two coefficients change, each in its block.
fn pair(rt: &impl Print, sample: Sample, by: Move, and: Move) -> io::Result<()> {
    print!(rt; "pair,{},{},{}", by.block as u32, by.k, by.d)?;
    print!(rt; ",{},{},{}", and.block as u32, and.k, and.d)?;
    asked(rt, sample, &moved(moved(still_blocks(), by), and))
}

// One more.
fn further(by: Move) -> Move {
    Move {
        d: by.d.saturating_add(1),
        ..by
    }
}

// Equal shares, and one more on either side.
fn beside(rt: &impl Print, sample: Sample, by: Move, and: Move) -> io::Result<()> {
    pair(rt, sample, by, and)?;
    pair(rt, sample, further(by), and)?;
    pair(rt, sample, by, further(and))
}

// The size of K(i,k).
fn kernel_size(n: usize, i: usize, k: usize) -> u64
    requires { T (tabled n) × (i < n) × (k < n / 2) }
    ensures { result ≤ 2 ^ 26 }
{
    let cos = cosine::quarter_turn();
    arithmetic::size(cosine::kernel(&cos, n, i, k))
}

// W at a place of a hop, of the later block and of the earlier one.
fn rise_size(n: usize, shape: u32, place: usize) -> u64
    requires { T (tabled n) × (place < n / 2) }
    ensures { result ≤ 2 ^ 26 }
{
    let cos = cosine::quarter_turn();
    arithmetic::size(cosine::rising(&cos, shape, n, place))
}

fn fall_size(n: usize, shape: u32, place: usize) -> u64
    requires { T (tabled n) × (place < n / 2) }
    ensures { result ≤ 2 ^ 26 }
{
    let cos = cosine::quarter_turn();
    arithmetic::size(cosine::falling(&cos, shape, n, place))
}

// A change of 15 times a size.
fn fifteen(size: u64) -> i32
    requires { size ≤ 2 ^ 26 }
{
    (15 * size) as i32
}

// A tie within a block at its place i: each of two coefficients changes by 15 times the other's K.
fn tied(
    rt: &impl Print,
    sample: Sample,
    block: Which,
    i: usize,
    j: usize,
    k: usize,
) -> io::Result<()>
    requires { T (tabled sample.n) × (i < sample.n) × (j < sample.n / 2) × (k < sample.n / 2) }
{
    let d = fifteen(kernel_size(sample.n, i, k));
    let e = fifteen(kernel_size(sample.n, i, j));
    beside(rt, sample, Move { block, k: j, d }, Move { block, k, d: e })
}

fn ties_at(rt: &impl Print, sample: Sample) -> io::Result<()>
    requires { T (tabled sample.n) × (12 ≤ sample.n) × (sample.n ≤ 216) × (sample.place < sample.n / 2) }
{
    let m = sample.n / 2;
    let place = sample.place;
    let j = 5 * place % m;
    let k = (j + 1 + place % (m - 1)) % m;
    tied(rt, sample, Which::Earlier, m + place, j, k)?;
    tied(rt, sample, Which::Later, place, j, k)
}

// The first coefficient whose K at place i has this size.
fn with_size(n: usize, i: usize, size: u64) -> Option<usize>
    requires { T (tabled n) × (i < n) }
    ensures { IfSome result (λ k. k < n / 2) }
{
    for k in 0..n / 2 {
        if kernel_size(n, i, k) == size {
            return Some(k);
        }
    }
    None
}

// A tie between the blocks. The earlier block's coefficient is one whose K is as large as W of the later block: that W is then in both shares, and the changes have to make up
// for W of the earlier block and K of the later one alone.
fn tied_blocks(rt: &impl Print, sample: Sample, k: usize) -> io::Result<()>
    requires { T (tabled sample.n) × (12 ≤ sample.n) × (sample.n ≤ 216) × (sample.place < sample.n / 2) × (k < sample.n / 2) }
{
    let Sample { n, shape, place } = sample;
    if let Some(j) = with_size(n, n / 2 + place, rise_size(n, shape, place)) {
        let earlier = Move {
            block: Which::Earlier,
            k: j,
            d: fifteen(kernel_size(n, place, k)),
        };
        let later = Move {
            block: Which::Later,
            k,
            d: fifteen(fall_size(n, shape, place)),
        };
        beside(rt, sample, earlier, later)?;
    }
    Ok(())
}

fn ties(rt: &impl Print, n: usize) -> io::Result<()>
    requires { T (tabled n) × (12 ≤ n) × (n ≤ 216) }
{
    for place in 0..n / 2 {
        let shape = (place % 2) as u32;
        let k = 3 * place % (n / 2);
        ties_at(rt, Sample { n, shape, place })?;
        tied_blocks(
            rt,
            Sample {
                n,
                shape: LONG,
                place,
            },
            k,
        )?;
        tied_blocks(
            rt,
            Sample {
                n,
                shape: SHORT,
                place,
            },
            k,
        )?;
    }
    Ok(())
}

// How far random coefficients reach, by turns.
fn span_of(t: usize) -> u32
    ensures { result < 2 ^ 30 }
{
    match t / 2 % 6 {
        0 => 1,
        1 => 3,
        2 => 1000,
        3 => 6000000,
        4 => 150000000,
        _ => 536870912,
    }
}

// Every coefficient changes at random.
fn noisy(seed: u32, span: u32) -> Block
    requires { (seed < 2 ^ 31) × (span < 2 ^ 30) }
{
    Block {
        original: noise::coefficients(2 * seed, span),
        changed: noise::coefficients(2 * seed + 1, span),
    }
}

// Small changes everywhere.
fn noisy_blocks() -> Blocks {
    Blocks {
        earlier: noisy(3, 1000),
        later: noisy(4, 1000),
    }
}

fn noise_at(rt: &impl Print, n: usize, t: usize) -> io::Result<()>
    requires { (2 ≤ n) × (n ≤ 216) × (t < 48) }
{
    let seed = (100 * n + 2 * t) as u32;
    let sample = Sample {
        n,
        shape: (t % 2) as u32,
        place: below(random(seed), n / 2),
    };
    let span = span_of(t);
    let blocks = Blocks {
        earlier: noisy(seed, span),
        later: noisy(seed + 1, span),
    };
    print!(rt; "noise,{t}")?;
    asked(rt, sample, &blocks)
}

fn noises(rt: &impl Print, n: usize) -> io::Result<()>
    requires { (2 ≤ n) × (n ≤ 216) }
{
    for t in 0..NOISES {
        noise_at(rt, n, t)?;
    }
    Ok(())
}

// Numbers that are no shape, some of which are one where upper bits are lost.
fn wrong_shapes(rt: &impl Print, n: usize) -> io::Result<()> {
    for shape in [2, 3, 256, 65537, 2147483648, 4294967295] {
        print!(rt; "shape")?;
        asked(rt, Sample { n, shape, place: 1 }, &noisy_blocks())?;
    }
    Ok(())
}

// The last place of a hop, and such as lie outside.
fn places(rt: &impl Print, n: usize) -> io::Result<()>
    requires { (2 ≤ n) × (n ≤ 216) }
{
    let shape = LONG;
    for place in [
        n / 2 - 1,
        n / 2,
        n / 2 + 1,
        n - 1,
        4294967296,
        18446744073709551615,
    ] {
        print!(rt; "place")?;
        asked(rt, Sample { n, shape, place }, &noisy_blocks())?;
    }
    Ok(())
}

// Other lengths of the four, and of the room.
fn sized(rt: &impl Print, n: usize, sizes: Sizes) -> io::Result<()> {
    let [p, q, r, s] = sizes.lists;
    print!(rt; "sized,{p},{q},{r},{s},{}", sizes.room)?;
    let sample = Sample {
        n,
        shape: SHORT,
        place: 1,
    };
    offer(rt, sample, &noisy_blocks(), sizes)
}

// One by one, and all at once.
fn wrong_length(rt: &impl Print, n: usize, m: usize, l: usize) -> io::Result<()> {
    for lists in [
        [l, m, m, m],
        [m, l, m, m],
        [m, m, l, m],
        [m, m, m, l],
        [l, l, l, l],
    ] {
        sized(rt, n, Sizes { lists, room: 3 })?;
    }
    Ok(())
}

fn wrong_lengths(rt: &impl Print, n: usize) -> io::Result<()>
    requires { (2 ≤ n) × (n ≤ 216) }
{
    let m = n / 2;
    wrong_length(rt, n, m, m - 1)?;
    wrong_length(rt, n, m, m + 1)?;
    wrong_length(rt, n, m, 0)
}

fn rooms(rt: &impl Print, n: usize) -> io::Result<()> {
    for room in [0, 1, 2, 4] {
        let lists = [n / 2; 4];
        sized(rt, n, Sizes { lists, room })?;
    }
    Ok(())
}

// One of the four lists. As a number each is its place here.
#[derive(Clone, Copy)]
enum List {
    EarlierOriginal,
    EarlierChanged,
    LaterOriginal,
    LaterChanged,
}

// The blocks with v in place of coefficient k of a list.
fn spoilt(blocks: Blocks, list: List, k: usize, v: i32) -> Blocks {
    let Blocks {
        mut earlier,
        mut later,
    } = blocks;
    match list {
        List::EarlierOriginal => earlier.original = with(earlier.original, k, v),
        List::EarlierChanged => earlier.changed = with(earlier.changed, k, v),
        List::LaterOriginal => later.original = with(later.original, k, v),
        List::LaterChanged => later.changed = with(later.changed, k, v),
    }
    Blocks { earlier, later }
}

// In each of the four lists.
fn beyond(rt: &impl Print, n: usize, k: usize, v: i32) -> io::Result<()> {
    let sample = Sample {
        n,
        shape: LONG,
        place: 1,
    };
    for list in [
        List::EarlierOriginal,
        List::EarlierChanged,
        List::LaterOriginal,
        List::LaterChanged,
    ] {
        print!(rt; "beyond,{},{k},{v}", list as u32)?;
        asked(rt, sample, &spoilt(noisy_blocks(), list, k, v))?;
    }
    Ok(())
}

// At the first coefficient, the last and between them; just behind the last it is not looked at, and at the limit itself it is taken.
fn limits(rt: &impl Print, n: usize) -> io::Result<()>
    requires { (2 ≤ n) × (n ≤ 216) }
{
    let m = n / 2;
    for (k, v) in [
        (0, ABOVE),
        (m - 1, BELOW),
        (m / 2, i32::MAX),
        (1, i32::MIN),
        (m, ABOVE),
        (0, ABOVE - 1),
        (m - 1, BELOW + 1),
    ] {
        beyond(rt, n, k, v)?;
    }
    Ok(())
}

// Causes, each there or not: the block length, the shape or the hop, the length of the lists, the place, the room and a coefficient.
#[derive(Clone, Copy)]
struct Causes {
    length: bool,
    shape_or_hop: bool,
    lists: bool,
    place: bool,
    room: bool,
    coefficient: bool,
}

// A choice of them by its number, a bit for each.
fn causes_by(choice: usize) -> Causes {
    Causes {
        length: choice % 2 == 1,
        shape_or_hop: choice / 2 % 2 == 1,
        lists: choice / 4 % 2 == 1,
        place: choice / 8 % 2 == 1,
        room: choice / 16 % 2 == 1,
        coefficient: choice / 32 % 2 == 1,
    }
}

// The one value where a cause is there, and else the other.
fn either<T: Copy>(is_there: bool, damaged: T, sound: T) -> T {
    if is_there { damaged } else { sound }
}

fn causes_of(rt: &impl Print, n: usize, choice: usize) -> io::Result<()>
    requires { (2 ≤ n) × (n ≤ 216) }
{
    let m = n / 2;
    let causes = causes_by(choice);
    let sample = Sample {
        n: either(causes.length, n + 1, n),
        shape: either(causes.shape_or_hop, 2, SHORT),
        place: either(causes.place, m, m - 1),
    };
    let sizes = Sizes {
        lists: [either(causes.lists, m - 1, m); 4],
        room: either(causes.room, 4, 3),
    };
    let v = either(causes.coefficient, BELOW, 0);
    print!(rt; "causes,{choice}")?;
    offer(
        rt,
        sample,
        &spoilt(noisy_blocks(), List::LaterChanged, 0, v),
        sizes,
    )
}

// Every choice of the causes: the first in their order is answered.
fn every_cause(rt: &impl Print, n: usize) -> io::Result<()>
    requires { (2 ≤ n) × (n ≤ 216) }
{
    for choice in 0..CHOICES {
        causes_of(rt, n, choice)?;
    }
    Ok(())
}

fn refusals(rt: &impl Print, n: usize) -> io::Result<()>
    requires { (2 ≤ n) × (n ≤ 216) }
{
    wrong_shapes(rt, n)?;
    places(rt, n)?;
    wrong_lengths(rt, n)?;
    rooms(rt, n)?;
    limits(rt, n)?;
    every_cause(rt, n)
}

// A length that is not tabled: 1 with the lists of m, with none, with a shape that is none and a place outside, and with a coefficient out of range.
fn untabled(rt: &impl Print, n: usize, m: usize) -> io::Result<()> {
    sized(rt, n, stated(m))?;
    sized(
        rt,
        n,
        Sizes {
            lists: [0; 4],
            room: 0,
        },
    )?;
    print!(rt; "untabled")?;
    let outside = Sample {
        n,
        shape: 2,
        place: m,
    };
    offer(rt, outside, &noisy_blocks(), stated(m))?;
    print!(rt; "untabled")?;
    let sample = Sample {
        n,
        shape: LONG,
        place: 0,
    };
    let blocks = spoilt(noisy_blocks(), List::EarlierOriginal, 0, ABOVE);
    offer(rt, sample, &blocks, stated(m))
}

fn offered(rt: &impl Print, n: usize) -> io::Result<()>
    requires { T (tabled n) × (12 ≤ n) × (n ≤ 216) }
{
    every_place(rt, n, LONG)?;
    every_place(rt, n, SHORT)?;
    ones(rt, n)?;
    ties(rt, n)?;
    noises(rt, n)?;
    refusals(rt, n)
}

#[tactic(auto, unfolding(cosine::specs::Kernels::tabled, cosine::specs::Kernels::lengths, arithmetic::specs::Lists::every))]
fn main(rt: HostRuntime) -> io::Result<()> {
    offered(&rt, 12)?;
    offered(&rt, 24)?;
    offered(&rt, 36)?;
    offered(&rt, 72)?;
    offered(&rt, 108)?;
    offered(&rt, 216)?;
    untabled(&rt, 0, 6)?;
    untabled(&rt, 11, 5)?;
    untabled(&rt, 13, 6)?;
    untabled(&rt, 48, 24)?;
    untabled(&rt, 144, 72)?;
    untabled(&rt, 217, 108)?;
    untabled(&rt, 432, 108)?;
    untabled(&rt, usize::MAX, 36)?;
    near::near_shares(&rt)?;
    recordings::recordings(&rt)
}
