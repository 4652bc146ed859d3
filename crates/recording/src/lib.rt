// Whole recordings, block by block, their coefficients in either order.
// No function here is a public call: the public calls over recordings call `analyse` and `synthesise`, under their requires, after every check, `coarsest` calls
// `blocks_from`, and `listing` begins with `silent_block`.
// Route, N, the hops and the samples are handed on one by one: so other crates call `analyse`, `synthesise` and `blocks_from`, which docs/DECISIONS.md names.
#![tactic(auto)]

ghost use Rattle.std.specs.Prelude.{◌≡◌, ◌+◌, ◌*◌, ◌/◌, ◌^◌, ◌≤◌, ◌<◌, T, length, replicate, pos};
ghost use Rattle.arithmetic.specs.Lists.{Small, joined};
ghost use Rattle.cosine.specs.Kernels.{tabled, rising, falling};
ghost use Rattle.orders.specs.declared.Order.TheVariants.{ByFrequency};
ghost use Rattle.orders.specs.Orders.{part};
ghost use Rattle.stream.specs.Synthesis.{storage, new_tail, hop};
ghost use Rattle.stream.specs.StepLaws.{Bounded};
ghost use Rattle.analysis.specs.Analysis.{offered, coefficients};
ghost use Rattle.recording.specs.Recordings.{block, analysis, synthesis};
ghost use Rattle.recording.specs.BlockLaws.{edge};

use analysis::Route;
use orders::Order;

// Samples of the longest block: two hops of as many as a stream has storage for.
pub const BLOCK: usize = 2 * stream::STORAGE;

// Zeros, room for a block.
pub fn silent_block() -> [i16; BLOCK]
    ensures { result ≡ replicate (2 * storage) (pos 0) }
{
    [0; BLOCK]
}

// The coefficients of a block of one hop, which stands at place `at`, and of zeros: the first block and the last are such, in a block of their own.
fn edge_block(route: Route, n: usize, at: usize, hop: &[i16], out: &mut [i32])
    requires { T (offered route n) × (at ≤ n / 2) × (length hop.now ≡ n / 2) × (length out.old ≡ n / 2) }
    ensures { out.new ≡ coefficients route n 0 0 (edge n at hop.now) }
{
    let mut block = silent_block();
    block[at..at + n / 2].copy_from_slice(hop);
    analysis::analyse_block(route, n, windows::LONG, &block[..n], out);
}

// The coefficients of block b of a recording: it covers hops b - 1 and b, and a hop outside the recording is zeros. A block that stands in the samples is read in place.
fn block_at(route: Route, n: usize, hops: usize, x: &[i16], b: usize, out: &mut [i32])
    requires offered { T (offered route n) × (1 ≤ hops) × (hops ≤ 4095) × (b ≤ hops) }
    requires x_len { (length x.now ≡ hops * (n / 2)) × (length out.old ≡ n / 2) }
    ensures { out.new ≡ coefficients route n 0 0 (block n x.now b) }
{
    let m = n / 2;
    if b == 0 {
        edge_block(route, n, m, &x[..m], out);
        return;
    }
    let from = b * m - m;
    if b == hops {
        edge_block(route, n, 0, &x[from..], out);
        return;
    }
    analysis::analyse_block(route, n, windows::LONG, &x[from..from + n], out);
}

// The coefficients of `count` blocks of a recording from `first` on, block after block.
pub fn blocks_from(
    route: Route,
    n: usize,
    hops: usize,
    x: &[i16],
    first: usize,
    count: usize,
    out: &mut [i32],
)
    requires offered { T (offered route n) × (1 ≤ hops) × (hops ≤ 4095) × (first + count ≤ hops + 1) }
    requires x_len { (length x.now ≡ hops * (n / 2)) × (length out.old ≡ count * (n / 2)) }
    ensures { out.new ≡ joined count (λ j. coefficients route n 0 0 (block n x.now (first + j))) }
{
    let m = n / 2;
    // Of what chunks_exact_mut lends, a proof keeps the lengths alone: here, and in `synthesise`, a part is found by its number.
    for j in 0..count {
        let at = j * m;
        block_at(route, n, hops, x, first + j, &mut out[at..at + m]);
    }
}

// The coefficients of a recording by frequency: a tile of blocks is made at a time, and put in its places band after band.
fn analyse_by_frequency(route: Route, n: usize, hops: usize, x: &[i16], out: &mut [i32])
    requires { T (offered route n) × (1 ≤ hops) × (hops ≤ 4095) × (length x.now ≡ hops * (n / 2)) × (length out.old ≡ (hops + 1) * (n / 2)) }
    ensures { out.new ≡ analysis route ByFrequency n hops x.now }
{
    let m = n / 2;
    let blocks = hops + 1;
    let mut tile = orders::tile();
    for b in (0..blocks).step_by(orders::TILE) {
        let count = orders::at_most_a_tile(blocks - b);
        let size = count * m;
        blocks_from(route, n, hops, x, b, count, &mut tile[..size]);
        orders::scatter(m, blocks, b, count, &tile[..size], out);
    }
}

// The coefficients of a recording, in the order named.
pub fn analyse(route: Route, order: Order, n: usize, hops: usize, x: &[i16], out: &mut [i32])
    requires { T (offered route n) × (1 ≤ hops) × (hops ≤ 4095) × (length x.now ≡ hops * (n / 2)) × (length out.old ≡ (hops + 1) * (n / 2)) }
    ensures { out.new ≡ analysis route order n hops x.now }
{
    match order {
        Order::ByBlock => blocks_from(route, n, hops, x, 0, hops + 1, out),
        Order::ByFrequency => analyse_by_frequency(route, n, hops, x, out),
    }
}

// A step on block b of the blocks whose coefficients lie in x, with long joints: by block they are read in place, by frequency they are gathered in `room` first.
fn advance(
    order: Order,
    n: usize,
    blocks: usize,
    b: usize,
    x: &[i32],
    room: &mut [i32],
    tail: &mut [i64],
    out: &mut [i16],
)
    requires tabled { T (tabled n) × (blocks ≤ 4096) × (b < blocks) × Small x.now (2 ^ 29) × (length x.now ≡ blocks * (n / 2)) }
    requires room_len { (length room.old ≡ n / 2) × (length tail.old ≡ storage) × Bounded (n / 2) tail.old × (length out.old ≡ n / 2) }
    ensures tail_after { tail.new ≡ new_tail n (rising 0 n) (falling 0 n) tail.old (part order (n / 2) blocks x.now b) }
    ensures out_after { out.new ≡ hop n (rising 0 n) (falling 0 n) tail.old (part order (n / 2) blocks x.now b) }
{
    let m = n / 2;
    match order {
        Order::ByBlock => {
            let first = b * m;
            synthesis::advance_tail(n, windows::LONG, &x[first..first + m], tail, out);
        }
        Order::ByFrequency => {
            orders::gather(order, blocks, b, x, room);
            synthesis::advance_tail(n, windows::LONG, room, tail, out);
        }
    }
}

// The samples of a recording, hop after hop: a step for each block, from a fresh stream, its tail in place. The first hop of `out` holds the
// run-in until the next step writes hop 0 over it.
pub fn synthesise(order: Order, n: usize, hops: usize, x: &[i32], out: &mut [i16])
    requires tabled { T (tabled n) × (1 ≤ hops) × (hops ≤ 4095) × Small x.now (2 ^ 29) }
    requires x_len { (length x.now ≡ (hops + 1) * (n / 2)) × (length out.old ≡ hops * (n / 2)) }
    ensures { out.new ≡ synthesis order n hops x.now }
{
    let m = n / 2;
    let blocks = hops + 1;
    let mut tail = [0i64; stream::STORAGE];
    let mut room = orders::room();
    advance(
        order,
        n,
        blocks,
        0,
        x,
        &mut room[..m],
        &mut tail,
        &mut out[..m],
    );
    for h in 0..hops {
        let at = h * m;
        advance(
            order,
            n,
            blocks,
            h + 1,
            x,
            &mut room[..m],
            &mut tail,
            &mut out[at..at + m],
        );
    }
}
