// Where the coefficients of a recording lie (document 02, P10), and a block taken from its places and put in them.
// No function here is a public call: `recording`, `recording_calls`, `page` and `share_calls` call them after every check, and `c_face` calls `numbered` and `hops_in` before any.
#![tactic(auto)]

ghost use Rattle.std.specs.Prelude.{◌≡◌, ◌++◌, min, ◌+◌, ◌*◌, ◌-◌, ◌≤◌, ◌<◌, length, replicate, pos};
ghost use Rattle.arithmetic.specs.Lists.{at, table};
ghost use Rattle.orders.specs.declared.Order.TheVariants.{ByFrequency};
ghost use Rattle.orders.specs.Orders.{order_of, hops_in, place, part, tiled, other, reordered};

// In which order: block after block, or coefficient after coefficient.
#[derive(Clone, Copy, Debug, PartialEq, Eq)]
pub enum Order {
    ByBlock,
    ByFrequency,
}

// For C: the order by its number, 0 by block and 1 by frequency .. No TryFrom: a call is made for an unknown order too, so that 1, for n, comes before 2; it would want two
// arms in each export.
#[tactic(auto, unfolding(crate::specs::Orders::order_of))]
pub fn numbered(order: u32) -> Order
    ensures { result ≡ order_of order }
{
    if order == 0 {
        Order::ByBlock
    } else {
        Order::ByFrequency
    }
}

// .. and the hops: none where the number is another, so that every call over recordings turns it away where it tests the lengths.
#[tactic(auto, unfolding(crate::specs::Orders::hops_in))]
pub fn hops_in(order: u32, hops: usize) -> usize
    ensures { result ≡ hops_in order hops }
{
    if order < 2 { hops } else { 0 }
}

// The place of coefficient k of block b, of `blocks` blocks of m. Order, m and blocks stay arguments here and below: most callers pass them once, so that a struct of
// them would be a name more and no call shorter.
#[tactic(auto, unfolding(crate::specs::Orders::place))]
pub fn place(order: Order, m: usize, blocks: usize, b: usize, k: usize) -> usize
    requires { (m ≤ 108) × (blocks ≤ 4096) × (b < blocks) × (k < m) }
    ensures { result ≡ place order m blocks b k }
{
    match order {
        Order::ByBlock => b * m + k,
        Order::ByFrequency => k * blocks + b,
    }
}

// The coefficients of block b, taken from their places.
pub fn gather(order: Order, blocks: usize, b: usize, x: &[i32], block: &mut [i32])
    requires { (length block.old ≤ 108) × (blocks ≤ 4096) × (b < blocks) × (length x.now ≡ blocks * length block.old) }
    ensures { block.new ≡ part order (length block.old) blocks x.now b }
{
    let m = block.len();
    for (k, entry) in block.iter_mut().enumerate() {
        *entry = x[place(order, m, blocks, b, k)];
    }
}

// Coefficients of the longest block.
pub const ROOM: usize = 108;

// Zeros, room for the coefficients of a block.
pub fn room() -> [i32; ROOM]
    ensures { result ≡ replicate 108 (pos 0) }
{
    [0; ROOM]
}

// The m coefficients of block b, gathered in a room of their own.
pub fn gathered(order: Order, m: usize, blocks: usize, b: usize, x: &[i32]) -> [i32; ROOM]
    requires { (m ≤ 108) × (blocks ≤ 4096) × (b < blocks) × (length x.now ≡ blocks * m) }
    ensures { result ≡ part order m blocks x.now b ++ replicate (108 - m) (pos 0) }
{
    let mut block = room();
    gather(order, blocks, b, x, &mut block[..m]);
    block
}

// Blocks of a tile: so many are put in their places at once.
pub const TILE: usize = 8;

// Zeros, room for the coefficients of a tile.
pub fn tile() -> [i32; TILE * ROOM]
    ensures { result ≡ replicate 864 (pos 0) }
{
    [0; TILE * ROOM]
}

// As many of the blocks that are left as a tile has.
pub fn at_most_a_tile(left: usize) -> usize
    ensures { result ≡ min left 8 }
{
    left.min(TILE)
}

// Coefficient k of each block of a tile, which has its blocks one after the other.
fn put_band(m: usize, k: usize, tile: &[i32], out: &mut [i32])
    requires { (m ≤ 108) × (k < m) × (length out.old ≤ 4096) × (length tile.now ≡ length out.old * m) }
    ensures { out.new ≡ table (length out.old) (λ j. at tile.now (j * m + k)) }
{
    for (j, entry) in out.iter_mut().enumerate() {
        *entry = tile[j * m + k];
    }
}

// The coefficients of `count` blocks from `first` on, which lie in a tile one after the other, put in their places by frequency: band after band, where they stand side by side.
pub fn scatter(m: usize, blocks: usize, first: usize, count: usize, tile: &[i32], out: &mut [i32])
    requires { (m ≤ 108) × (blocks ≤ 4096) × (first + count ≤ blocks) × (length tile.now ≡ count * m) × (length out.old ≡ blocks * m) }
    ensures { out.new ≡ tiled ByFrequency m blocks first count tile.now out.old }
{
    // Of what chunks_exact_mut lends, a proof keeps the lengths alone: the band is found by its number.
    for k in 0..m {
        let place = k * blocks + first;
        put_band(m, k, tile, &mut out[place..place + count]);
    }
}

// The order that this one is not.
#[tactic(auto, unfolding(crate::specs::Orders::other))]
fn other(order: Order) -> Order
    ensures { result ≡ other order }
{
    match order {
        Order::ByBlock => Order::ByFrequency,
        Order::ByFrequency => Order::ByBlock,
    }
}

// Block b from its places in the other order to those in this one.
fn move_block(to: Order, m: usize, blocks: usize, b: usize, x: &[i32], out: &mut [i32])
    requires { (m ≤ 108) × (blocks ≤ 4096) × (b < blocks) × (length x.now ≡ blocks * m) × (length out.old ≡ blocks * m) }
    ensures { out.new ≡ tiled to m blocks b 1 (part (other to) m blocks x.now b) out.old }
{
    let from = other(to);
    // By number: in either list a coefficient has its place by it.
    for k in 0..m {
        out[place(to, m, blocks, b, k)] = x[place(from, m, blocks, b, k)];
    }
}

// The coefficients of a recording, which lie in the other order, in this one.
pub fn reorder(to: Order, m: usize, blocks: usize, x: &[i32], out: &mut [i32])
    requires { (m ≤ 108) × (blocks ≤ 4096) × (length x.now ≡ blocks * m) × (length out.old ≡ blocks * m) }
    ensures { out.new ≡ reordered to m blocks x.now }
{
    // By number: a block's places by frequency lie all over a list, so that no part of it is the block's.
    for b in 0..blocks {
        move_block(to, m, blocks, b, x, out);
    }
}
