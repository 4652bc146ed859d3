// The lines of a page, each put into its own part of the page: the margin, six numbers and a line feed.
ghost use Rattle.std.specs.Prelude.{◌≡◌, ◌∷◌, [], ◌++◌, ◌*◌, ◌/◌, ◌^◌, ◌≤◌, ◌<◌, T, length};
ghost use Rattle.arithmetic.specs.Lists.{at, Small, joined};
ghost use Rattle.cosine.specs.Kernels.{tabled};
ghost use Rattle.orders.specs.Orders.{part};
ghost use Rattle.text.specs.Bytes.{line_feed};
ghost use Rattle.text.specs.Number.{printed};
ghost use Rattle.text.specs.Columns.{aligned};
ghost use Rattle.page.specs.Page.{margin, columns};

use orders::Order;
use text::columns::{put_aligned, put_blanks};
use text::line::LINE_FEED;

// Bytes of a line: 80 columns and a line feed.
pub const LINE: usize = 81;

// Numbers of a line, the columns of one, and those of the margin.
pub const NUMBERS: usize = 6;

const COLUMNS: usize = 12;

const MARGIN: usize = 8;

// The margin of line j of block b: the block's number on its first line, and blanks on the others.
#[tactic(auto, using(crate::specs::PageLaws::margins), unfolding(text::specs::Number::printed))]
fn put_margin(b: usize, j: usize, out: &mut [u8])
    requires { (b ≤ 4095) × (length out.old ≡ 8) }
    ensures { out.new ≡ margin b j }
{
    if j == 0 {
        put_aligned(b as i64, out);
    } else {
        put_blanks(out);
    }
}

// Six numbers, each in its columns.
fn put_numbers(x: &[i32], out: &mut [u8])
    requires { (length x.now ≡ 6) × Small x.now (2 ^ 29) × (length out.old ≡ 72) }
    ensures { out.new ≡ joined 6 (λ i. aligned 12 (printed (at x.now i))) }
{
    // By index: `chunks_exact_mut` does not say what the columns hold afterwards, so that they are found by i, as the numbers are.
    for i in 0..NUMBERS {
        let place = i * COLUMNS;
        put_aligned(x[i] as i64, &mut out[place..place + COLUMNS]);
    }
}

// Line j of block b, of the six numbers x.
fn put_line(b: usize, j: usize, x: &[i32], out: &mut [u8])
    requires { (b ≤ 4095) × (length x.now ≡ 6) × Small x.now (2 ^ 29) × (length out.old ≡ 81) }
    ensures { out.new ≡ (margin b j ++ joined 6 (λ i. aligned 12 (printed (at x.now i)))) ++ (line_feed ∷ []) }
{
    put_margin(b, j, &mut out[..MARGIN]);
    put_numbers(x, &mut out[MARGIN..LINE - 1]);
    out[LINE - 1] = LINE_FEED;
}

// The lines of block b, x its coefficients.
fn put_block(b: usize, lines: usize, x: &[i32], out: &mut [u8])
    requires { (b ≤ 4095) × (lines ≤ 18) × (length x.now ≡ lines * 6) × Small x.now (2 ^ 29) × (length out.old ≡ lines * 81) }
    ensures { out.new ≡ joined lines (λ j. columns b x.now j ++ (line_feed ∷ [])) }
{
    // By index, as above; with `x.chunks_exact(NUMBERS).enumerate()` the loop's proof did not close, at the goal that the count fits.
    for j in 0..lines {
        let at = j * NUMBERS;
        let place = j * LINE;
        put_line(b, j, &x[at..at + NUMBERS], &mut out[place..place + LINE]);
    }
}

// The lines of block b of the blocks whose coefficients lie in x: by block they are read in place, by frequency they are gathered in `room` first.
fn put_part(
    order: Order,
    m: usize,
    blocks: usize,
    b: usize,
    x: &[i32],
    room: &mut [i32],
    out: &mut [u8],
)
    requires sizes { (m / 6 * 6 ≡ m) × (m ≤ 108) × (blocks ≤ 4096) × (b < blocks) }
    requires small { Small x.now (2 ^ 29) × (length x.now ≡ blocks * m) × (length room.old ≡ m) × (length out.old ≡ m / 6 * 81) }
    ensures { out.new ≡ joined (m / 6) (λ j. columns b (part order m blocks x.now b) j ++ (line_feed ∷ [])) }
{
    let lines = m / NUMBERS;
    match order {
        Order::ByBlock => {
            let first = b * m;
            put_block(b, lines, &x[first..first + m], out);
        }
        Order::ByFrequency => {
            orders::gather(order, blocks, b, x, room);
            put_block(b, lines, room, out);
        }
    }
}

// The blocks of a page, one after the other.
pub fn put_page(order: Order, n: usize, blocks: usize, x: &[i32], out: &mut [u8])
    requires tabled { T (tabled n) × (blocks ≤ 4096) × Small x.now (2 ^ 29) }
    requires x_len { (length x.now ≡ blocks * (n / 2)) × (length out.old ≡ blocks * (n / 2 / 6) * 81) }
    ensures { out.new ≡ joined blocks (λ b. joined (n / 2 / 6) (λ j. columns b (part order (n / 2) blocks x.now b) j ++ (line_feed ∷ []))) }
{
    let m = n / 2;
    let size = m / NUMBERS * LINE;
    let mut room = orders::room();
    // By index: in either order a block is found by its number, which is printed too.
    for b in 0..blocks {
        let place = b * size;
        put_part(
            order,
            m,
            blocks,
            b,
            x,
            &mut room[..m],
            &mut out[place..place + size],
        );
    }
}
