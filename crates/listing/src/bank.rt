// The hops of a taken listing through the bank: each block is analysed directly, and a stream's step takes its coefficients unchanged.
ghost use Rattle.std.specs.Prelude.{◌≡◌, ◌+◌, ◌*◌, ◌/◌, ◌^◌, ◌<◌, T, length};
ghost use Rattle.cosine.specs.Kernels.{tabled};
ghost use Rattle.stream.specs.Synthesis.{storage};
ghost use Rattle.stream.specs.StepLaws.{Bounded};
ghost use Rattle.stream.specs.Steps.{next, hop};
ghost use Rattle.analysis.specs.declared.Route.TheVariants.{Direct};
ghost use Rattle.analysis.specs.Analysis.{coefficients};
ghost use Rattle.text.specs.Outputs.{HasRoom, Puts};
ghost use Rattle.listing.specs.VerdictLaws.{Taken};
ghost use Rattle.listing.specs.Listing.{returned_hops, rows};
ghost use Rattle.listing.specs.BankLaws.{Block};

use crate::block::next_block;
use crate::print::put_row;
use crate::verdict::Listing;
use stream::Stream;
use text::line::next_line;
use text::output::Output;

// Samples of the longest hop: what a stream has storage for.
const HOP: usize = stream::STORAGE;

// Room for coefficients and for a hop: functions of their own, which keep the entries out of the goals of their callers.
fn spectrum_room() -> [i32; HOP]
    ensures { length result ≡ storage }
{
    [0; HOP]
}

fn hop_room() -> [i16; HOP]
    ensures { length result ≡ storage }
{
    [0; HOP]
}

// The step of a block: the hop that it returns into `out`, and the stream to go on with.
fn step(s: Stream, block: &[i16], out: &mut [i16]) -> Stream
    requires tabled { T (tabled s.n) × Bounded (s.n / 2) s.tail × Block s.n block.now × (length out.old ≡ s.n / 2) }
    requires expected_bound { s.expected < 2 ^ 32 }
    ensures value { result ≡ next s 0 0 (coefficients Direct s.n 0 0 block.now) }
    ensures out_after { out.new ≡ hop s 0 0 (coefficients Direct s.n 0 0 block.now) }
{
    let n = s.n;
    let m = n / 2;
    let mut x = spectrum_room();
    direct_bodies::analyse(n, windows::LONG, block, &mut x[..m]);
    synthesis::advance(s, &x[..m], out)
}

// A row for each hop. The step of block 0 is the run-in, and prints nothing; that of block h + 1 returns hop h.
pub fn put_rows(input: &[u8], listing: Listing, output: &mut Output)
    requires { Taken input.now listing.n listing.hops × HasRoom (listing.hops * (7 * (listing.n / 2) + 5)) output.old }
    ensures { Puts (rows (returned_hops listing.n input.now) listing.hops) output.old output.new }
{
    let n = listing.n;
    let m = n / 2;
    let mut block = recording::silent_block();
    let mut hop = hop_room();
    let mut place = next_block(input, next_line(input, 0), m, &mut block[..n]);
    let mut s = step(stream::fresh(n), &block[..n], &mut hop[..m]);
    for h in 0..listing.hops {
        place = next_block(input, place, m, &mut block[..n]);
        s = step(s, &block[..n], &mut hop[..m]);
        put_row(h, &hop[..m], output);
    }
}
