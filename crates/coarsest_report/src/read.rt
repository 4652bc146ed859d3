// The recording that a listing is, and what is answered for it.
ghost use Rattle.std.specs.Prelude.{◌≡◌, ◌*◌, ◌/◌, length};
ghost use Rattle.listing.specs.Verdicts.{hops_of};
ghost use Rattle.listing.specs.VerdictLaws.{Taken};
ghost use Rattle.listing.specs.Listing.{recording};
ghost use Rattle.coarsest_calls.specs.Answers.{read_coarsest};
ghost use Rattle.coarsest_calls.specs.CoarsestCalls.{coarsest_answer};

use checks::Refusal;
use coarsest_calls::Coarsest;
use listing::hop::read_hop;
use listing::verdict::Listing;
use text::line::next_line;

// Hop after hop: each further line is one.
fn read_recording(input: &[u8], n: usize, hops: usize, out: &mut [i16])
    requires { Taken input.now n hops × (length out.old ≡ hops * (n / 2)) }
    ensures { out.new ≡ recording (hops_of input.now) }
{
    let m = n / 2;
    let mut place = next_line(input, 0);
    // By number: of what chunks_exact_mut lends, a proof keeps the lengths alone.
    for h in 0..hops {
        let at = h * m;
        place = read_hop(input, place, &mut out[at..at + m]);
    }
}

// Room for the samples of a listing: each has a digit and a comma or a line feed.
const SAMPLES: usize = 32768;

// A function of its own, which keeps its entries out of the goals of its caller.
fn samples_room() -> [i16; SAMPLES]
    ensures { length result ≡ 32768 }
{
    [0; SAMPLES]
}

// What the call answers for the recording that a listing is.
pub fn answer(
    input: &[u8],
    listing: Listing,
    allowed: u32,
    budget: usize,
) -> Result<Coarsest, Refusal>
    requires { Taken input.now listing.n listing.hops }
    ensures { read_coarsest result ≡ coarsest_answer listing.n listing.hops (recording (hops_of input.now)) allowed budget }
{
    let Listing { n, hops } = listing;
    let count = hops * (n / 2);
    let mut room = samples_room();
    read_recording(input, n, hops, &mut room[..count]);
    coarsest_calls::coarsest_step(n, hops, &room[..count], allowed, budget)
}
