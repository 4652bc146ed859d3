// A trial of a step on a recording, block by block: it ends at the first sample that lies too far away.
ghost use Rattle.std.specs.Prelude.{◌≡◌, ◌+◌, ◌*◌, ◌/◌, ◌≤◌, ◌<◌, T, leb, length, nat_abs, ◌-ℤ◌};
ghost use Rattle.arithmetic.specs.Rounding.{Sample};
ghost use Rattle.arithmetic.specs.Lists.{at, all};
ghost use Rattle.cosine.specs.Kernels.{tabled, rising, falling};
ghost use Rattle.stream.specs.Synthesis.{storage, new_tail, hop};
ghost use Rattle.stream.specs.StepLaws.{Bounded};
ghost use Rattle.coarsest.specs.Coarsest.{passes};
ghost use Rattle.coarsest.specs.SteppedLaws.{Tried};
ghost use Rattle.coarsest.specs.TrialLaws.{Samples, Trying, stepped_block, hop_beside};

use analysis::Route;

// A number of 16 bits is a sample.
fn is_sample(s: i16)
    ensures { Sample s }
{}

// Every entry of a slice of 16-bit numbers is a sample: to be told so, the proof has to see each one read. The compiler leaves nothing of it.
pub fn are_samples(x: &[i16])
    ensures { Samples x.now }
{
    for &sample in x {
        is_sample(sample);
    }
}

// Every sample of a hop lies within `allowed` of its own.
fn is_near(hop: &[i16], own: &[i16], allowed: u32) -> bool
    requires { length hop.now ≡ length own.now }
    ensures { result ≡ all (length own.now) (λ n. leb (nat_abs (at hop.now n -ℤ at own.now n)) allowed) }
{
    hop.iter()
        .zip(own)
        .all(|(sample, own)| sample.abs_diff(*own) as u32 <= allowed)
}

// A recording of hops of n / 2 samples, and a step with its inverse that is tried on it.
#[derive(Clone, Copy)]
struct Trial<'a> {
    n: usize,
    hops: usize,
    x: &'a [i16],
    step: u32,
    inverse: u64,
}

impl<'a> Trial<'a> {
    // A step on block b, every coefficient of it by the trial's step and back.
    #[inline(always)]
    fn advance(self, b: usize, room: &mut [i32], tail: &mut [i64], out: &mut [i16])
        requires trial { Trying self.n self.hops self.x.now self.step self.inverse }
        requires block { b ≤ self.hops }
        requires room_len { (length room.old ≡ self.n / 2) × (length tail.old ≡ storage) × Bounded (self.n / 2) tail.old × (length out.old ≡ self.n / 2) }
        ensures tail_after { tail.new ≡ new_tail self.entry.n (rising 0 self.entry.n) (falling 0 self.entry.n) tail.old (stepped_block self.entry.step self.entry.n self.entry.x.now b) }
        ensures out_after { out.new ≡ hop self.entry.n (rising 0 self.entry.n) (falling 0 self.entry.n) tail.old (stepped_block self.entry.step self.entry.n self.entry.x.now b) }
    {
        recording::blocks_from(Route::Direct, self.n, self.hops, self.x, b, 1, room);
        super::stepped::step_block(room, self.step, self.inverse);
        synthesis::advance_tail(self.n, windows::LONG, room, tail, out);
    }

    // The step on block h + 1 returns hop h: whether every sample of it lies within `allowed` of its own.
    #[inline(always)]
    fn is_hop_near(
        self,
        h: usize,
        allowed: u32,
        room: &mut [i32],
        tail: &mut [i64],
        out: &mut [i16],
    ) -> bool
        requires trial { Trying self.n self.hops self.x.now self.step self.inverse }
        requires hop { h < self.hops }
        requires room_len { (length room.old ≡ self.n / 2) × (length tail.old ≡ storage) × Bounded (self.n / 2) tail.old × (length out.old ≡ self.n / 2) }
        ensures tail_after { tail.new ≡ new_tail self.entry.n (rising 0 self.entry.n) (falling 0 self.entry.n) tail.old (stepped_block self.entry.step self.entry.n self.entry.x.now (h + 1)) }
        ensures value { result ≡ hop_beside self.entry.n self.entry.x.now h allowed (hop self.entry.n (rising 0 self.entry.n) (falling 0 self.entry.n) tail.old (stepped_block self.entry.step self.entry.n self.entry.x.now (h + 1))) }
    {
        self.advance(h + 1, room, tail, out);
        let m = self.n / 2;
        let at = h * m;
        is_near(out, &self.x[at..at + m], allowed)
    }
}

// Every sample of the recording returns within `allowed`, with every coefficient by `step` and back: hop after hop from a fresh stream's tail, up to the first that is not
// near. The run-in, the hop of block 0, is not looked at.
pub fn is_passed(n: usize, hops: usize, x: &[i16], allowed: u32, step: u32) -> bool
    requires { T (tabled n) × (1 ≤ hops) × (hops ≤ 4095) × (length x.now ≡ hops * (n / 2)) × Samples x.now × Tried step }
    ensures { result ≡ passes n hops x.now allowed step }
{
    let trial = Trial {
        n,
        hops,
        x,
        step,
        inverse: super::stepped::inverse(step),
    };
    let m = n / 2;
    let mut room = orders::room();
    let room = &mut room[..m];
    let mut tail = [0i64; stream::STORAGE];
    let mut out = [0i16; stream::STORAGE];
    let out = &mut out[..m];
    trial.advance(0, room, &mut tail, out);
    // By number: hop h is read by block h + 1, and the last of a recording's blocks has no samples of its own.
    for h in 0..hops {
        if !trial.is_hop_near(h, allowed, room, &mut tail, out) {
            return false;
        }
    }
    true
}
