// The program round-trip: reads a listing from standard input and prints it as the bank gives it back. What it prints for the bytes
// that it read is proved, in `listing`; of reading and writing no contract can speak, and one that fails is the answer of `main`.
#![tactic(auto)]

use std::io;

// One byte more than a listing may have, which is enough to tell.
const INPUT: usize = 65537;

fn main(rt: HostRuntime) -> io::Result<()> {
    let mut input = [0u8; INPUT];
    let mut out = [0u8; listing::ROOM];
    let n = reading::fill(&mut rt.reader(), &mut input)?;
    let r = listing::round_trip(&input[..n], &mut out);
    rt.write_all(&out[..r])
}
