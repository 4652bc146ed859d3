// The program coarsest-step: takes an allowed distance and a budget as its arguments and a listing from standard input, and prints the coarsest step. What it prints for
// the bytes that it read is proved, in `coarsest_report`; of arguments, reading and writing no contract can speak, and a read or a write that fails is the answer of `main`.
#![tactic(auto)]

use std::env::Env;
use std::io;

// One byte more than a listing may have, which is enough to tell.
const INPUT: usize = 65537;

// Room for a number as it is typed. A longer argument comes as no bytes, which are no number either.
const TYPED: usize = 32;

fn main(rt: HostRuntime) -> io::Result<()> {
    let mut distance = [0u8; TYPED];
    let mut budget = [0u8; TYPED];
    let mut input = [0u8; INPUT];
    let mut out = [0u8; coarsest_report::ROOM];
    let d = rt.arg(1, &mut distance).unwrap_or(0);
    let b = rt.arg(2, &mut budget).unwrap_or(0);
    if !coarsest_report::is_budget(&budget[..b]) {
        return eprintln!(rt; "coarsest-step: the budget is no whole number of 1 to 18 digits");
    }
    let n = reading::fill(&mut rt.reader(), &mut input)?;
    let r = coarsest_report::report(&distance[..d], &budget[..b], &input[..n], &mut out);
    rt.write_all(&out[..r])
}
