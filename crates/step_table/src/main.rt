// The program step-table: takes a length as its argument and a step table from standard input, and prints what the table is. What it prints for the bytes that
// it read is proved, in `table_report`; of arguments, reading and writing no contract can speak, and a read or a write that fails is the answer of `main`.
#![tactic(auto)]

use std::env::Env;
use std::io;

// The most bytes of a table, and one more, which is enough to tell.
const LIMIT: usize = 65536;

const INPUT: usize = 65537;

// Room for a length as it is typed. A longer argument comes as no bytes, which are no length either.
const TYPED: usize = 16;

fn main(rt: HostRuntime) -> io::Result<()> {
    let mut typed = [0u8; TYPED];
    let mut input = [0u8; INPUT];
    let mut out = [0u8; table_report::ROOM];
    let t = rt.arg(1, &mut typed).unwrap_or(0);
    let n = reading::fill(&mut rt.reader(), &mut input)?;
    if n > LIMIT {
        return eprintln!(rt; "step-table: the table has more than 65,536 bytes");
    }
    let r = table_report::report(&typed[..t], &input[..n], &mut out);
    rt.write_all(&out[..r])
}
