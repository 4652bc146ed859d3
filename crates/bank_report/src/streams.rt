// Streams as the test programs make them, and the sound that is played to them.
ghost use Rattle.std.specs.Prelude.{◌≤◌, ◌<◌};

use crate::LONG;
use filter_bank::{Joints, Refused, Route, Stream};
use report::noise;
pub use stream_calls::state::ENTRIES;

/// Samples of the longest block.
pub const LONGEST: usize = 216;

// The shapes of the joints before blocks 0 to 16, of which the last is again the first: every span of a block meets every pair of shapes.
const SHAPES: [u32; 17] = [0, 1, 1, 0, 0, 0, 1, 1, 1, 1, 0, 0, 1, 0, 0, 1, 0];

/// The joints of a block, by its number.
pub fn joints_of(number: u32) -> Joints {
    let place = number as usize % 16;
    Joints {
        left: SHAPES[place],
        right: SHAPES[place + 1],
    }
}

/// A stream that no call made, all its tail entries alike.
pub fn forged(n: usize, expected: u64, shape: u32, entry: i64) -> Stream {
    Stream {
        n,
        expected,
        shape,
        tail: [entry; stream::STORAGE],
    }
}

/// A fresh stream; at a length for which none is made, one whose fields are all 0.
pub fn fresh(n: usize) -> Stream {
    match filter_bank::fresh(n) {
        Ok(stream) => stream,
        Err(_) => forged(0, 0, LONG, 0),
    }
}

/// A fresh stream in a state that held something else.
pub fn fresh_state(n: usize) -> [i64; ENTRIES] {
    let mut state = [7; ENTRIES];
    let _ = filter_bank::fresh_in_place(n, &mut state);
    state
}

/// A state that no call made, with entries that are too many, all behind the third alike.
pub fn forged_state(n: i64, expected: i64, shape: i64, entry: i64) -> [i64; ENTRIES + 1] {
    let mut state = [entry; ENTRIES + 1];
    state[0] = n;
    state[1] = expected;
    state[2] = shape;
    state
}

/// The stream behind a step, and the number of the answer.
pub fn stepped(outcome: Result<Stream, Refused>) -> (Stream, u32) {
    match outcome {
        Ok(next) => (next, 0),
        Err(refused) => (refused.stream, refused.cause.number()),
    }
}

// All of the range, the loudest samples alone, and two softer parts of the range, hop by hop.
fn span(hop: usize, softest: u32) -> u32
    requires { softest ≤ 32768 }
    ensures { result ≤ 32768 }
{
    match hop % 4 {
        0 => 32768,
        1 => 0,
        2 => 100,
        _ => softest,
    }
}

/// A hop of what is played back, in the first places.
pub fn hop_of(n: usize, hop: usize, softest: u32) -> [i16; LONGEST]
    requires { (n ≤ 216) × (hop ≤ 48) × (softest ≤ 32768) }
{
    noise::samples((300 * n + hop) as u32, span(hop, softest))
}

/// The block that covers a hop and the next.
pub fn block_of(n: usize, hop: usize, softest: u32) -> [i16; LONGEST]
    requires { (n ≤ 216) × (hop < 48) × (softest ≤ 32768) }
{
    let m = n / 2;
    let mut x = hop_of(n, hop, softest);
    let next = hop_of(n, hop + 1, softest);
    x[m..2 * m].copy_from_slice(&next[..m]);
    x
}

/// Every third block goes by the short route, and every third by the double one, where they are offered.
pub fn route_of(n: usize, block: usize) -> Route {
    match block % 3 {
        1 if 36 <= n && n <= 72 => Route::Double,
        2 if n <= 72 => Route::Short,
        _ => Route::Direct,
    }
}
