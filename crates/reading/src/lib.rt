// Standard input, read whole into a buffer of fixed size.
#![tactic(auto)]

ghost use Rattle.std.specs.Prelude.{ℕ, ◌≤◌, ◌<◌, IfOk, OnErr, length, take};
ghost use Rattle.std.specs.Io.{ReadsAtMost};
ghost use Rattle.std.specs.Io.KnownBytes.{Consumes, IsAtEnd};

use std::io;
use std::io::Read;

// Reads until the buffer is full or the input ends, and answers how many bytes came. The first of the buffer are those that the input gave; where fewer came than fit,
// it has none left. The error of a read that fails is handed on: what came before it stands in the buffer.
pub fn fill<R: Read>(input: &mut R, buffer: &mut [u8]) -> io::Result<usize>
    ensures bound { ReadsAtMost result buffer.new }
    ensures bytes { IfOk result (λ n. Consumes (R.remaining input.old) (R.remaining input.new) (take n buffer.new)) }
    ensures end { IfOk result (λ n. n < length buffer.new → IsAtEnd (R.remaining input.new)) }
    ensures failed { OnErr result ((n : ℕ) × (n ≤ length buffer.new) × Consumes (R.remaining input.old) (R.remaining input.new) (take n buffer.new)) }
{
    let mut n = 0;
    // A loop over `read`: read_exact says nothing of how many bytes came, and read_to_end allocates.
    while n < buffer.len() {
        let more = input.read(&mut buffer[n..])?;
        if more == 0 {
            return Ok(n);
        }
        n += more;
    }
    Ok(n)
}

#[cfg(test)]
mod tests {
    use super::*;

    // Gives a byte at a time, and fails behind the last.
    #[derive(Clone, Copy)]
    struct Drip {
        left: usize,
    }

    impl Read for Drip {
        fn read(&mut self, buf: &mut [u8]) -> io::Result<usize> {
            if buf.is_empty() {
                return Ok(0);
            }
            if self.left == 0 {
                return Err(io::Error::from(io::ErrorKind::Other));
            }
            self.left -= 1;
            buf[0] = 7;
            Ok(1)
        }
    }

    #[test]
    fn fills_by_single_bytes(rt: HostRuntime) {
        let mut room = [0u8; 5];
        let mut input = Drip { left: 9 };
        assert_eq!(rt; fill(&mut input, &mut room).ok(), Some(5));
        assert_eq!(rt; room, [7; 5]);
        assert_eq!(rt; input.left, 4);
    }

    #[test]
    fn hands_on_a_failed_read(rt: HostRuntime) {
        let mut room = [0u8; 5];
        let mut input = Drip { left: 3 };
        assert!(rt; fill(&mut input, &mut room).is_err());
        assert_eq!(rt; room, [7, 7, 7, 0, 0]);
    }

    #[test]
    fn stops_at_the_end(rt: HostRuntime) {
        let mut room = [0u8; 5];
        assert_eq!(rt; fill(&mut &b"abc"[..], &mut room).ok(), Some(3));
        assert_eq!(rt; room, *b"abc\0\0");
    }
}
