// What the test programs share: how they print buffers and their sums, in `noise` the numbers that they make up, and in `buffers` the buffers that they lend. Fields are
// parted by commas, lines ended by a line feed. What is written is compared with stored output and not proved: no contract can speak of it.
#![tactic(auto)]

pub mod buffers;
pub mod noise;

use std::fmt;

/// A running sum with one more entry, modulo 2^32: a change of any one entry of up to 32 bits changes it.
pub fn summed(sum: u32, entry: i64) -> u32 {
    let size = entry.unsigned_abs();
    let upper = (size / 4294967296) as u32;
    let lower = (size % 4294967296) as u32;
    sum.wrapping_mul(31)
        .wrapping_add(upper.wrapping_mul(961))
        .wrapping_add(lower.wrapping_mul(2))
        .wrapping_add(u32::from(entry < 0))
}

/// The sum of all entries.
pub fn sum<T: Copy + Into<i64>>(entries: &[T]) -> u32 {
    entries
        .iter()
        .fold(0, |sum, entry| summed(sum, (*entry).into()))
}

/// A sum that each byte and its place change.
pub fn sum_bytes(bytes: &[u8]) -> u32 {
    bytes.iter().fold(0, |sum, byte| {
        ((u64::from(sum) * 31 + u64::from(*byte)) % 4294967291) as u32
    })
}

/// A buffer as it is printed: its entries, each behind a comma; or the number and the sum of more than `most`.
#[derive(Clone, Copy, Debug)]
pub struct Entries<'a, T> {
    pub of: &'a [T],
    pub most: usize,
}

impl<'a, T: Copy + Into<i64>> fmt::Display for Entries<'a, T> {
    fn fmt<W: fmt::Write>(&self, f: &mut fmt::Formatter<W>) -> fmt::Result {
        if self.of.len() > self.most {
            let count = self.of.len();
            let sum = sum(self.of);
            return write!(f, ",{count},{sum}");
        }
        for entry in self.of {
            let entry: i64 = (*entry).into();
            write!(f, ",{entry}")?;
        }
        Ok(())
    }
}
