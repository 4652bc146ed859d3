// The numbers that the test programs make up: the same at every run, each from the one before it, from a seed on.
ghost use Rattle.std.specs.Prelude.{◌≡◌, ◌≤◌, ◌<◌, ◌^◌, nat_abs, length};

/// The number behind `last`, modulo 2^32.
pub fn random(last: u32) -> u32 {
    last.wrapping_mul(1664525).wrapping_add(1013904223)
}

/// The numbers behind a seed, without end.
#[derive(Clone, Copy, Debug)]
pub struct Numbers {
    last: u32,
}

impl Numbers {
    pub fn behind(seed: u32) -> Self {
        Numbers { last: seed }
    }
}

impl Iterator for Numbers {
    type Item = u32;

    fn next(&mut self) -> Option<u32> {
        self.last = random(self.last);
        Some(self.last)
    }
}

/// One of -span .. span.
pub fn offset(number: u64, span: u32) -> i32
    requires { span < 2 ^ 30 }
    ensures { nat_abs result ≤ span }
{
    let at = number % (2 * u64::from(span) + 1);
    at as i32 - span as i32
}

/// One of 0 .. count - 1, by the upper bits: the lower ones repeat too soon.
pub fn below(number: u32, count: usize) -> usize
    requires { 1 ≤ count }
    ensures { result < count }
{
    (number / 65536) as usize % count
}

// One of -span .. span - 1.
fn sample(number: u32, span: u32) -> i16
    requires { (0 < span) × (span ≤ 32768) }
{
    let at = number / 65536 % (2 * span);
    (at as i32 - span as i32) as i16
}

// One end of a sample's range or the other.
fn loudest(number: u32) -> i16 {
    if number / 65536 % 2 == 0 {
        i16::MIN
    } else {
        i16::MAX
    }
}

// A sample of noise. Of span 0 it is as loud as a sample can be.
fn voiced(number: u32, span: u32) -> i16
    requires { span ≤ 32768 }
{
    if span == 0 {
        loudest(number)
    } else {
        sample(number, span)
    }
}

/// Samples of noise at every place.
pub fn fill(x: &mut [i16], seed: u32, span: u32)
    requires { span ≤ 32768 }
    ensures { length x.new ≡ length x.old }
{
    for (sample, number) in x.iter_mut().zip(Numbers::behind(seed)) {
        *sample = voiced(number, span);
    }
}

/// As many samples of noise.
pub fn samples<const N: usize>(seed: u32, span: u32) -> [i16; N]
    requires { span ≤ 32768 }
{
    let mut x = [0; N];
    fill(&mut x, seed, span);
    x
}

/// As many coefficients of noise.
pub fn coefficients<const N: usize>(seed: u32, span: u32) -> [i32; N]
    requires { span < 2 ^ 30 }
{
    let mut x = [0; N];
    for (coefficient, number) in x.iter_mut().zip(Numbers::behind(seed)) {
        *coefficient = offset(u64::from(number), span);
    }
    x
}
