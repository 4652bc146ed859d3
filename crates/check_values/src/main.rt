// The table, the window, the kernels and the roundings at chosen places, compared with what vectors/values.py makes from the definitions.
#![tactic(auto)]

ghost use Rattle.std.specs.Prelude.{ℕ, ◌≤◌, ◌<◌, ◌/◌, T};
ghost use Rattle.arithmetic.specs.QuotientLaws.{splits};
ghost use Rattle.cosine.specs.Kernels.{tabled};

use std::io;

// Sums around zero, halves of either sign of every divisor, one beside them, and the ends of a sum.
const SUMS: [i64; 89] = [
    0,
    1,
    -1,
    131071,
    131072,
    131073,
    -131073,
    -131072,
    -131071,
    393216,
    -393216,
    33554431,
    33554432,
    33554433,
    -33554433,
    -33554432,
    -33554431,
    100663296,
    -100663296,
    134217727,
    134217728,
    134217729,
    -134217729,
    -134217728,
    -134217727,
    402653184,
    -402653184,
    268435455,
    268435456,
    268435457,
    -268435457,
    -268435456,
    -268435455,
    805306368,
    -805306368,
    6442450943,
    6442450944,
    6442450945,
    -6442450945,
    -6442450944,
    -6442450943,
    432345564227567616,
    -432345564227567616,
    12884901887,
    12884901888,
    12884901889,
    -12884901889,
    -12884901888,
    -12884901887,
    864691128455135232,
    -864691128455135232,
    19327352831,
    19327352832,
    19327352833,
    -19327352833,
    -19327352832,
    -19327352831,
    1297036692682702848,
    -1297036692682702848,
    38654705663,
    38654705664,
    38654705665,
    -38654705665,
    -38654705664,
    -38654705663,
    2594073385365405696,
    -2594073385365405696,
    32767,
    32768,
    -32768,
    -32769,
    1234567890123456789,
    -1234567890123456789,
    57982058495,
    57982058496,
    57982058497,
    -57982058497,
    -57982058496,
    -57982058495,
    3891110078048108544,
    -3891110078048108544,
    115964116991,
    115964116992,
    115964116993,
    -115964116993,
    -115964116992,
    -115964116991,
    7782220156096217088,
    -7782220156096217088,
];

// A sum of at most 2^62, which rnd_shift takes for every k.
#[tactic(auto, using(arithmetic::specs::RoundingLaws::room_for_half))]
fn shift(rt: &impl Print, k: u32, a: i64) -> io::Result<()>
    requires { (2 ≤ k) × (k < 63) }
{
    if arithmetic::size(a) <= 4611686018427387904 {
        println!(rt; "shift,{k},{a},{}", arithmetic::rnd_shift(a, k))?;
    }
    Ok(())
}

fn shifts(rt: &impl Print, k: u32) -> io::Result<()>
    requires { (2 ≤ k) × (k < 63) }
{
    for a in SUMS {
        shift(rt, k, a)?;
    }
    Ok(())
}

// A quotient by n × 2^30, clamped, of a sum within n × 2^55.
fn scale(rt: &impl Print, n: usize, a: i64) -> io::Result<()>
    requires { T (splits n) }
{
    if arithmetic::size(a) <= n as u64 * 36028797018963968 {
        println!(rt; "scale,{n},{a},{}", arithmetic::sample(a, n))?;
    }
    Ok(())
}

fn scales(rt: &impl Print, n: usize) -> io::Result<()>
    requires { T (splits n) }
{
    for a in SUMS {
        scale(rt, n, a)?;
    }
    Ok(())
}

// The clamp by itself: a × 12 × 2^30, within 12 × 2^55, by 12 × 2^30.
fn clamp(rt: &impl Print, i: usize, a: i64) -> io::Result<()> {
    if arithmetic::size(a) <= 33554432 {
        println!(rt; "clamp,{i},{a},{}", arithmetic::sample(a * 12884901888, 12))?;
    }
    Ok(())
}

fn clamps(rt: &impl Print) -> io::Result<()> {
    for (i, a) in SUMS.iter().enumerate() {
        clamp(rt, i, *a)?;
    }
    Ok(())
}

fn cosines(rt: &impl Print) -> io::Result<()> {
    let cos = cosine::quarter_turn();
    for t in 0..1800 {
        println!(rt; "C,{t},{}", cosine::cosine(&cos, t))?;
    }
    Ok(())
}

// A line of `count` values behind its word.
fn row<F: Fn(usize) -> i64>(rt: &impl Print, word: &str, count: usize, value: F) -> io::Result<()>
    requires { (i : ℕ) → i < count → F.pre value i }
{
    print!(rt; "{word}")?;
    for i in 0..count {
        print!(rt; ",{}", value(i))?;
    }
    println!(rt; "")
}

fn windows(rt: &impl Print, n: usize) -> io::Result<()>
    requires { T (tabled n) }
{
    let cos = cosine::quarter_turn();
    row(rt, "W", n, |i| cosine::window(&cos, n, i))
}

// The two halves of a joint of either shape.
fn halves(rt: &impl Print, n: usize) -> io::Result<()>
    requires { T (tabled n) }
{
    let cos = cosine::quarter_turn();
    row(rt, "rise,0", n / 2, |i| cosine::rising(&cos, 0, n, i))?;
    row(rt, "fall,0", n / 2, |i| cosine::falling(&cos, 0, n, i))?;
    row(rt, "rise,1", n / 2, |i| cosine::rising(&cos, 1, n, i))?;
    row(rt, "fall,1", n / 2, |i| cosine::falling(&cos, 1, n, i))
}

fn kernels(rt: &impl Print, n: usize) -> io::Result<()>
    requires { T (tabled n) }
{
    let cos = cosine::quarter_turn();
    for i in 0..n {
        row(rt, "K", n / 2, |k| cosine::kernel(&cos, n, i, k))?;
    }
    Ok(())
}

fn short_kernels(rt: &impl Print, n: usize) -> io::Result<()>
    requires { T (tabled n) }
{
    let cos = cosine::quarter_turn();
    for i in 0..n / 3 {
        row(rt, "L", n / 6, |k| cosine::short_kernel(&cos, n, i, k))?;
    }
    Ok(())
}

fn length(rt: &impl Print, n: usize) -> io::Result<()>
    requires { T (tabled n) × T (splits n) }
{
    scales(rt, n)?;
    windows(rt, n)?;
    halves(rt, n)?;
    kernels(rt, n)
}

// A length at which the short route is offered.
fn short_length(rt: &impl Print, n: usize) -> io::Result<()>
    requires { T (tabled n) × T (splits n) }
{
    length(rt, n)?;
    short_kernels(rt, n)
}

// Which numbers up to 300 are block lengths.
fn lengths(rt: &impl Print) -> io::Result<()> {
    for n in 0..300 {
        if cosine::is_tabled(n) {
            print!(rt; ",{n}")?;
        }
    }
    println!(rt; "")
}

#[tactic(auto, unfolding(cosine::specs::Kernels::tabled, cosine::specs::Kernels::lengths, arithmetic::specs::Lists::every, arithmetic::specs::QuotientLaws::splits, arithmetic::specs::QuotientLaws::quarters))]
fn main(rt: HostRuntime) -> io::Result<()> {
    lengths(&rt)?;
    shifts(&rt, 18)?;
    shifts(&rt, 26)?;
    shifts(&rt, 28)?;
    shifts(&rt, 29)?;
    clamps(&rt)?;
    cosines(&rt)?;
    short_length(&rt, 12)?;
    short_length(&rt, 24)?;
    short_length(&rt, 36)?;
    short_length(&rt, 72)?;
    length(&rt, 108)?;
    length(&rt, 216)
}
