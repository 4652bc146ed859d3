// Listings through `round_trip`, compared with what vectors/listing.py makes from the definitions.
#![tactic(auto)]

ghost use Rattle.std.specs.Prelude.{◌≤◌};

use report::buffers::first;
use report::sum_bytes;
use std::io::{self, Write};

// The most bytes of a listing.
const MOST: usize = 65536;

// What the samples of a listing are: of one digit, or of any size.
#[derive(Clone, Copy)]
enum Samples {
    Digits,
    Wide,
}

// A listing that is made up: its first lines, and then hops of m samples.
#[derive(Clone, Copy)]
struct Listing<'a> {
    head: &'a [u8],
    samples: Samples,
    hops: usize,
    m: usize,
}

// All that is printed for an input.
fn show(rt: &impl Print, input: &[u8]) -> io::Result<()> {
    let mut out = [165; listing::ROOM];
    let end = listing::round_trip(input, &mut out);
    rt.write_all(first(&out, end))
}

// The lengths of an input and of what is printed for it, with the sums of both.
fn tell(rt: &impl Print, input: &[u8]) -> io::Result<()> {
    let mut out = [165; listing::ROOM];
    let end = listing::round_trip(input, &mut out);
    let sum = sum_bytes(input);
    let sum_printed = sum_bytes(first(&out, end));
    println!(rt; "bytes,{},{sum},{end},{sum_printed}", input.len())
}

// A sample by a number that is made up.
fn put_sample(text: &mut Vec<u8>, samples: Samples, k: usize) -> io::Result<()> {
    let digit = match samples {
        Samples::Digits => k % 10,
        Samples::Wide => k / 7 % 10,
    };
    match (samples, k % 7) {
        (Samples::Wide, 0) => write!(text, "-32768"),
        (Samples::Wide, 1) => write!(text, "32767"),
        (Samples::Wide, 2) => write!(text, "-1"),
        (Samples::Wide, 3) => write!(text, "12345"),
        (Samples::Wide, 4) => write!(text, "-9999"),
        _ => write!(text, "{digit}"),
    }
}

// Hop h, of m samples.
fn put_hop(text: &mut Vec<u8>, samples: Samples, h: usize, m: usize) -> io::Result<()>
    requires { (h ≤ 6000) × (m ≤ 109) }
{
    for i in 0..m {
        put_sample(text, samples, 5 * h + 3 * i)?;
        text.push(if i + 1 < m { b',' } else { b'\n' })?;
    }
    Ok(())
}

fn put_listing(text: &mut Vec<u8>, listing: Listing) -> io::Result<()>
    requires { (listing.hops ≤ 6000) × (listing.m ≤ 108) }
{
    text.extend_from_slice(listing.head)?;
    for h in 0..listing.hops {
        put_hop(text, listing.samples, h, listing.m)?;
    }
    Ok(())
}

// A listing of many hops: whole, without its last byte, and with one byte more.
fn long(rt: &HostRuntime, listing: Listing) -> io::Result<()>
    requires { (listing.hops ≤ 6000) × (listing.m ≤ 108) }
{
    let mut text = Vec::new(rt.alloc());
    put_listing(&mut text, listing)?;
    tell(rt, &text)?;
    show(rt, first(&text, text.len().saturating_sub(1)))?;
    text.push(0)?;
    show(rt, &text)
}

// A first line and zero bytes behind it: as many bytes as there may be, and one more, whatever they are. Size is tested before anything else.
fn sizes(rt: &HostRuntime, head: &[u8]) -> io::Result<()> {
    let mut text = Vec::new(rt.alloc());
    text.extend_from_slice(head)?;
    text.resize(MOST, 0)?;
    show(rt, &text)?;
    text.push(0)?;
    show(rt, &text)
}

// Rubbish: all bytes, from one of them on.
fn rubbish(rt: &impl Print, from: u8) -> io::Result<()> {
    let mut bytes = [from; 256];
    for (k, byte) in (0..=255).zip(bytes.iter_mut()) {
        *byte = byte.wrapping_add(k);
    }
    show(rt, &bytes)
}

// Line 1 of another form, or without its line feed: 5.
const FIRST_LINES: [&[u8]; 27] = [
    b"",
    b"\n",
    b"\n\n",
    b"12",
    b"12,12\n",
    b"12\r\n",
    b" 12\n",
    b"12 \n",
    b"012\n",
    b"+12\n",
    b"-\n",
    b"--12\n",
    b"-0\n",
    b"00\n",
    b"-012\n",
    b"1-2\n",
    b"123456\n",
    b"-123456\n",
    b"12,\n",
    b",12\n",
    b"12.\n",
    b"1e1\n",
    b"\xc2\xb912\n",
    b"012\n1,2,3,4,5\n",
    b"0108\n",
    b"216",
    b"216,\n",
];

// A length that is well-formed and not tabled: 1, whatever stands behind it.
const LENGTHS: [&[u8]; 15] = [
    b"-12\n",
    b"0\n",
    b"1\n",
    b"11\n",
    b"48\n",
    b"99999\n",
    b"-99999\n",
    b"65548\n",
    b"11\nx",
    b"13\n\n\n",
    b"107\n",
    b"144\n",
    b"217\n",
    b"432\n",
    b"65752\n",
];

// Lines that are no hop of six samples.
const HOPS: [&[u8]; 26] = [
    b"\n",
    b"1,2,3,4,5\n",
    b"1,2,3,4,5,6,7\n",
    b"1,2,3,4,5,\n",
    b",2,3,4,5,6\n",
    b"1,2,,4,5,6\n",
    b"1,2,3,4,5,06\n",
    b"01,2,3,4,5,6\n",
    b"1,2,-0,4,5,6\n",
    b"1,2,--3,4,5,6\n",
    b"1,2,-,4,5,6\n",
    b"1,2,+3,4,5,6\n",
    b"1,2,3,4,5,32768\n",
    b"-32769,2,3,4,5,6\n",
    b"1,99999,3,4,5,6\n",
    b"1,-99999,3,4,5,6\n",
    b"1,2,3,4,5,100000\n",
    b"1,2,3,4,5,6\r\n",
    b"1, 2,3,4,5,6\n",
    b"1,2,3,4,5,6 \n",
    b"1;2;3;4;5;6\n",
    b"\"1\",2,3,4,5,6\n",
    b"1,2,3,4,5,6\x00\n",
    b"1,2,3,4,5,6",
    b"1,2,3,4,5,6,",
    b"x",
];

// A hop that is none, in line 2 and behind a good one: 5.
fn hop_refused(rt: &HostRuntime, line: &[u8]) -> io::Result<()> {
    let mut text = Vec::new(rt.alloc());
    text.extend_from_slice(b"12\n")?;
    text.extend_from_slice(line)?;
    show(rt, &text)?;
    text.truncate(3);
    text.extend_from_slice(b"1,2,3,4,5,6\n")?;
    text.extend_from_slice(line)?;
    show(rt, &text)?;
    text.extend_from_slice(b"1,2,3,4,5,6\n01\n")?;
    show(rt, &text)
}

// Listings that are taken, of none to five hops.
fn short(rt: &HostRuntime, head: &[u8], m: usize) -> io::Result<()>
    requires { m ≤ 108 }
{
    for hops in 0..6 {
        let mut text = Vec::new(rt.alloc());
        let listing = Listing {
            head,
            samples: Samples::Wide,
            hops,
            m,
        };
        put_listing(&mut text, listing)?;
        show(rt, &text)?;
    }
    Ok(())
}

// A hop of another count of samples behind a good one: 5.
fn miscounted(rt: &HostRuntime, head: &[u8], m: usize, count: usize) -> io::Result<()>
    requires { (m ≤ 108) × (count ≤ 109) }
{
    let mut text = Vec::new(rt.alloc());
    text.extend_from_slice(head)?;
    put_hop(&mut text, Samples::Wide, 0, m)?;
    put_hop(&mut text, Samples::Wide, 1, count)?;
    show(rt, &text)
}

// The hops of a length: a few, and one with a sample too few or too many.
fn counts(rt: &HostRuntime, head: &[u8], m: usize) -> io::Result<()>
    requires { (1 ≤ m) × (m ≤ 108) }
{
    short(rt, head, m)?;
    miscounted(rt, head, m, m - 1)?;
    miscounted(rt, head, m, m + 1)
}

// As many hops as fit, in 65,536 bytes.
fn longest(rt: &HostRuntime) -> io::Result<()> {
    long(
        rt,
        Listing {
            head: b"12\n10,0,0,0,0,0\n",
            samples: Samples::Digits,
            hops: 5460,
            m: 6,
        },
    )?;
    long(
        rt,
        Listing {
            head: b"24\n100,10,10,10,10,10,10,10,10,10,10,10\n",
            samples: Samples::Digits,
            hops: 2729,
            m: 12,
        },
    )?;
    long(
        rt,
        Listing {
            head: b"36\n10,10,10,10,10,10,10,10,10,10,10,10,10,0,0,0,0,0\n",
            samples: Samples::Digits,
            hops: 1819,
            m: 18,
        },
    )?;
    long(
        rt,
        Listing {
            head: b"72\n10,10,10,10,10,10,10,10,10,10,10,10,10,0,0,0,0,0,0,0,0,0,0,0,0,0,0,0,0,0,0,0,0,0,0,0\n",
            samples: Samples::Digits,
            hops: 909,
            m: 36,
        },
    )?;
    long(
        rt,
        Listing {
            head: b"108\n100,100,100,100,100,100,100,100,100,100,100,100,100,100,100,100,100,100,100,100,100,100,100,100,100,100,100,100,100,100,100,100,100,100,100,100,100,100,100,100,100,100,0,0,0,0,0,0,0,0,0,0,0,0\n",
            samples: Samples::Digits,
            hops: 605,
            m: 54,
        },
    )?;
    long(
        rt,
        Listing {
            head: b"216\n10,10,10,10,10,10,10,10,10,10,10,10,10,10,10,10,10,10,10,10,10,10,10,10,10,10,10,10,10,10,10,10,10,10,10,10,10,10,10,10,10,10,10,10,10,10,10,10,10,10,10,10,10,10,10,10,10,10,10,10,10,10,10,10,10,10,10,10,10,10,10,10,10,10,10,10,10,10,10,10,10,10,10,10,0,0,0,0,0,0,0,0,0,0,0,0,0,0,0,0,0,0,0,0,0,0,0,0\n",
            samples: Samples::Digits,
            hops: 302,
            m: 108,
        },
    )
}

// Hops of long samples.
fn widest(rt: &HostRuntime) -> io::Result<()> {
    long(
        rt,
        Listing {
            head: b"12\n",
            samples: Samples::Wide,
            hops: 2000,
            m: 6,
        },
    )?;
    long(
        rt,
        Listing {
            head: b"24\n",
            samples: Samples::Wide,
            hops: 1000,
            m: 12,
        },
    )?;
    long(
        rt,
        Listing {
            head: b"36\n",
            samples: Samples::Wide,
            hops: 700,
            m: 18,
        },
    )?;
    long(
        rt,
        Listing {
            head: b"72\n",
            samples: Samples::Wide,
            hops: 350,
            m: 36,
        },
    )?;
    long(
        rt,
        Listing {
            head: b"108\n",
            samples: Samples::Wide,
            hops: 230,
            m: 54,
        },
    )?;
    long(
        rt,
        Listing {
            head: b"216\n",
            samples: Samples::Wide,
            hops: 115,
            m: 108,
        },
    )
}

fn main(rt: HostRuntime) -> io::Result<()> {
    show(
        &rt,
        b"12\n0,0,0,0,0,0\n7,-8,32767,-32768,1,0\n5,5,5,5,5,5\n",
    )?;
    for listing in FIRST_LINES {
        show(&rt, listing)?;
    }
    for listing in LENGTHS {
        show(&rt, listing)?;
    }
    for line in HOPS {
        hop_refused(&rt, line)?;
    }
    counts(&rt, b"12\n", 6)?;
    counts(&rt, b"24\n", 12)?;
    counts(&rt, b"36\n", 18)?;
    counts(&rt, b"72\n", 36)?;
    counts(&rt, b"108\n", 54)?;
    counts(&rt, b"216\n", 108)?;
    longest(&rt)?;
    widest(&rt)?;
    sizes(&rt, b"")?;
    sizes(&rt, b"12\n")?;
    sizes(&rt, b"11\n")?;
    sizes(&rt, b"012\n")?;
    rubbish(&rt, 0)?;
    rubbish(&rt, 11)?;
    rubbish(&rt, 48)?;
    rubbish(&rt, 255)
}
