// What the command prints: `report` and `is_budget` on bytes.
use report::buffers::first;
use report::sum_bytes;
use std::io;

// The most bytes of a listing.
const MOST: usize = 65536;

// A listing of three hops.
const LISTING: &[u8] = b"12\n0,0,0,0,0,0\n7,-8,32767,-32768,1,0\n5,5,5,5,5,5\n";

// Distances as they are typed; then such as are too large, and bytes that are none.
const DISTANCES: [&[u8]; 27] = [
    b"0",
    b"1",
    b"2",
    b"4",
    b"9",
    b"10",
    b"31",
    b"32",
    b"33",
    b"320",
    b"65536",
    b"99999",
    b"100000",
    b"4294967296",
    b"-1",
    b"-0",
    b"00",
    b"032",
    b"+1",
    b" 1",
    b"1 ",
    b"1\n",
    b"1\x00",
    b"1.0",
    b"-",
    b"x",
    b"",
];

// Budgets as they are typed; then bytes that are none: by them no trial is made.
const BUDGETS: [&[u8]; 25] = [
    b"2",
    b"10",
    b"900",
    b"1009",
    b"65536",
    b"99999",
    b"100000",
    b"4294967296",
    b"100000000000000000",
    b"1000000000000000000",
    b"9999999999999999999",
    b"18446744073709551617",
    b"-1",
    b"-0",
    b"00",
    b"01",
    b"+1",
    b" 1",
    b"1 ",
    b"1\n",
    b"1\x00",
    b"1e3",
    b"-",
    b"x",
    b"",
];

// Listings that `round_trip` refuses: whatever else is typed, that number and that line are printed.
const REFUSED: [&[u8]; 14] = [
    b"",
    b"12",
    b"012\n",
    b"11\n",
    b"0\n",
    b"144\n0,0,0,0,0,0\n",
    b"12\n\n",
    b"12\n1,2,3,4,5\n",
    b"12\n1,2,3,4,5,6,7\n",
    b"12\n1,2,3,4,5,6\n1,2,3,4,5,32768\n",
    b"12\n1,2,3,4,5,6\n-32769,2,3,4,5,6\n",
    b"12\n1,2,3,4,5,6\n1,2,3,4,5,6\n1,2,x,4,5,6\n",
    b"12\n1,2,3,4,5,6",
    b"\xff",
];

// Listings of no hops.
const EMPTY: [&[u8]; 6] = [b"12\n", b"24\n", b"36\n", b"72\n", b"108\n", b"216\n"];

// What is typed and the listing, by their lengths and their sums, whether each that is typed is a budget, and what is printed.
fn printed(rt: &impl Print, distance: &[u8], budget: &[u8], input: &[u8]) -> io::Result<()> {
    print!(rt; "typed")?;
    for typed in [distance, budget] {
        let is_budget = u32::from(coarsest_report::is_budget(typed));
        print!(rt; ",{},{},{is_budget}", typed.len(), sum_bytes(typed))?;
    }
    println!(rt; ",{},{}", input.len(), sum_bytes(input))?;
    let mut out = [165; coarsest_report::ROOM];
    let end = coarsest_report::report(distance, budget, input, &mut out);
    rt.write_all(first(&out, end))
}

// Distances with budgets, of which few allow all trials.
fn distances(rt: &impl Print) -> io::Result<()> {
    let budgets: [&[u8]; 4] = [b"0", b"1", b"2000", b"999999999999999999"];
    for distance in DISTANCES {
        for budget in budgets {
            printed(rt, distance, budget, LISTING)?;
        }
    }
    Ok(())
}

// A listing with distances: two that are taken, one that is too large, and bytes that are none.
fn listed(rt: &impl Print, budget: &[u8], input: &[u8]) -> io::Result<()> {
    let distances: [&[u8]; 4] = [b"0", b"1", b"33", b""];
    for distance in distances {
        printed(rt, distance, budget, input)?;
    }
    Ok(())
}

// A hop: two samples so many times, and two more.
fn put_hop(text: &mut Vec<u8>, pair: &[u8], count: usize, last: &[u8]) -> io::Result<()> {
    for _ in 0..count {
        text.extend_from_slice(pair)?;
    }
    text.extend_from_slice(last)?;
    Ok(())
}

// Listings of one hop to three.
fn hops(rt: &HostRuntime, head: &[u8], count: usize) -> io::Result<()> {
    let mut text = Vec::new(rt.alloc());
    text.extend_from_slice(head)?;
    put_hop(&mut text, b"-3,20000,", count, b"-1,0\n")?;
    listed(rt, b"2000", &text)?;
    put_hop(&mut text, b"700,-8,", count, b"32767,9\n")?;
    listed(rt, b"2000", &text)?;
    put_hop(&mut text, b"0,1,", count, b"-32768,-100\n")?;
    listed(rt, b"2000", &text)
}

// So many hops and one that is not like them, with few trials.
fn many(rt: &HostRuntime, count: usize) -> io::Result<()> {
    let mut text = Vec::new(rt.alloc());
    text.extend_from_slice(b"12\n")?;
    put_hop(&mut text, b"0,1,0,0,1,0\n", count, b"9,9,0,9,0,9\n")?;
    listed(rt, b"3", &text)
}

// As many bytes as there may be, and one more: size is tested before anything else.
fn sizes(rt: &HostRuntime) -> io::Result<()> {
    let mut text = Vec::new(rt.alloc());
    text.extend_from_slice(b"12\n")?;
    text.resize(MOST, 0)?;
    listed(rt, b"9", &text)?;
    text.push(0)?;
    listed(rt, b"9", &text)
}

pub fn commands(rt: &HostRuntime) -> io::Result<()> {
    distances(rt)?;
    for budget in BUDGETS {
        printed(rt, b"0", budget, LISTING)?;
    }
    for input in REFUSED {
        listed(rt, b"9", input)?;
    }
    for input in EMPTY {
        listed(rt, b"9", input)?;
    }
    hops(rt, b"12\n", 2)?;
    hops(rt, b"24\n", 5)?;
    hops(rt, b"36\n", 8)?;
    hops(rt, b"72\n", 17)?;
    hops(rt, b"108\n", 26)?;
    hops(rt, b"216\n", 53)?;
    many(rt, 4094)?;
    many(rt, 4095)?;
    many(rt, 5460)?;
    sizes(rt)
}
