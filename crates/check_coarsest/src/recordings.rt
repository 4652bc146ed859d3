// Real recordings through `coarsest_step`.
ghost use Rattle.std.specs.Prelude.{◌≤◌};

use crate::show;
use report::buffers::{alternating, first, with};
use report::noise::samples;
use std::io;

// Room for three hops of the longest length.
const ROOM: usize = 324;

// Room for the most hops of the shortest.
const MANY: usize = 24570;

// Recordings that return far away: by 12, 13 and 9, by a step of 1,024.
const FAR: [i16; 6] = [-1462, -1627, 1031, 1032, -1458, -197];

const FARTHER: [i16; 12] = [
    -1115, -1120, -1771, -1127, -90, -31, -41, -653, -42, -33, -656, -6,
];

const FAR_AT_24: [i16; 12] = [
    -423, -436, 705, -73, 501, -1463, -1357, 670, -828, -539, 498, 440,
];

// Silence, loud sound, quiet noise, and clicks in the first sample and in the last. A line names them by their place here.
fn sounds(seed: u32, last: usize) -> [[i16; ROOM]; 9] {
    [
        [0; ROOM],
        alternating(32767, -32768),
        alternating(32767, 32767),
        samples(seed, 0),
        samples(seed, 32768),
        samples(seed, 1),
        samples(seed, 5),
        with([0; ROOM], 0, -32768),
        with([0; ROOM], last, 7),
    ]
}

// The names of the recordings that return far away, and of the longest.
const KIND_FAR: usize = 9;

const KIND_LONGEST: usize = 10;

// A recording: the name of its sound, the length of its blocks, its hops and its samples.
#[derive(Clone, Copy)]
struct Recording<'a> {
    kind: usize,
    n: usize,
    hops: usize,
    x: &'a [i16],
}

// A line for a distance: no trial, one, two, and as many as there are.
fn at(rt: &impl Print, of: Recording, allowed: u32) -> io::Result<()> {
    let Recording { kind, n, hops, x } = of;
    print!(rt; "recording,{kind},{n},{hops},{allowed}")?;
    for budget in [0, 1, 2, 2000] {
        show(rt, filter_bank::coarsest_step(n, hops, x, allowed, budget))?;
    }
    println!(rt; "")
}

fn every_distance(rt: &impl Print, of: Recording) -> io::Result<()> {
    for allowed in 0..33 {
        at(rt, of, allowed)?;
    }
    Ok(())
}

fn some_distances(rt: &impl Print, of: Recording) -> io::Result<()> {
    for allowed in [0, 1, 2, 3, 5, 31, 32] {
        at(rt, of, allowed)?;
    }
    Ok(())
}

// The sound of a kind, of so many hops.
fn sound(kind: usize, n: usize, hops: usize) -> [i16; ROOM]
    requires { (n ≤ 216) × (hops ≤ 3) }
{
    let last = (hops * (n / 2)).saturating_sub(1);
    sounds((n + hops) as u32, last)[kind % 9]
}

// Every kind at one to three hops and every distance, ..
fn short(rt: &impl Print, n: usize) -> io::Result<()>
    requires { n ≤ 216 }
{
    for kind in 0..9 {
        for hops in 1..4 {
            let sound = sound(kind, n, hops);
            let x = first(&sound, hops * (n / 2));
            every_distance(rt, Recording { kind, n, hops, x })?;
        }
    }
    Ok(())
}

// .. and at one of these numbers of hops and a few distances.
fn long(rt: &impl Print, n: usize) -> io::Result<()>
    requires { n ≤ 216 }
{
    for kind in 0..9 {
        let hops = 1 + kind % 3;
        let sound = sound(kind, n, hops);
        let x = first(&sound, hops * (n / 2));
        some_distances(rt, Recording { kind, n, hops, x })?;
    }
    Ok(())
}

fn far(rt: &impl Print, n: usize, hops: usize, x: &[i16]) -> io::Result<()> {
    let kind = KIND_FAR;
    every_distance(rt, Recording { kind, n, hops, x })
}

// The most hops, silent but for the last sample: a step fails there alone.
fn longest(rt: &impl Print) -> io::Result<()> {
    let x = with([0; MANY], MANY - 1, 32767);
    let longest = Recording {
        kind: KIND_LONGEST,
        n: 12,
        hops: 4095,
        x: &x,
    };
    at(rt, longest, 1)
}

pub fn recordings(rt: &impl Print) -> io::Result<()> {
    short(rt, 12)?;
    short(rt, 24)?;
    long(rt, 36)?;
    long(rt, 72)?;
    long(rt, 108)?;
    long(rt, 216)?;
    far(rt, 12, 1, &FAR)?;
    far(rt, 12, 2, &FARTHER)?;
    far(rt, 24, 1, &FAR_AT_24)?;
    longest(rt)
}
