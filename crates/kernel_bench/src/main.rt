//! How long the searches of `byte_kernels` take, beside the same searches as plain loops.
//!
//! `cd crates/kernel_bench; rt run -- 200` makes 200 rounds of each search at each length, by turns on lanes and plain,
//! where the one byte that ends it comes last. It prints the least time of one search on lanes and of one plain, in
//! picoseconds, and their ratio in thousandths. With no number it makes one round, and prints no time. The times of the
//! C library's `memchr` on such bytes are printed by `bench/memchr.c`.
#![tactic(auto)]

mod row;

use byte_kernels::ByteSet;
use row::{Bytes, ROWS, Row};
use std::time::{Clock, Duration, Instant};
use std::{env, io};

const LENGTHS: [usize; 5] = [8, 16, 80, 4096, 1 << 20];

// How many bytes are searched between two looks at the clock, in as many searches as that takes.
const BYTES_TIMED: usize = 1 << 20;

fn main(rt: HostRuntime) -> io::Result<()> {
    let word = env::args(&rt)?.skip(1).next();
    let rounds = match &word {
        Some(word) => word.as_str().parse::<u32>().unwrap_or(1),
        None => 1,
    };
    for row in &ROWS {
        for len in LENGTHS {
            let (lanes, plain) = least_times(&rt, row, len, rounds)?;
            if word.is_some() {
                let name = row.name;
                let ratio = lanes.saturating_mul(1000) / plain.max(1);
                println!(rt;
                    "{name}, {len} bytes: lanes {lanes} ps, plain {plain} ps, ratio {ratio}/1000"
                )?;
            }
        }
    }
    Ok(())
}

// The least time of a search on lanes, and of a plain one, of several rounds, in picoseconds.
fn least_times(rt: &HostRuntime, row: &Row, len: usize, rounds: u32) -> io::Result<(u64, u64)> {
    let bytes = Bytes::of(rt.alloc(), row, len)?;
    let set = ByteSet::of(row.set);
    let mut lanes = u64::MAX;
    let mut plain = u64::MAX;
    for _ in 0..rounds {
        lanes = lanes.min(time_lanes(rt, row, &bytes, &set)?);
        plain = plain.min(time_plain(rt, row, &bytes, &set)?);
    }
    Ok((lanes, plain))
}

fn time_lanes<R: Clock>(rt: &R, row: &Row, bytes: &Bytes, set: &ByteSet) -> io::Result<u64> {
    let times = BYTES_TIMED / bytes.len().max(1);
    let mut found = 0usize;
    let start = Instant::now(rt)?;
    for turn in 0..times {
        found = found.wrapping_add(row.on_lanes(bytes.hay(turn), bytes.other(), set));
    }
    Ok(picoseconds_each(start.elapsed(rt)?, times, found))
}

fn time_plain<R: Clock>(rt: &R, row: &Row, bytes: &Bytes, set: &ByteSet) -> io::Result<u64> {
    let times = BYTES_TIMED / bytes.len().max(1);
    let mut found = 0usize;
    let start = Instant::now(rt)?;
    for turn in 0..times {
        found = found.wrapping_add(row.plainly(bytes.hay(turn), bytes.other(), set));
    }
    Ok(picoseconds_each(start.elapsed(rt)?, times, found))
}

// The time is looked at together with what was found, so that no search may be left out.
fn picoseconds_each(all: Duration, times: usize, found: usize) -> u64 {
    if found == usize::MAX {
        return u64::MAX;
    }
    (all.as_nanos().min(1 << 50) as u64).saturating_mul(1000) / (times.max(1) as u64)
}
