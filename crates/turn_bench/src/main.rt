//! How long an uncontended take and put of a `TurnCell` take, beside an uncontended lock and unlock of a `Mutex`.
//!
//! `cd crates/turn_bench; rt run -- 100000` makes 100 rounds of so many of each, by turns, and prints the least time
//! of each in picoseconds, and their ratio in hundredths. With no number it makes a thousand, and prints no time.
#![tactic(auto)]

ghost use Rattle.turn_cell.specs.Seat.{IsIdle};

use std::marker::Brand;
use std::sync::{Mutex, Wait};
use std::time::{Clock, Duration, Instant};
use std::{env, io};
use turn_cell::{Stands, TurnCell, TurnSeat};

const ROUNDS: u32 = 100;

/// How long its history is.
#[derive(Drop)]
struct Counter {
    count: u64,
}

impl Stands for Counter {
    type Entry = u64;

    type Name = u64;

    ghost use Rattle.std.specs.Prelude.{◌≡◌, length};

    ghost stands = { λ counter history. counter.count ≡ length history };

    ghost name = { λ counter. 0 };
}

fn main(rt: HostRuntime) -> io::Result<()> {
    let word = env::args(&rt)?.skip(1).next();
    let times = match &word {
        Some(word) => word.as_str().parse::<u64>().unwrap_or(1000),
        None => 1000,
    };
    let Ok((cell, mut seats)) = TurnCell::make(rt.alloc(), Counter { count: 0 }, 1) else {
        return Err(io::Error::from(io::ErrorKind::OutOfMemory));
    };
    let Some(mut seat) = cell.last_new(&mut seats) else {
        return Ok(());
    };
    let lock = Mutex::new(Counter { count: 0 });
    let (turns, locks) = least_times(&rt, &cell, &mut seat, &lock, times)?;
    if word.is_some() {
        let ratio = turns.saturating_mul(100) / locks.max(1);
        println!(rt; "take and put {turns} ps, lock and unlock {locks} ps, ratio {ratio}/100")?;
    }
    Ok(())
}

// The least time of a take and a put, and of a lock and an unlock, of several rounds, in picoseconds.
fn least_times<R: Clock + Wait>(
    rt: &R,
    cell: &TurnCell<Counter>,
    seat: &mut TurnSeat<Counter>,
    lock: &Mutex<Counter>,
    times: u64,
) -> io::Result<(u64, u64)>
    requires { IsIdle cell.now seat.old }
{
    let mut turns = u64::MAX;
    let mut locks = u64::MAX;
    for _ in 0..ROUNDS {
        turns = turns.min(time_turns(rt, cell, seat, times)?);
        locks = locks.min(time_locks(rt, lock, times)?);
    }
    Ok((turns, locks))
}

// How long a take and a put take, in picoseconds.
fn time_turns<R: Clock>(
    rt: &R,
    cell: &TurnCell<Counter>,
    seat: &mut TurnSeat<Counter>,
    times: u64,
) -> io::Result<u64>
    requires { IsIdle cell.now seat.old }
    ensures { IsIdle cell.now seat.new }
{
    let start = Instant::now(rt)?;
    for _ in 0..times {
        count_by_turn(cell, seat);
    }
    Ok(picoseconds_each(start.elapsed(rt)?, times))
}

// How long a lock and an unlock take, in picoseconds.
fn time_locks<R: Clock + Wait>(rt: &R, lock: &Mutex<Counter>, times: u64) -> io::Result<u64> {
    let start = Instant::now(rt)?;
    for _ in 0..times {
        count_by_lock(rt, lock);
    }
    Ok(picoseconds_each(start.elapsed(rt)?, times))
}

fn picoseconds_each(all: Duration, times: u64) -> u64 {
    (all.as_nanos().min(1 << 60) as u64).saturating_mul(1000) / times.max(1)
}

fn count_by_turn(cell: &TurnCell<Counter>, seat: &mut TurnSeat<Counter>)
    requires { IsIdle cell.now seat.old }
    ensures { IsIdle cell.now seat.new }
{
    let Ok(mut held) = cell.try_take(seat) else {
        return;
    };
    if held.entries() >= 1 << 61 {
        cell.put::<Brand>(seat, held, 0);
        return;
    }
    let counter = held.state_mut();
    counter.count += 1;
    cell.put::<Brand>(seat, held, 1);
}

fn count_by_lock<R: Wait>(rt: &R, lock: &Mutex<Counter>) {
    let mut counter = lock.lock(rt);
    if counter.count >= 1 << 61 {
        return;
    }
    counter.count += 1;
}
