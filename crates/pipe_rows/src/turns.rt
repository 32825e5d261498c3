//! Turns of one thread and of three.

ghost use Rattle.std.specs.Prelude.{◌≡◌, ◌+◌, length, MatchBool};
ghost use Rattle.std.specs.Thread.{IsSync};
ghost use Rattle.turn_cell.specs.Seat.{IsIdle, IsOf};

use std::marker::Brand;
use std::sync::Wait;
use std::test::Fail;
use std::thread::{Threads, join};
use turn_cell::{Busy, Stands, TurnCell, TurnSeat};

/// The number of entries of its history, and which counter it is.
#[derive(Drop)]
struct Counter {
    count: u64,
    id: u64,
}

impl Stands for Counter {
    type Entry = u64;

    type Name = u64;

    ghost use Rattle.std.specs.Prelude.{◌≡◌, length};

    ghost stands = { λ counter history. counter.count ≡ length history };

    ghost name = { λ counter. counter.id };
}

#[test]
fn a_seat_is_busy_while_another_has_the_turn_and_then_sees_its_entry(
    rt: HostRuntime,
) -> Result<(), Fail> {
    let (cell, mut seats) = TurnCell::make(rt.alloc(), Counter { count: 0, id: 7 }, 2)
        .ok()
        .ok_or("no memory")?;
    let mut one = cell.last_new(&mut seats).ok_or("two seats")?;
    let mut zero = cell.last_new(&mut seats).ok_or("two seats")?;
    let mut held = cell.try_take(&mut zero).ok().ok_or("free")?;
    assert!(rt; held.entries() == 0);
    let busy = cell.try_take(&mut one);
    assert!(rt; matches!(busy, Err(Busy { word: 1 })));
    held.state_mut().count = 1;
    cell.put::<Brand>(&mut zero, held, 1);
    let held = cell.try_take(&mut one).ok().ok_or("free")?;
    assert!(rt; held.entries() == 1);
    assert!(rt; held.state().count == 1);
    cell.put::<Brand>(&mut one, held, 0);
    let counter = close_two(cell, zero, one);
    assert!(rt; counter.count == 1);
    assert!(rt; counter.id == 7);
    Ok(())
}

fn close_two(
    cell: TurnCell<Counter>,
    mut zero: TurnSeat<Counter>,
    one: TurnSeat<Counter>,
) -> Counter
    requires count { cell.seats ≡ 2 }
    requires zero { IsIdle cell zero × (zero.number ≡ 0) }
    requires one { IsIdle cell one × (one.number ≡ 1) }
{
    cell.join(&mut zero, one);
    cell.close(zero)
}

// Takes the turn where it is free, counts one more, and puts that back.
fn count_one(cell: &TurnCell<Counter>, seat: &mut TurnSeat<Counter>) -> bool
    requires { IsIdle cell.now seat.old }
    ensures idle { IsIdle cell.now seat.new }
    ensures same { (seat.new.number ≡ seat.old.number) × (seat.new.joined ≡ seat.old.joined) }
    ensures counted { MatchBool result
        (length seat.new.own ≡ length seat.old.own + 1)
        (seat.new.own ≡ seat.old.own) }
{
    let Ok(mut held) = cell.try_take(seat) else {
        return false;
    };
    if held.entries() >= 1 << 61 {
        cell.put::<Brand>(seat, held, 0);
        return false;
    }
    let counter = held.state_mut();
    counter.count += 1;
    cell.put::<Brand>(seat, held, 1);
    true
}

// Tries until it has counted so often.
fn count_often<R: Wait>(
    rt: &R,
    cell: &TurnCell<Counter>,
    mut seat: TurnSeat<Counter>,
    times: u64,
) -> (TurnSeat<Counter>, u64)
    requires { IsIdle cell.now seat }
    ensures idle { IsIdle cell.now result.0 }
    ensures number { result.0.number ≡ seat.number }
{
    let mut puts: u64 = 0;
    for _ in 0..times {
        for _ in rt.forever() {
            if count_one(cell, &mut seat) {
                puts = puts.saturating_add(1);
                break;
            }
        }
    }
    (seat, puts)
}

// What two threads have counted, and their seats.
fn count_by_two<R: Threads + Wait + Sync>(
    rt: &R,
    cell: &TurnCell<Counter>,
    first: TurnSeat<Counter>,
    second: TurnSeat<Counter>,
    times: u64,
) -> ((TurnSeat<Counter>, u64), (TurnSeat<Counter>, u64))
    requires first { IsIdle cell.now first }
    requires second { IsIdle cell.now second }
    ensures first { IsIdle cell.now result.0.0 × (result.0.0.number ≡ first.number) }
    ensures second { IsIdle cell.now result.1.0 × (result.1.0.number ≡ second.number) }
{
    join(
        rt,
        || -> (TurnSeat<Counter>, u64)
            requires { IsIdle cell.now first }
            ensures { IsIdle cell.entry.now result.0 × (result.0.number ≡ first.number) }
        { count_often(rt, cell, first, times) },
        || -> (TurnSeat<Counter>, u64)
            requires { IsIdle cell.now second }
            ensures { IsIdle cell.entry.now result.0 × (result.0.number ≡ second.number) }
        { count_often(rt, cell, second, times) },
    )
}

// What three threads have counted, each so often, and how often each did.
fn counted_by_three<R: Threads + Wait + Sync>(
    rt: &R,
    cell: TurnCell<Counter>,
    zero: TurnSeat<Counter>,
    one: TurnSeat<Counter>,
    two: TurnSeat<Counter>,
    times: u64,
) -> (Counter, [u64; 3])
    requires count { cell.seats ≡ 3 }
    requires zero { IsIdle cell zero × (zero.number ≡ 0) }
    requires one { IsIdle cell one × (one.number ≡ 1) }
    requires two { IsIdle cell two × (two.number ≡ 2) }
{
    let ((zero, first), ((one, second), (two, third))) = count_by_three(
        rt, &cell, zero, one, two, times,
    );
    let counter = cell.close_three(zero, one, two);
    (counter, [first, second, third])
}

type Turned = (TurnSeat<Counter>, u64);

fn count_by_three<R: Threads + Wait + Sync>(
    rt: &R,
    cell: &TurnCell<Counter>,
    zero: TurnSeat<Counter>,
    one: TurnSeat<Counter>,
    two: TurnSeat<Counter>,
    times: u64,
) -> (Turned, (Turned, Turned))
    requires zero { IsIdle cell.now zero }
    requires one { IsIdle cell.now one }
    requires two { IsIdle cell.now two }
    ensures zero { IsIdle cell.now result.0.0 × (result.0.0.number ≡ zero.number) }
    ensures one { IsIdle cell.now result.1.0.0 × (result.1.0.0.number ≡ one.number) }
    ensures two { IsIdle cell.now result.1.1.0 × (result.1.1.0.number ≡ two.number) }
{
    join(
        rt,
        || -> Turned
            requires { IsIdle cell.now zero }
            ensures { IsIdle cell.entry.now result.0 × (result.0.number ≡ zero.number) }
        { count_often(rt, cell, zero, times) },
        || -> (Turned, Turned)
            requires { IsSync R.row × IsIdle cell.now one × IsIdle cell.now two }
            ensures { IsIdle cell.entry.now result.0.0 × (result.0.0.number ≡ one.number)
                × IsIdle cell.entry.now result.1.0 × (result.1.0.number ≡ two.number) }
        { count_by_two(rt, cell, one, two, times) },
    )
}

#[test]
fn three_threads_take_turns_and_no_count_is_lost(rt: HostRuntime) -> Result<(), Fail> {
    let (cell, seats) = TurnCell::make(rt.alloc(), Counter { count: 0, id: 7 }, 3)
        .ok()
        .ok_or("no memory")?;
    let (zero, one, two) = cell.three_new(seats);
    let (counter, puts) = counted_by_three(&rt, cell, zero, one, two, 1000);
    assert!(rt; puts == [1000, 1000, 1000]);
    assert!(rt; counter.count == 3000);
    assert!(rt; counter.id == 7);
    Ok(())
}
