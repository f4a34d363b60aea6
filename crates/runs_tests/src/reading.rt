// What can be read of an open run and of a closed one, of four stations and a watch of length 2. Station 3 is faulty.
use crate::bench::{Bench, Sizes, hold, opened, put, word_place};
use canal::GateOrder;
use gates::GateBoard;
use model::{Machine, Operation};
use std::process::Abort;
use std::test::Fail;
use tables::{Counts, Entry, Numbers, Tables};

fn entry(origin: u8, sequence: u8) -> Result<Option<Entry<GateOrder>>, Fail> {
    let operation = GateOrder::new(5, 1200, 366, 1439, 1)?;
    Ok(Some(Entry {
        origin,
        sequence,
        operation,
    }))
}

fn executed_count(executed: u16) -> Counts {
    Counts {
        submitted: 0,
        executed,
    }
}

// At station 2: origin 1's sequence 2 is held by the origin and two others, its sequence 1 by just one other, and origin
// 0's sequence 1 by all but the origin. Of its eight places of executed entries the second is empty; the entry behind them
// is station 3's. It has found station 3 two-faced, and its board has taken the order.
fn fill(numbers: Numbers, t: &mut Tables<'_, GateBoard>, order: &GateOrder) -> Result<(), Fail> {
    let watch = numbers.watch;
    hold(t.words, word_place(watch, 2, 1, 2), 0b1011, order);
    hold(t.words, word_place(watch, 2, 1, 1), 0b0011, order);
    hold(t.words, word_place(watch, 2, 0, 1), 0b1110, order);
    put(t.executed, 16, entry(1, 2)?);
    put(t.executed, 18, entry(0, 1)?);
    put(t.executed, 23, entry(2, 2)?);
    put(t.executed, 24, entry(3, 1)?);
    put(t.counts, 2, executed_count(3));
    put(t.accused, 2, 8);
    if let Some(board) = t.machines.get_mut(2) {
        let _ = <GateBoard as Machine>::apply(board, order);
    }
    Ok(())
}

// The operation that is certified at station 2, by its packed form.
fn certified(
    numbers: Numbers,
    t: &Tables<'_, GateBoard>,
    origin: u32,
    sequence: u32,
) -> Option<u64> {
    numbers.certified(t, 2, origin, sequence).map(|u| u.pack())
}

// The origin and sequence of the entry at a position of station 2's executed list.
fn executed(numbers: Numbers, t: &Tables<'_, GateBoard>, position: u32) -> Option<(u8, u8)> {
    numbers
        .executed(t, 2, position)
        .map(|entry| (entry.origin, entry.sequence))
}

// The opening of gate 5 on the board of a station.
fn opening(numbers: Numbers, t: &Tables<'_, GateBoard>, station: u32) -> Option<u16> {
    let board = numbers.machine(t, station)?;
    board.gate(5).map(|gate| gate.opening)
}

// Whether nothing is read of a station.
fn is_silent(numbers: Numbers, t: &Tables<'_, GateBoard>, station: u32) -> bool {
    numbers.accused(t, station).is_none()
        && numbers.machine(t, station).is_none()
        && numbers.executed(t, station, 0).is_none()
        && numbers.certified(t, station, 1, 2).is_none()
}

fn check(rt: &impl Abort, numbers: Numbers, t: &Tables<'_, GateBoard>, packed: u64) {
    assert_eq!(rt; certified(numbers, t, 1, 2), Some(packed));
    assert_eq!(rt; certified(numbers, t, 1, 1), None);
    assert_eq!(rt; certified(numbers, t, 0, 1), None);
    assert_eq!(rt; certified(numbers, t, 1, 0), None);
    assert_eq!(rt; certified(numbers, t, 1, 3), None);
    assert_eq!(rt; certified(numbers, t, 4, 1), None);
    assert_eq!(rt; executed(numbers, t, 0), Some((1, 2)));
    assert_eq!(rt; executed(numbers, t, 1), None);
    assert_eq!(rt; executed(numbers, t, 2), Some((0, 1)));
    assert_eq!(rt; executed(numbers, t, 3), None);
    assert_eq!(rt; executed(numbers, t, u32::MAX), None);
    assert_eq!(rt; numbers.accused(t, 2), Some(8));
    assert_eq!(rt; numbers.accused(t, 1), Some(0));
    assert_eq!(rt; opening(numbers, t, 2), Some(1200));
    assert_eq!(rt; opening(numbers, t, 1), Some(0));
    assert!(rt;
        is_silent(numbers, t, 3) && is_silent(numbers, t, 4) && is_silent(numbers, t, u32::MAX)
    );
}

#[test]
fn readings(rt: HostRuntime) -> Result<(), Fail> {
    let board = GateBoard::new(12, true)?;
    let order = GateOrder::new(5, 1200, 366, 1439, 1)?;
    let n = Sizes::of(1, 2, 1);
    let mut bench = Bench::new(rt.alloc(), n, &board)?;
    let mut t = bench.lend();
    let run = opened((1, 2, 0, 8), &mut t, &board)?;
    let numbers = run.numbers();
    fill(numbers, &mut t, &order)?;
    check(&rt, numbers, &t, order.pack());
    let closed = run.close();
    check(&rt, closed.numbers(), &t, order.pack());
    // a count above the eight places is read as eight
    put(t.counts, 2, executed_count(65535));
    assert_eq!(rt; executed(numbers, &t, 7), Some((2, 2)));
    assert_eq!(rt; executed(numbers, &t, 8), None);
    Ok(())
}

// Each of the nine tables one element too short.
#[test]
fn short_tables(rt: HostRuntime) -> Result<(), Fail> {
    let board = GateBoard::new(12, true)?;
    let n = Sizes::of(1, 2, 1);
    let mut whole = Bench::new(rt.alloc(), n, &board)?;
    let mut t = whole.lend();
    let run = opened((1, 2, 0, 8), &mut t, &board)?;
    assert!(rt; !is_silent(run.numbers(), &t, 2));
    for which in 0..9 {
        let mut short = Bench::new(rt.alloc(), n.less(which), &board)?;
        assert!(rt; is_silent(run.numbers(), &short.lend(), 2));
    }
    Ok(())
}
