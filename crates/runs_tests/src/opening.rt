use crate::bench::{Bench, Sizes, fitted, hold, opened};
use crate::calls::{Answer, Step, play};
use crate::marks::mark;
use canal::GateOrder;
use gates::GateBoard;
use model::Machine;
use runs::{Fitted, Open};
use std::alloc::{AllocError, Global};
use std::process::Abort;
use std::test::Fail;

// The fitted run, as it is handed back because a table of these lengths is too short.
fn handed_back<M: Machine + Drop>(
    rt: &impl Abort,
    heap: Global,
    fitted: Fitted,
    n: Sizes,
    start: &M,
) -> Result<Fitted, Fail> {
    let mut bench = Bench::new(heap, n, start)?;
    let mut t = bench.lend();
    let before = mark(&t);
    match fitted.open(&mut t, start) {
        Ok(_) => Err(Fail::new("opened")),
        Err(declined) => {
            assert_eq!(rt; declined.fault.reason.number(), 5);
            assert!(rt; mark(&t) == before);
            Ok(declined.fitted)
        }
    }
}

// A run that is declined for each of the nine tables in turn can be opened still.
#[test]
fn declined(rt: HostRuntime) -> Result<(), Fail> {
    let board = GateBoard::new(12, true)?;
    let n = Sizes::of(1, 2, 3);
    let mut whole = Bench::new(rt.alloc(), n, &board)?;
    let mut t = whole.lend();
    let mut run = fitted((1, 2, 0, 0), &t)?;
    for which in 0..9 {
        run = handed_back(&rt, rt.alloc(), run, n.less(which), &board)?;
    }
    let open = run
        .open(&mut t, &board)
        .map_err(|_| Fail::new("not opened"))?;
    assert_eq!(rt; open.numbers().accused(&t, 0), Some(0));
    Ok(())
}

// How many of these steps go as is wanted on other tables, of these lengths.
fn on_others<M: Machine + Drop>(
    heap: Global,
    run: &mut Open,
    n: Sizes,
    start: &M,
    u: &M::Op,
    steps: &[(Step<'_>, Answer)],
) -> Result<usize, AllocError> {
    let mut bench = Bench::new(heap, n, start)?;
    let mut t = bench.lend();
    Ok(play(run, &mut t, (u, u), steps))
}

// Every call on an open run asks for tables that are long enough before it asks for anything else.
#[test]
fn shortened(rt: HostRuntime) -> Result<(), Fail> {
    let board = GateBoard::new(12, true)?;
    let order = GateOrder::new(5, 1200, 366, 1439, 1)?;
    let n = Sizes::of(1, 2, 3);
    let mut whole = Bench::new(rt.alloc(), n, &board)?;
    let mut run = opened((1, 2, 0, 8), &mut whole.lend(), &board)?;
    let steps = [
        (Step::Submit(4), Answer::No(5)),
        (Step::Summarise(3), Answer::No(5)),
        (Step::Propose(1), Answer::No(5)),
        (Step::Speak(0, b""), Answer::No(5)),
        (Step::Show(9, b""), Answer::No(5)),
    ];
    for which in 0..9 {
        let done = on_others(rt.alloc(), &mut run, n.less(which), &board, &order, &steps)?;
        assert_eq!(rt; done, steps.len());
    }
    Ok(())
}

// How many of these steps go as is wanted on a run that was fitted with this many places on the wire, and whose tables are lengthened
// then, the words with this one or with an empty place. What lies behind them is not touched.
fn over_longer(
    heap: Global,
    wire: u32,
    word: Option<GateOrder>,
    steps: &[(Step<'_>, Answer)],
) -> Result<Option<usize>, Fail> {
    let board = GateBoard::new(12, true)?;
    let order = GateOrder::new(5, 1200, 366, 1439, 1)?;
    let n = Sizes::of(1, 2, wire);
    let mut bench = Bench::new(heap, n, &board)?;
    let fitted = fitted((1, 2, 0, 8), &bench.lend())?;
    bench.lengthen(&GateBoard::new(40, true)?, order, word)?;
    let before = bench.behind(n);
    let mut t = bench.lend();
    // words that summaries would show, were they not cleared
    for k in 0..8 {
        hold(t.words, 16 * k, 0xFFFF, &order);
    }
    let mut run = fitted
        .open(&mut t, &board)
        .map_err(|_| Fail::new("not opened"))?;
    let done = play(&mut run, &mut t, (&order, &order), steps);
    let kept = bench.behind(n) == before
        && bench
            .machines
            .pop()
            .is_some_and(|last| last.gate(39).is_some());
    Ok(kept.then_some(done))
}

// The wire has as many places as it was fitted with: here one.
#[test]
fn surplus(rt: HostRuntime) -> Result<(), Fail> {
    let steps = [
        (Step::Summarise(2), Answer::At(0)),
        (Step::Show(0, b"\x64\x40\x00\x00\x00"), Answer::Seen),
        (Step::Summarise(2), Answer::No(27)),
        (Step::Submit(2), Answer::No(27)),
        (Step::Propose(0), Answer::No(27)),
        (Step::Speak(3, b"\x66\x40\x00\x00\x00"), Answer::No(27)),
        (Step::Show(1, b""), Answer::No(10)),
    ];
    assert_eq!(rt;
        over_longer(rt.alloc(), 1, None, &steps)?,
        Some(steps.len())
    );
    Ok(())
}

// Here four, and each call that sends is accepted once before the wire is full.
#[test]
fn surplus_after_all_calls(rt: HostRuntime) -> Result<(), Fail> {
    let order = GateOrder::new(5, 1200, 366, 1439, 1)?;
    let steps = [
        (Step::Summarise(2), Answer::At(0)),
        (Step::Show(0, b"\x64\x40\x00\x00\x00"), Answer::Seen),
        (Step::Submit(2), Answer::Sent(1, 1)),
        (Step::Propose(0), Answer::Sent(1, 2)),
        (Step::Speak(3, b"\x66\x40\x00\x00\x00"), Answer::At(3)),
        (Step::Summarise(2), Answer::No(27)),
        (Step::Submit(2), Answer::No(27)),
        (Step::Propose(0), Answer::No(27)),
        (Step::Speak(3, b"\x66\x40\x00\x00\x00"), Answer::No(27)),
        (Step::Show(4, b""), Answer::No(10)),
    ];
    assert_eq!(rt;
        over_longer(rt.alloc(), 4, Some(order), &steps)?,
        Some(steps.len())
    );
    Ok(())
}
