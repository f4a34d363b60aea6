use crate::bench::{Bench, Sizes, opened};
use crate::calls::{Answer, Step, play};
use canal::GateOrder;
use gates::GateBoard;
use std::test::Fail;

// A run of four stations and a watch of length 2, with a wire of three places: submitted to until the numbers of a
// station, and then the places of the wire, are used up.
#[test]
fn submissions(rt: HostRuntime) -> Result<(), Fail> {
    let board = GateBoard::new(12, true)?;
    let order = GateOrder::new(5, 1200, 366, 1439, 1)?;
    let mut bench = Bench::new(rt.alloc(), Sizes::of(1, 2, 3), &board)?;
    let mut t = bench.lend();
    let mut run = opened((1, 2, 0, 8), &mut t, &board)?;
    let steps = [
        (Step::Submit(2), Answer::Sent(1, 0)),
        (Step::Submit(2), Answer::Sent(2, 1)),
        (Step::Submit(2), Answer::No(9)),
        (Step::Submit(4), Answer::No(6)),
        (Step::Submit(3), Answer::No(7)),
        (Step::Submit(1), Answer::Sent(1, 2)),
        (Step::Submit(1), Answer::No(27)),
        // gate 5, 1,200 mm, day 366, minute 1,439, number 1 as request 1 of station 2
        (
            Step::Show(0, b"\x24\x41\x45\x4b\x0b\x75\x9f\x00\x00\x01"),
            Answer::Seen,
        ),
    ];
    assert_eq!(rt;
        play(&mut run, &mut t, (&order, &order), &steps),
        steps.len()
    );
    let closed = run.close();
    assert_eq!(rt; closed.numbers().accused(&t, 2), Some(0));
    assert_eq!(rt; closed.numbers().accused(&t, 3), None);
    Ok(())
}
