// Summaries and proposals over words and kept rows that are filled by hand.
use canal::GateOrder;
use gates::GateBoard;
use runs_tests::bench::Sizes;
use runs_tests::calls::{Answer, Step, plays};
use std::test::Fail;

// A count above the watch length is read as the watch length: no number is left.
#[test]
fn counts_above(rt: HostRuntime) -> Result<(), Fail> {
    let board = GateBoard::new(12, true)?;
    let order = GateOrder::new(5, 1200, 366, 1439, 1)?;
    let steps = [
        (Step::Count(0, 65535), Answer::Done),
        (Step::Count(1, 1), Answer::Done),
        (Step::Count(2, 3), Answer::Done),
        (Step::Count(3, 2), Answer::Done),
        (Step::Submit(0), Answer::No(9)),
        (Step::Submit(2), Answer::No(9)),
        (Step::Submit(1), Answer::Sent(2, 0)),
        // two hold: 9 and 27, 7 and 9, 6 and 27
        (Step::Submit(1), Answer::No(9)),
        (Step::Submit(3), Answer::No(7)),
        (Step::Submit(u32::MAX), Answer::No(6)),
        (
            Step::Show(0, b"\x22\x42\x45\x4b\x0b\x75\x9f\x00\x00\x01"),
            Answer::Seen,
        ),
    ];
    let done = plays(
        rt.alloc(),
        Sizes::of(1, 2, 1),
        (1, 2, 0, 8),
        &board,
        (&order, &order),
        &steps,
    )?;
    assert_eq!(rt; done, steps.len());
    Ok(())
}

// A watch of length 3. At station 2, of origin 0 sequences 1 and 2 are certified; of origin 1 sequences 1 and 3, so the
// run stops before the gap; of origin 2 none, since its own word is missing; of origin 3 all three: the row 2 1 0 3.
// At station 3 the row is 1 0 2 0: origin 1 is held by two only, and of the third of origin 2 its own word is another's.
#[test]
fn summaries(rt: HostRuntime) -> Result<(), Fail> {
    let board = GateBoard::new(12, true)?;
    let order = GateOrder::new(5, 1200, 366, 1439, 1)?;
    let other = GateOrder::new(5, 1200, 366, 1439, 2)?;
    let steps = [
        (Step::Hold(2, 0, 1, 0b0111), Answer::Done),
        (Step::Hold(2, 0, 2, 0b1101), Answer::Done),
        (Step::Hold(2, 1, 1, 0b1111), Answer::Done),
        (Step::Hold(2, 1, 3, 0b1111), Answer::Done),
        (Step::Hold(2, 2, 1, 0b1011), Answer::Done),
        (Step::Hold(2, 3, 1, 0b1011), Answer::Done),
        (Step::Hold(2, 3, 2, 0b1110), Answer::Done),
        (Step::Hold(2, 3, 3, 0b1111), Answer::Done),
        (Step::Hold(3, 0, 1, 0b1111), Answer::Done),
        (Step::Hold(3, 1, 1, 0b0011), Answer::Done),
        (Step::Hold(3, 2, 1, 0b1111), Answer::Done),
        (Step::Hold(3, 2, 2, 0b1110), Answer::Done),
        (Step::Hold(3, 2, 3, 0b1111), Answer::Done),
        (Step::HoldSecond(3, 2, 3, 0b0100), Answer::Done),
        (Step::Summarise(2), Answer::At(0)),
        (Step::Summarise(3), Answer::At(1)),
        (Step::Summarise(4), Answer::No(6)),
        (Step::Summarise(0), Answer::No(7)),
        (Step::Summarise(1), Answer::At(2)),
        (Step::Summarise(1), Answer::No(27)),
        // two hold: 6 and 27, 7 and 27
        (Step::Summarise(4), Answer::No(6)),
        (Step::Summarise(0), Answer::No(7)),
        // the entries 000010 000001 000000 000011, and 000001 000000 000010 000000
        (Step::Show(0, b"\x64\x40\x08\x10\x03"), Answer::Seen),
        (Step::Show(1, b"\x66\x40\x04\x00\x80"), Answer::Seen),
        (Step::Show(2, b"\x62\x40\x00\x00\x00"), Answer::Seen),
    ];
    let done = plays(
        rt.alloc(),
        Sizes::of(1, 3, 3),
        (1, 3, 0, 1),
        &board,
        (&order, &other),
        &steps,
    )?;
    assert_eq!(rt; done, steps.len());
    Ok(())
}

// A watch of length 2, in which station 0 leads. It keeps 1 1 1 1 of itself; of station 1 a row of two entries, 63 63,
// which is read as 2 2 0 0; of station 2 one of sixteen entries, 2 each; and of station 3 none.
#[test]
fn proposals(rt: HostRuntime) -> Result<(), Fail> {
    let board = GateBoard::new(12, true)?;
    let order = GateOrder::new(5, 1200, 366, 1439, 1)?;
    let steps = [
        (Step::Propose(0), Answer::Sent(1, 0)),
        (Step::Keep(0, 4, 1), Answer::Done),
        (Step::Keep(1, 2, 63), Answer::Done),
        (Step::Keep(2, 16, 2), Answer::Done),
        (Step::Keep(3, 0, 0), Answer::Done),
        (Step::Propose(4), Answer::No(6)),
        (Step::Propose(1), Answer::No(8)),
        // a faulty station that does not lead
        (Step::Propose(3), Answer::No(7)),
        (Step::Propose(0), Answer::Sent(2, 1)),
        (Step::Propose(0), Answer::No(9)),
        (Step::Submit(2), Answer::Sent(1, 2)),
        // two hold: 8 and 9, 9 and 27
        (Step::Propose(2), Answer::No(8)),
        (Step::Propose(0), Answer::No(9)),
        (
            Step::Show(
                0,
                b"\x80\x41\x00\x00\x00\x00\x00\x00\x00\x00\x00\x00\x00\x00",
            ),
            Answer::Seen,
        ),
        // 000001 four times, 000010 000010 000000 000000, 000010 four times, zeros
        (
            Step::Show(
                1,
                b"\x80\x42\x04\x10\x41\x08\x20\x00\x08\x20\x82\x00\x00\x00",
            ),
            Answer::Seen,
        ),
    ];
    let done = plays(
        rt.alloc(),
        Sizes::of(1, 2, 3),
        (1, 2, 0, 8),
        &board,
        (&order, &order),
        &steps,
    )?;
    assert_eq!(rt; done, steps.len());
    Ok(())
}

// A leader that is faulty proposes nothing, and no other station does.
#[test]
fn faulty_leader(rt: HostRuntime) -> Result<(), Fail> {
    let board = GateBoard::new(12, true)?;
    let order = GateOrder::new(5, 1200, 366, 1439, 1)?;
    let steps = [
        (Step::Propose(3), Answer::No(7)),
        (Step::Propose(0), Answer::No(8)),
        (Step::Speak(3, b"\x66\x40\x04\x00\x80"), Answer::At(0)),
        // no place is left: two hold
        (Step::Propose(3), Answer::No(7)),
        (Step::Propose(0), Answer::No(8)),
    ];
    let done = plays(
        rt.alloc(),
        Sizes::of(1, 2, 1),
        (1, 2, 3, 8),
        &board,
        (&order, &order),
        &steps,
    )?;
    assert_eq!(rt; done, steps.len());
    Ok(())
}
