// What a faulty station says: station 3 of four, in a watch of length 2.
use canal::GateOrder;
use gates::GateBoard;
use runs_tests::bench::Sizes;
use runs_tests::calls::{Answer, Step, plays};
use std::test::Fail;

// Bytes that do not read. Where two refusals hold, the lower one is answered.
#[test]
fn unreadable(rt: HostRuntime) -> Result<(), Fail> {
    let board = GateBoard::new(12, true)?;
    let order = GateOrder::new(5, 1200, 366, 1439, 1)?;
    let steps = [
        // no such station, or a correct one, and no bytes
        (Step::Speak(4, b""), Answer::No(6)),
        (Step::Speak(2, b""), Answer::No(7)),
        (Step::Speak(3, b""), Answer::No(11)),
        (Step::Speak(3, b"\x26"), Answer::No(11)),
        // kind 0, kind 7, kind 0 with f = 0
        (Step::Speak(3, b"\x06\x41"), Answer::No(12)),
        (Step::Speak(3, b"\xe6\x41"), Answer::No(12)),
        (Step::Speak(3, b"\x06\x01"), Answer::No(12)),
        // f = 0, f = 6, f = 0 with sender 4
        (Step::Speak(3, b"\x26\x01"), Answer::No(13)),
        (Step::Speak(3, b"\x27\x81"), Answer::No(13)),
        (Step::Speak(3, b"\x28\x01"), Answer::No(13)),
        // sender 4, also with sequence 0
        (Step::Speak(3, b"\x28\x41"), Answer::No(14)),
        (Step::Speak(3, b"\x28\x40"), Answer::No(14)),
        // a request of sequence 0 that is too short, a summary of sequence 1
        (Step::Speak(3, b"\x26\x40"), Answer::No(15)),
        (Step::Speak(3, b"\x66\x41\x04\x00\x80"), Answer::No(15)),
        // a request with no operation, a summary with a byte too many
        (Step::Speak(3, b"\x26\x41"), Answer::No(16)),
        (Step::Speak(3, b"\x66\x40\x04\x00\x80\x00"), Answer::No(16)),
        // an ack of origin 4, with a zero bit set
        (
            Step::Speak(3, b"\x46\x41\x41\x45\x4b\x0b\x75\x9f\x00\x00\x01"),
            Answer::No(17),
        ),
        // an ack with a zero bit set, and a transfer in it
        (
            Step::Speak(3, b"\x46\x41\x21\x82\x20\x00\x03\x00\x00\x00\x04"),
            Answer::No(18),
        ),
        // a filling bit of a row of seven
        (
            Step::Speak(3, b"\x66\x80\x04\x20\xc4\x14\x61\xc1"),
            Answer::No(18),
        ),
        // a transfer, and a gate order for gate 40
        (
            Step::Speak(3, b"\x26\x41\x82\x20\x00\x03\x00\x00\x00\x04"),
            Answer::No(19),
        ),
        (
            Step::Speak(3, b"\x26\x41\x68\x00\x00\x08\x00\x00\x00\x00"),
            Answer::No(20),
        ),
    ];
    let done = plays(
        rt.alloc(),
        Sizes::of(1, 2, 1),
        (1, 2, 0, 8),
        &board,
        (&order, &order),
        &steps,
    )?;
    assert_eq!(rt; done, steps.len());
    Ok(())
}

// Frames that read. Station 0 has one certified operation of its own, so its summary has the row 1 0 0 0.
#[test]
fn readable(rt: HostRuntime) -> Result<(), Fail> {
    let board = GateBoard::new(12, true)?;
    let order = GateOrder::new(5, 1200, 366, 1439, 1)?;
    let row_of_0 = b"\x86\x41\x04\x00\x00\x00\x00\x00\x00\x00\x00\x00\x00\x00";
    let row_of_1 = b"\x86\x41\x00\x00\x00\x04\x00\x00\x00\x00\x00\x00\x00\x00";
    let steps = [
        // in the name of station 2, for seven stations, and in the name of station 2 with sequence 3
        (
            Step::Speak(3, b"\x24\x41\x45\x4b\x0b\x75\x9f\x00\x00\x01"),
            Answer::No(21),
        ),
        (
            Step::Speak(3, b"\x26\x81\x45\x4b\x0b\x75\x9f\x00\x00\x01"),
            Answer::No(21),
        ),
        (
            Step::Speak(3, b"\x24\x43\x45\x4b\x0b\x75\x9f\x00\x00\x01"),
            Answer::No(21),
        ),
        // a request of sequence 3, a summary with an entry of 3, and proposal 3 with a row of station 0
        (
            Step::Speak(3, b"\x26\x43\x45\x4b\x0b\x75\x9f\x00\x00\x01"),
            Answer::No(22),
        ),
        (Step::Speak(3, b"\x66\x40\x0c\x00\x00"), Answer::No(22)),
        (
            Step::Speak(
                3,
                b"\x86\x43\x04\x00\x00\x00\x00\x00\x00\x00\x00\x00\x00\x00",
            ),
            Answer::No(22),
        ),
        // a commit with an entry of 3
        (
            Step::Speak(
                3,
                b"\xc6\x41\x0c\x00\x00\x00\x00\x00\x00\x00\x00\x00\x00\x00",
            ),
            Answer::No(22),
        ),
        // a row of station 0 before its summary, and after it
        (Step::Hold(0, 0, 1, 0b0111), Answer::Done),
        (Step::Speak(3, row_of_0), Answer::No(23)),
        (Step::Summarise(0), Answer::At(0)),
        (Step::Show(0, b"\x60\x40\x04\x00\x00"), Answer::Seen),
        (Step::Speak(3, row_of_0), Answer::At(1)),
        // the same row as station 1's, and another row of station 0
        (Step::Speak(3, row_of_1), Answer::No(23)),
        (
            Step::Speak(
                3,
                b"\x86\x41\x08\x00\x00\x00\x00\x00\x00\x00\x00\x00\x00\x00",
            ),
            Answer::No(23),
        ),
        // any row of its own, and any rows in a prepare
        (
            Step::Speak(
                3,
                b"\x86\x41\x00\x00\x00\x00\x00\x00\x00\x00\x00\x08\x20\x82",
            ),
            Answer::At(2),
        ),
        (
            Step::Speak(
                3,
                b"\xa6\x42\x08\x20\x82\x00\x00\x00\x00\x00\x00\x00\x00\x00",
            ),
            Answer::At(3),
        ),
        (
            Step::Speak(3, b"\x46\x42\x20\x45\x4b\x0b\x75\x9f\x00\x00\x01"),
            Answer::At(4),
        ),
        // the wire is full, also for a row that was not sent
        (Step::Speak(3, b"\x66\x40\x04\x00\x80"), Answer::No(27)),
        (Step::Speak(3, row_of_1), Answer::No(23)),
        (Step::Show(1, row_of_0), Answer::Seen),
    ];
    let done = plays(
        rt.alloc(),
        Sizes::of(1, 2, 5),
        (1, 2, 0, 8),
        &board,
        (&order, &order),
        &steps,
    )?;
    assert_eq!(rt; done, steps.len());
    Ok(())
}
