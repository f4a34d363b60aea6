// Showing frames of a wire whose places are filled by hand: four stations and a watch of length 2.
use canal::GateOrder;
use gates::GateBoard;
use runs_tests::bench::Sizes;
use runs_tests::calls::{Answer, Step, plays};
use std::test::Fail;

// Places from the wire's end on are not shown, whatever they hold. A request has ten bytes.
#[test]
fn places_and_buffers(rt: HostRuntime) -> Result<(), Fail> {
    let board = GateBoard::new(12, true)?;
    let order = GateOrder::new(5, 1200, 366, 1439, 1)?;
    let request = b"\x24\x41\x45\x4b\x0b\x75\x9f\x00\x00\x01";
    let steps = [
        (Step::Lay(1, b"\x66\x40\x04\x00\x80"), Answer::Done),
        (Step::Show(0, b""), Answer::No(10)),
        (Step::Submit(2), Answer::Sent(1, 0)),
        (Step::Show(0, request), Answer::Seen),
        (Step::Show(1, b""), Answer::No(10)),
        (Step::Show(65536, b""), Answer::No(10)),
        (Step::ShowIn(0, 10, request), Answer::Seen),
        (Step::ShowIn(0, 9, b""), Answer::No(28)),
        (Step::ShowIn(0, 0, b""), Answer::No(28)),
        // two hold: 10 and 28, 12 and 28
        (Step::ShowIn(1, 0, b""), Answer::No(10)),
        (Step::Lay(0, b"\x06\x41"), Answer::Done),
        (Step::ShowIn(0, 0, b""), Answer::No(12)),
    ];
    let done = plays(
        rt.alloc(),
        Sizes::of(1, 2, 2),
        (1, 2, 0, 8),
        &board,
        (&order, &order),
        &steps,
    )?;
    assert_eq!(rt; done, steps.len());
    Ok(())
}

// Bytes that do not read are refused as reading refuses them; frames that read, but have another f or exceed the watch
// length, are none of this run's.
#[test]
fn places_filled_by_hand(rt: HostRuntime) -> Result<(), Fail> {
    let board = GateBoard::new(12, true)?;
    let order = GateOrder::new(5, 1200, 366, 1439, 1)?;
    let steps = [
        (Step::Submit(2), Answer::Sent(1, 0)),
        (Step::Lay(0, b"\x66\x40\x04\x00\x80"), Answer::Done),
        (Step::Show(0, b"\x66\x40\x04\x00\x80"), Answer::Seen),
        // f = 2, sequence 3, an entry of 3
        (
            Step::Lay(0, b"\x66\x80\x04\x20\xc4\x14\x61\xc0"),
            Answer::Done,
        ),
        (Step::Show(0, b""), Answer::No(10)),
        (
            Step::Lay(0, b"\x26\x43\x45\x4b\x0b\x75\x9f\x00\x00\x01"),
            Answer::Done,
        ),
        (Step::Show(0, b""), Answer::No(10)),
        (Step::Lay(0, b"\x66\x40\x0c\x00\x00"), Answer::Done),
        (Step::Show(0, b""), Answer::No(10)),
        // nothing; kind 0; f = 6; sender 4 of four; a request of sequence 0; one with no operation
        (Step::Lay(0, b""), Answer::Done),
        (Step::Show(0, b""), Answer::No(11)),
        (Step::Lay(0, b"\x06\x41"), Answer::Done),
        (Step::Show(0, b""), Answer::No(12)),
        (Step::Lay(0, b"\x27\x81"), Answer::Done),
        (Step::Show(0, b""), Answer::No(13)),
        (Step::Lay(0, b"\x28\x41"), Answer::Done),
        (Step::Show(0, b""), Answer::No(14)),
        (Step::Lay(0, b"\x26\x40"), Answer::Done),
        (Step::Show(0, b""), Answer::No(15)),
        (Step::Lay(0, b"\x26\x41"), Answer::Done),
        (Step::Show(0, b""), Answer::No(16)),
        // acks of origin 4, and with a zero bit set; a transfer; gate 40
        (
            Step::Lay(0, b"\x46\x41\x40\x45\x4b\x0b\x75\x9f\x00\x00\x01"),
            Answer::Done,
        ),
        (Step::Show(0, b""), Answer::No(17)),
        (
            Step::Lay(0, b"\x46\x41\x21\x45\x4b\x0b\x75\x9f\x00\x00\x01"),
            Answer::Done,
        ),
        (Step::Show(0, b""), Answer::No(18)),
        (
            Step::Lay(0, b"\x26\x41\x82\x20\x00\x03\x00\x00\x00\x04"),
            Answer::Done,
        ),
        (Step::Show(0, b""), Answer::No(19)),
        (
            Step::Lay(0, b"\x26\x41\x68\x00\x00\x08\x00\x00\x00\x00"),
            Answer::Done,
        ),
        (Step::Show(0, b""), Answer::No(20)),
    ];
    let done = plays(
        rt.alloc(),
        Sizes::of(1, 2, 2),
        (1, 2, 0, 8),
        &board,
        (&order, &order),
        &steps,
    )?;
    assert_eq!(rt; done, steps.len());
    Ok(())
}
