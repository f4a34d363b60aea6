use canal::{GateOrder, Transfer};
use model::{Fault, Operation, Reason, Word};
use std::test::Fail;

// A refusal's number and place.
fn refusal<T: Drop>(r: Result<T, Fault>) -> Option<(u8, u16)> {
    r.err().map(|e| (e.reason.number(), e.place))
}

// The edges of each field's range, from both sides.
#[test]
fn gate_order_ranges(rt: HostRuntime) {
    for (gate, opening, day, minute, number, wanted) in [
        (0, 0, 1, 0, 0, None),
        (39, 4000, 366, 1439, 16777215, None),
        (40, 0, 1, 0, 0, Some((20, 2))),
        (64, 0, 1, 0, 0, Some((20, 2))),
        (0, 4001, 1, 0, 0, Some((20, 8))),
        (0, 4096, 1, 0, 0, Some((20, 8))),
        (0, 0, 0, 0, 0, Some((20, 20))),
        (0, 0, 367, 0, 0, Some((20, 20))),
        (0, 0, 513, 0, 0, Some((20, 20))),
        (0, 0, 1, 1440, 0, Some((20, 29))),
        (0, 0, 1, 2048, 0, Some((20, 29))),
        (0, 0, 1, 0, 16777216, Some((20, 40))),
        (40, 4001, 0, 1440, 16777216, Some((20, 2))),
        (39, 4001, 0, 1440, 16777216, Some((20, 8))),
        (39, 4000, 0, 1440, 16777216, Some((20, 20))),
        (39, 4000, 366, 1440, 16777216, Some((20, 29))),
    ] {
        assert_eq!(rt;
            refusal(GateOrder::new(gate, opening, day, minute, number)),
            wanted
        );
    }
}

#[test]
fn transfer_ranges(rt: HostRuntime) {
    for (source, target, volume, number, wanted) in [
        (0, 31, 1, 0, None),
        (31, 0, 1000000, 16777215, None),
        (32, 0, 1, 0, Some((20, 2))),
        (0, 32, 1, 0, Some((20, 7))),
        (0, 0, 0, 0, Some((20, 12))),
        (0, 0, 1000001, 0, Some((20, 12))),
        (0, 0, 1048577, 0, Some((20, 12))),
        (0, 0, 1, 16777216, Some((20, 40))),
        (32, 32, 0, 16777216, Some((20, 2))),
        (31, 32, 0, 16777216, Some((20, 7))),
        (31, 31, 0, 16777216, Some((20, 12))),
    ] {
        assert_eq!(rt;
            refusal(Transfer::new(source, target, volume, number)),
            wanted
        );
    }
}

// The bits of a gate order: a tag, then a range, that does not hold; the tag comes first.
#[test]
fn gate_order_bits(rt: HostRuntime) {
    for (bits, wanted) in [
        (0x454B_0B75_9F00_0001, None),
        (0x054B_0B75_9F00_0001, Some((19, 0))),
        (0x854B_0B75_9F00_0001, Some((19, 0))),
        (0xC54B_0B75_9F00_0001, Some((19, 0))),
        (0x0000_0000_0000_0000, Some((19, 0))),
        (0xFFFF_FFFF_FFFF_FFFF, Some((19, 0))),
        (0x684B_0B75_9F00_0001, Some((20, 2))),
        (0x45FA_1B75_9F00_0001, Some((20, 8))),
        (0x454B_0005_9F00_0001, Some((20, 20))),
        (0x454B_0B7D_9F00_0001, Some((20, 20))),
        (0x454B_0B75_A000_0001, Some((20, 29))),
    ] {
        assert_eq!(rt; refusal(<GateOrder as Operation>::unpack(bits)), wanted);
    }
}

// The transfer of 1,000,000 cubic metres from pound 1 to pound 2, number 7, and bits that are none.
#[test]
fn transfer_bits(rt: HostRuntime) {
    for (bits, wanted) in [
        (0x822F_4240_0000_0007, None),
        (0x422F_4240_0000_0007, Some((19, 0))),
        (0x022F_4240_0000_0007, Some((19, 0))),
        (0x822F_4241_0000_0007, Some((20, 12))),
        (0x8220_0000_0000_0007, Some((20, 12))),
        (0x822F_4240_8000_0007, Some((20, 32))),
        (0x822F_4240_0100_0007, Some((20, 32))),
        (0x8220_0000_0100_0007, Some((20, 12))),
    ] {
        assert_eq!(rt; refusal(<Transfer as Operation>::unpack(bits)), wanted);
    }
}

#[test]
fn packed_forms(rt: HostRuntime) -> Result<(), Fail> {
    let order = GateOrder::new(5, 1200, 366, 1439, 1)?;
    assert_eq!(rt; order.pack(), 0x454B_0B75_9F00_0001);
    let transfer = Transfer::new(1, 2, 1000000, 7)?;
    assert_eq!(rt; transfer.pack(), 0x822F_4240_0000_0007);
    Ok(())
}

// Orders that differ in one field are not the same.
#[test]
fn sameness(rt: HostRuntime) -> Result<(), Fail> {
    let order = GateOrder::new(5, 1200, 366, 1439, 1)?;
    for (gate, opening, day, minute, number, wanted) in [
        (5, 1200, 366, 1439, 1, true),
        (4, 1200, 366, 1439, 1, false),
        (5, 1201, 366, 1439, 1, false),
        (5, 1200, 365, 1439, 1, false),
        (5, 1200, 366, 1438, 1, false),
        (5, 1200, 366, 1439, 2, false),
    ] {
        let other = GateOrder::new(gate, opening, day, minute, number)?;
        assert_eq!(rt; <GateOrder as model::Word>::same(&order, &other), wanted);
    }
    Ok(())
}

#[test]
fn transfer_sameness(rt: HostRuntime) -> Result<(), Fail> {
    let transfer = Transfer::new(1, 2, 1000, 7)?;
    for (source, target, volume, number, wanted) in [
        (1, 2, 1000, 7, true),
        (0, 2, 1000, 7, false),
        (1, 3, 1000, 7, false),
        (1, 2, 1001, 7, false),
        (1, 2, 1000, 8, false),
    ] {
        let other = Transfer::new(source, target, volume, number)?;
        assert_eq!(rt; <Transfer as model::Word>::same(&transfer, &other), wanted);
    }
    Ok(())
}

// The layers of reasons at the ends of each range of numbers.
#[test]
fn layers(rt: HostRuntime) {
    for (reason, number, layer) in [
        (Reason::FaultBound, 1, 3),
        (Reason::NoFrame, 10, 3),
        (Reason::ShortFrame, 11, 2),
        (Reason::FrameFilling, 18, 2),
        (Reason::OtherTag, 19, 1),
        (Reason::OutOfRange, 20, 1),
        (Reason::SpokenName, 21, 3),
        (Reason::ShortBuffer, 28, 3),
    ] {
        assert_eq!(rt; reason.number(), number);
        assert_eq!(rt; reason.layer() as u8, layer);
    }
}
