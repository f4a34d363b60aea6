use crate::bench::{Sizes, fits};
use canal::GateOrder;
use gates::GateBoard;
use std::test::Fail;

// Tables for f = 1, a watch of length 2 and one place on the wire; f, the watch length, the leader, the faulty set.
#[test]
fn numbers_of_a_run(rt: HostRuntime) -> Result<(), Fail> {
    let board = GateBoard::new(12, true)?;
    let cases = [
        ((1, 2, 0, 0), 0),
        ((1, 1, 3, 8), 0),
        ((0, 2, 0, 0), 1),
        ((6, 2, 0, 0), 1),
        ((257, 2, 0, 0), 1),
        ((u32::MAX, 2, 0, 0), 1),
        ((1, 0, 0, 0), 2),
        ((1, 64, 0, 0), 2),
        ((1, 258, 0, 0), 2),
        ((1, 2, 4, 0), 3),
        ((1, 2, 256, 0), 3),
        ((1, 2, 0, 16), 4),
        ((1, 2, 0, 3), 4),
        ((1, 2, 0, 65536), 4),
        ((1, 3, 0, 0), 5),
        ((2, 2, 0, 0), 5),
        // two or more hold, and the lowest is answered
        ((0, 0, 99, 99), 1),
        ((1, 64, 4, 16), 2),
        ((2, 2, 7, 128), 3),
        ((2, 2, 6, 128), 4),
    ];
    assert_eq!(rt;
        fits(rt.alloc(), Sizes::of(1, 2, 1), &board, &cases)?,
        cases.len()
    );
    Ok(())
}

// The largest run: sixteen stations, of which five are faulty.
#[test]
fn largest_numbers(rt: HostRuntime) -> Result<(), Fail> {
    let board = GateBoard::new(40, false)?;
    let cases = [
        ((5, 63, 15, 0xF800), 0),
        ((6, 63, 15, 0), 1),
        ((5, 64, 15, 0), 2),
        ((5, 63, 16, 0), 3),
        ((5, 63, 15, 0xF801), 4),
        ((5, 63, 0, 0x1_0000), 4),
    ];
    assert_eq!(rt;
        fits(rt.alloc(), Sizes::of(5, 63, 1), &board, &cases)?,
        cases.len()
    );
    Ok(())
}

// One element too few, in each of the nine tables.
#[test]
fn short_tables(rt: HostRuntime) -> Result<(), Fail> {
    let board = GateBoard::new(12, true)?;
    for which in 0..9 {
        let n = Sizes::of(1, 2, 1).less(which);
        assert_eq!(rt; fits(rt.alloc(), n, &board, &[((1, 2, 0, 0), 5)])?, 1);
    }
    Ok(())
}
