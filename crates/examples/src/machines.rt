use calendar::Date;
use canal::{GateOrder, Transfer};
use gates::GateBoard;
use model::Machine;
use pounds::{MOST_POUNDS, Pound, PoundLedger};
use std::test::Fail;

// Orders, one after the other, for a board of twelve gates, with the codes of a leap year and of a common year.
// The last column is what the gate then stands at in the leap year.
#[test]
fn board_codes(rt: HostRuntime) -> Result<(), Fail> {
    let mut leap = GateBoard::new(12, true)?;
    let mut common = GateBoard::new(12, false)?;
    for (gate, opening, day, minute, in_leap, in_common, stands) in [
        (5, 1200, 366, 1438, 0, 2, 1200),
        (5, 1300, 366, 1438, 0, 2, 1300),
        (5, 1400, 366, 1437, 3, 2, 1300),
        (5, 1500, 365, 1439, 3, 0, 1300),
        (5, 1600, 366, 1439, 0, 2, 1600),
        (11, 4000, 1, 0, 0, 0, 4000),
        (12, 100, 366, 0, 1, 1, 0),
        (39, 100, 1, 0, 1, 1, 0),
        (11, 10, 1, 0, 0, 0, 10),
        (0, 7, 1, 0, 0, 0, 7),
    ] {
        let order = GateOrder::new(gate, opening, day, minute, 1)?;
        assert_eq!(rt; <GateBoard as Machine>::apply(&mut leap, &order), in_leap);
        assert_eq!(rt;
            <GateBoard as Machine>::apply(&mut common, &order),
            in_common
        );
        let stood = leap.gate(order.gate).map_or(0, |gate| gate.opening);
        assert_eq!(rt; stood, stands);
    }
    Ok(())
}

#[test]
fn board_sizes(rt: HostRuntime) {
    for (gates, made) in [
        (0, false),
        (1, true),
        (40, true),
        (41, false),
        (65536, false),
    ] {
        match GateBoard::new(gates, true) {
            Ok(_) => assert!(rt; made),
            Err(e) => {
                assert!(rt; !made);
                assert_eq!(rt; e.reason.number(), 20);
                assert_eq!(rt; e.place, 0);
            }
        }
    }
}

// Transfers between three pounds of 1,000, 500 and 0 cubic metres, each of which can hold 1,200.
#[test]
fn ledger_codes(rt: HostRuntime) -> Result<(), Fail> {
    let pounds = [
        Pound::new(1000, 1200)?,
        Pound::new(500, 1200)?,
        Pound::new(0, 1200)?,
    ];
    let mut ledger = PoundLedger::new(&pounds)?;
    for (source, target, volume, code, first, second, third) in [
        (0, 1, 700, 0, 300, 1200, 0),
        (0, 1, 1, 4, 300, 1200, 0),
        (0, 1, 301, 3, 300, 1200, 0),
        (1, 1, 2000, 2, 300, 1200, 0),
        (3, 3, 1, 1, 300, 1200, 0),
        (3, 1, 1, 1, 300, 1200, 0),
        (0, 3, 1, 1, 300, 1200, 0),
        (1, 2, 1200, 0, 300, 0, 1200),
        (1, 2, 1, 3, 300, 0, 1200),
        (0, 2, 300, 4, 300, 0, 1200),
        (0, 1, 300, 0, 0, 300, 1200),
    ] {
        let transfer = Transfer::new(source, target, volume, 1)?;
        assert_eq!(rt;
            <PoundLedger as Machine>::apply(&mut ledger, &transfer),
            code
        );
        assert_eq!(rt; volume_of(&ledger, 0), first);
        assert_eq!(rt; volume_of(&ledger, 1), second);
        assert_eq!(rt; volume_of(&ledger, 2), third);
    }
    Ok(())
}

fn volume_of(ledger: &PoundLedger, pound: u8) -> u32 {
    ledger.pound(pound).map_or(0, |pound| pound.volume)
}

#[test]
fn pound_sizes(rt: HostRuntime) {
    for (volume, capacity, made) in [
        (0, 0, true),
        (1000000, 1000000, true),
        (1, 0, false),
        (1000000, 1000001, false),
        (1000001, 1000001, false),
        (7, 6, false),
    ] {
        assert_eq!(rt; Pound::new(volume, capacity).is_ok(), made);
    }
}

#[test]
fn ledger_sizes(rt: HostRuntime) -> Result<(), Fail> {
    let pound = Pound::new(1, 2)?;
    let pounds = [pound; 33];
    assert!(rt; PoundLedger::new(&pounds[0..0]).is_err());
    assert!(rt; PoundLedger::new(&pounds[0..1]).is_ok());
    assert!(rt; PoundLedger::new(&pounds[0..MOST_POUNDS]).is_ok());
    assert!(rt; PoundLedger::new(&pounds[0..33]).is_err());
    Ok(())
}

// Days about the end of February and of the year, in a leap year and in a common year; 0 0 where there is none.
#[test]
fn dates(rt: HostRuntime) {
    for (day, month, date, common_month, common_date) in [
        (0, 0, 0, 0, 0),
        (1, 1, 1, 1, 1),
        (31, 1, 31, 1, 31),
        (32, 2, 1, 2, 1),
        (59, 2, 28, 2, 28),
        (60, 2, 29, 3, 1),
        (61, 3, 1, 3, 2),
        (365, 12, 30, 12, 31),
        (366, 12, 31, 0, 0),
        (367, 0, 0, 0, 0),
        (4294967295, 0, 0, 0, 0),
    ] {
        assert_eq!(rt; pair(Date::of(true, day)), (month, date));
        assert_eq!(rt; pair(Date::of(false, day)), (common_month, common_date));
    }
}

fn pair(date: Option<Date>) -> (u8, u8) {
    date.map_or((0, 0), |date| (date.month, date.day))
}
