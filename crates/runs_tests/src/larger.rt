use crate::bench::{Bench, Sizes, hold, opened, word_place};
use crate::calls::{Answer, Step, play, plays, show};
use canal::{GateOrder, Transfer};
use gates::GateBoard;
use model::{Machine, Operation, Watch};
use pounds::{Pound, PoundLedger};
use runs::Open;
use std::test::Fail;
use tables::Tables;

// How many submissions of the station are numbered 1, 2 and so on, and take the first places, before one is not.
fn submissions<M: Machine>(run: &mut Open, t: &mut Tables<'_, M>, station: u32, u: &M::Op) -> u8 {
    // Kept: a loop, since a closure would change the run that it captures.
    for k in 0..255 {
        match run.submit(t, station, u) {
            Ok(sent) if sent.sequence == k + 1 && sent.place == k as u16 => {}
            _ => return k,
        }
    }
    255
}

// At station 15, of origins 5, 6 and 15.
fn fill_words<O: Operation + Drop>(watch: Watch, words: &mut [Option<O>], u: &O) {
    for sequence in 1..64 {
        hold(words, word_place(watch, 15, 5, sequence), 0xFFE0, u);
        hold(words, word_place(watch, 15, 6, sequence), 0xFFC0, u);
        if sequence < 63 {
            hold(words, word_place(watch, 15, 15, sequence), 0xFFFF, u);
        }
    }
}

// Proposal 1 of station 15 of sixteen, whose last row is 63 throughout and whose others are zero.
fn proposal_of_63() -> [u8; 194] {
    let mut bytes = [0; 194];
    bytes[0] = 0x9F;
    bytes[1] = 0x41;
    bytes[182..].fill(0xFF);
    bytes
}

// Sixteen stations and a watch of length 63, in which station 15 leads and stations 0 to 4 are faulty. At station 15, of
// origin 5 all 63 sequences are held by eleven stations, which is enough; of origin 6 all by ten; of origin 15 the first
// 62 by all. So its row has 63 at 5 and 62 at 15. Of itself it keeps a row of 63 throughout.
#[test]
fn sixteen_stations(rt: HostRuntime) -> Result<(), Fail> {
    let board = GateBoard::new(40, false)?;
    let order = GateOrder::new(5, 1200, 366, 1439, 1)?;
    let steps = [
        (Step::Keep(255, 16, 63), Answer::Done),
        (Step::Submit(15), Answer::No(9)),
        (Step::Submit(16), Answer::No(6)),
        (Step::Submit(4), Answer::No(7)),
        (Step::Summarise(15), Answer::At(63)),
        (Step::Propose(5), Answer::No(8)),
        (Step::Propose(15), Answer::Sent(1, 64)),
        (
            Step::Show(62, b"\x3f\x7f\x45\x4b\x0b\x75\x9f\x00\x00\x01"),
            Answer::Seen,
        ),
        // the entries 4 to 7 are 000000 111111 000000 000000, the last four 000000 000000 000000 111110
        (
            Step::Show(
                63,
                b"\x7f\x40\x00\x00\x00\x03\xf0\x00\x00\x00\x00\x00\x00\x3e",
            ),
            Answer::Seen,
        ),
        // a summary for four stations, which have no station 4, and one for sixteen
        (Step::Speak(4, b"\x68\x40"), Answer::No(14)),
        (
            Step::Speak(
                4,
                b"\x69\x40\x00\x00\x00\x03\xf0\x00\x00\x00\x00\x00\x00\x3e",
            ),
            Answer::At(65),
        ),
        (Step::Summarise(15), Answer::No(27)),
    ];
    let mut bench = Bench::new(rt.alloc(), Sizes::of(5, 63, 66), &board)?;
    let mut t = bench.lend();
    let mut run = opened((5, 63, 15, 0x1F), &mut t, &board)?;
    assert_eq!(rt; submissions(&mut run, &mut t, 15, &order), 63);
    fill_words(run.numbers().watch, t.words, &order);
    assert_eq!(rt;
        play(&mut run, &mut t, (&order, &order), &steps),
        steps.len()
    );
    assert_eq!(rt; show(&run, &t, 64, 255, &proposal_of_63()), Answer::Seen);
    Ok(())
}

// How many summaries take the first places before one is refused, and with what number.
fn summaries<M: Machine>(run: &mut Open, t: &mut Tables<'_, M>) -> (u32, u8) {
    // Kept: a loop, since a closure would change the run that it captures.
    for place in 0..70000 {
        match run.summarise(t, place % 4) {
            Ok(at) if at as u32 == place => {}
            Ok(_) => return (place, 0),
            Err(e) => return (place, e.reason.number()),
        }
    }
    (70000, 0)
}

// A wire of 65,536 places is used up to the 65,535th.
#[test]
fn longest_wire(rt: HostRuntime) -> Result<(), Fail> {
    let board = GateBoard::new(1, false)?;
    let mut bench = Bench::new(rt.alloc(), Sizes::of(1, 1, 65536), &board)?;
    let mut t = bench.lend();
    let mut run = opened((1, 1, 0, 0), &mut t, &board)?;
    assert!(rt; summaries(&mut run, &mut t) == (65535, 27));
    Ok(())
}

// Transfers: 3 cubic metres from pound 1 to pound 2, number 4, pack to 10 00001 00010, then 20 bits of volume, 8 zero bits
// and 24 bits of number. A gate order is no transfer.
#[test]
fn transfers(rt: HostRuntime) -> Result<(), Fail> {
    let pound = Pound::new(10, 20)?;
    let ledger = PoundLedger::new(&[pound; 3])?;
    let transfer = Transfer::new(1, 2, 3, 4)?;
    let steps = [
        (Step::Submit(2), Answer::Sent(1, 0)),
        (Step::Submit(2), Answer::No(9)),
        (
            Step::Show(0, b"\x24\x41\x82\x20\x00\x03\x00\x00\x00\x04"),
            Answer::Seen,
        ),
        (
            Step::Speak(3, b"\x26\x41\x45\x4b\x0b\x75\x9f\x00\x00\x01"),
            Answer::No(19),
        ),
        // a volume of 0
        (
            Step::Speak(3, b"\x26\x41\x82\x20\x00\x00\x00\x00\x00\x04"),
            Answer::No(20),
        ),
        (
            Step::Speak(3, b"\x26\x41\x82\x20\x00\x03\x00\x00\x00\x05"),
            Answer::At(1),
        ),
        (Step::Submit(0), Answer::No(27)),
    ];
    let done = plays(
        rt.alloc(),
        Sizes::of(1, 1, 2),
        (1, 1, 0, 8),
        &ledger,
        (&transfer, &transfer),
        &steps,
    )?;
    assert_eq!(rt; done, steps.len());
    Ok(())
}
