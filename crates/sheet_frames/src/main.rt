// Reads gate orders from standard input, one a line with the station that submits it, submits them to a run of four
// stations, and prints what each is answered with, and then the frames on the wire.
#![tactic(auto)]

mod entering;
mod hex;
mod line;

use canal::GateOrder;
use entering::enter;
use gates::GateBoard;
use hex::Hex;
use lines::Lines;
use model::Fault;
use rows::{Matrix, Row};
use runs::{Fitted, Open, Sent};
use std::alloc::{AllocError, Global};
use std::io::Read;
use std::{fmt, io};
use tables::{Counts, Entry, Setup, Slot, Tables};

// A refusal, as it is printed.
#[derive(Clone, Copy)]
struct Refusal(Fault);

impl fmt::Display for Refusal {
    fn fmt<W: fmt::Write>(&self, f: &mut fmt::Formatter<W>) -> fmt::Result {
        write!(f, "no {}", self.0.reason.number())
    }
}

// Prints the answer to one line.
fn print_answer(
    rt: &HostRuntime,
    run: &mut Open,
    t: &mut Tables<'_, GateBoard>,
    text: &[u8],
) -> io::Result<()> {
    match enter(run, t, text) {
        Some(Ok(Sent { sequence, place })) => println!(rt; "{sequence} {place}"),
        Some(Err(fault)) => println!(rt; "{}", Refusal(fault)),
        None => println!(rt; "bad"),
    }
}

fn print_answers(
    rt: &HostRuntime,
    run: &mut Open,
    t: &mut Tables<'_, GateBoard>,
    text: &[u8],
) -> io::Result<()> {
    for line in Lines::of(text) {
        print_answer(rt, run, t, line)?;
    }
    Ok(())
}

// Prints the frames from place 0 to the wire's end.
fn print_frames(rt: &HostRuntime, run: &Open, t: &Tables<'_, GateBoard>) -> io::Result<()> {
    // Kept: a call takes the number of a place, and there is nothing else to go over.
    for place in 0..PLACES as u32 {
        let mut to = [0; 194];
        let Ok(len) = run.show(t, place, &mut to) else {
            break;
        };
        let frame = Hex::front(&to, len);
        println!(rt; "{frame}")?;
    }
    Ok(())
}

// Fits and opens the run, and serves the sheet.
fn serve(
    rt: &HostRuntime,
    t: &mut Tables<'_, GateBoard>,
    board: &GateBoard,
    text: &[u8],
) -> io::Result<()> {
    let fitted = match Fitted::new(SETUP, t) {
        Ok(fitted) => fitted,
        Err(fault) => return println!(rt; "{}", Refusal(fault)),
    };
    let mut run = match fitted.open(t, board) {
        Ok(run) => run,
        Err(declined) => return println!(rt; "{}", Refusal(declined.fault)),
    };
    print_answers(rt, &mut run, t, text)?;
    print_frames(rt, &run, t)
}

// Four stations, one of which may be faulty though none is, and a watch of length 8; station 0 leads.
const SETUP: Setup = Setup {
    faults: 1,
    length: 8,
    leader: 0,
    faulty: 0,
};

// Four stations with eight numbers each send at most 32 requests.
const PLACES: usize = 32;

// So many executed entries, all absent.
fn absent(heap: Global, n: usize) -> Result<Vec<Option<Entry<GateOrder>>>, AllocError> {
    (0..n).map(|_| None).collect(heap)
}

// Serves the sheet over tables for four stations and a watch of length 8.
fn run_sheet(rt: &HostRuntime, board: &GateBoard, text: &[u8]) -> io::Result<()> {
    let empty = Slot {
        bytes: [0; 194],
        len: 0,
    };
    let none = Counts {
        submitted: 0,
        executed: 0,
    };
    let mut wire = [empty; PLACES];
    let mut words: [Option<GateOrder>; 512] = [None; 512];
    let mut votes: [Option<Matrix>; 128] = [None; 128];
    let mut commits: [Option<Matrix>; 128] = [None; 128];
    let mut kept = [Row::zero(4); 16];
    let mut executed = absent(rt.alloc(), 128)?;
    let mut machines = [*board; 4];
    let mut counts = [none; 4];
    let mut accused = [0; 4];
    let mut t = Tables {
        wire: &mut wire,
        words: &mut words,
        votes: &mut votes,
        commits: &mut commits,
        kept: &mut kept,
        executed: executed.as_mut_slice(),
        machines: &mut machines,
        counts: &mut counts,
        accused: &mut accused,
    };
    serve(rt, &mut t, board, text)
}

fn main(rt: HostRuntime) -> io::Result<()> {
    let mut text = Vec::new(rt.alloc());
    rt.stdin().read_to_end(&mut text)?;
    match GateBoard::new(40, true) {
        Ok(board) => run_sheet(&rt, &board, text.as_slice()),
        Err(fault) => println!(rt; "{}", Refusal(fault)),
    }
}
