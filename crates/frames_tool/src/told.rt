ghost use Rattle.std.specs.Prelude.{◌≡◌, ℕ};
ghost use Rattle.frames.specs.Views.{said_of};
ghost use Rattle.frames_tool.specs.Telling.{Tells, accepted, operation_in};
ghost use Rattle.std.specs.Option.{option_map};

use frames::{Frame, read};
use model::{Fault, Operation};
use rows::{Matrix, Row};
use std::fmt;

// A frame that was read, with its operation if it carries one.
#[derive(Drop)]
pub struct Report<'a, O> {
    pub frame: Frame<'a>,
    pub operation: Option<O>,
}

// The operation of a request or an ack, unless it is refused.
fn carried<O: Operation + Drop>(frame: Frame<'_>) -> Option<O>
    ensures { option_map O.Operation.bits result ≡ accepted O.Operation.refused (operation_in (said_of frame.entry)) }
{
    match frame {
        Frame::Request { packed, .. } | Frame::Ack { packed, .. } => O::unpack(packed).ok(),
        _ => None,
    }
}

// What the bytes say, or why they say nothing.
pub fn tell<O: Operation + Drop>(bytes: &[u8]) -> Result<Report<'_, O>, Fault>
    ensures { Tells O.Operation.bits O.Operation.refused bytes.now result }
{
    let frame = read::<O>(bytes)?;
    Ok(Report {
        frame,
        operation: carried::<O>(frame),
    })
}

fn write_entries<W: fmt::Write>(f: &mut fmt::Formatter<W>, entries: &[u8]) -> fmt::Result {
    for x in entries {
        write!(f, " {x}")?;
    }
    Ok(())
}

fn write_frame<W: fmt::Write>(f: &mut fmt::Formatter<W>, frame: &Frame<'_>) -> fmt::Result {
    let kind = frame.kind().number();
    let header = frame.header();
    let sender = header.sender;
    let faults = header.faults;
    let sequence = header.sequence;
    let n = header.stations();
    write!(f, "ok {kind} {sender} {faults} {sequence}")?;
    match *frame {
        Frame::Request { packed, .. } => write!(f, " {packed:016X}"),
        Frame::Ack { origin, packed, .. } => write!(f, " {origin} {packed:016X}"),
        Frame::Summary { row, .. } => write_entries(f, Row::unpack(n, row).as_slice()),
        Frame::Proposal { matrix, .. }
        | Frame::Prepare { matrix, .. }
        | Frame::Commit { matrix, .. } => {
            write_entries(f, Matrix::unpack(n, matrix).entries.as_slice())
        }
    }
}

impl<O: fmt::Display> fmt::Display for Report<'_, O> {
    fn fmt<W: fmt::Write>(&self, f: &mut fmt::Formatter<W>) -> fmt::Result {
        write_frame(f, &self.frame)?;
        match &self.operation {
            Some(u) => write!(f, " {u}"),
            None => Ok(()),
        }
    }
}
