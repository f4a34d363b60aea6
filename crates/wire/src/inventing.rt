ghost use Rattle.std.specs.Prelude.{◌≡◌, ◌<◌, map, length};
ghost use Rattle.frames.specs.Said.{summary};
ghost use Rattle.frames.specs.Views.{said_of};
ghost use Rattle.frames.specs.Writing.{faults_of, frame as frame_saying};
ghost use Rattle.model.specs.Quorums.{stations};
ghost use Rattle.order.specs.Rows.{any};
ghost use Rattle.rows.specs.Values.{matrix_of, row_of};
ghost use Rattle.tables.specs.Contents.{frame_of};
ghost use Rattle.tables.specs.Plans.{plan_of};
ghost use Rattle.wire.specs.Wires.{invented as invented_in, on_wire, some_above, unsent as unsent_in};

use crate::places::{Wire, bytes};
use crate::slots::slot;
use frames::{Frame, Message};
use model::names;
use rows::{Matrix, Row};

// Whether an entry of the row is above 0.
fn counts_some(row: &Row) -> bool
    ensures { result ≡ some_above 0 (row_of row.now) }
{
    row.as_slice().iter().any(|entry| *entry > 0)
}

impl Wire<'_> {
    // Whether a summary of this station with this row lies on the wire.
    fn summarized(self, station: u8, row: Row) -> bool
        requires station { station < stations self.numbers.watch.faults }
        requires whole { length (row_of row) ≡ stations self.numbers.watch.faults }
        ensures { result ≡ on_wire self.entry.end (map frame_of self.entry.slots.now) (frame_saying (summary station self.entry.numbers.watch.faults (row_of row))) }
    {
        let faults = self.numbers.watch.faults;
        let sent = slot(station, faults, &Message::Summary { row });
        self.holds(bytes(&sent))
    }

    // Whether row k of the matrix is one that a correct station k has not sent.
    fn unsent(self, matrix: &Matrix, k: u8) -> bool
        requires station { k < stations self.numbers.watch.faults }
        requires side { matrix.now.side ≡ stations self.numbers.watch.faults }
        ensures { result ≡ unsent_in (plan_of self.entry.numbers) self.entry.end (map frame_of self.entry.slots.now) (matrix_of matrix.now) k }
    {
        if names(self.numbers.faulty, k as usize) {
            return false;
        }
        let row = matrix.row(k as usize);
        counts_some(&row) && !self.summarized(k, row)
    }

    // Whether the matrix has such a row.
    fn some_unsent(self, matrix: &Matrix) -> bool
        requires { matrix.now.side ≡ stations self.numbers.watch.faults }
        ensures { result ≡ any (stations self.entry.numbers.watch.faults) (unsent_in (plan_of self.entry.numbers) self.entry.end (map frame_of self.entry.slots.now) (matrix_of matrix.now)) }
    {
        (0..self.numbers.watch.stations()).any(|k| self.unsent(matrix, k))
    }

    // Whether a frame is a proposal with such a row.
    pub(crate) fn invented(self, frame: &Frame<'_>) -> bool
        requires { faults_of (said_of frame.now) ≡ self.numbers.watch.faults }
        ensures { result ≡ invented_in (plan_of self.entry.numbers) self.entry.end (map frame_of self.entry.slots.now) (said_of frame.now) }
    {
        match frame {
            Frame::Proposal { matrix, .. } => {
                let n = self.numbers.watch.stations() as usize;
                self.some_unsent(&Matrix::unpack(n, matrix))
            }
            _ => false,
        }
    }
}
