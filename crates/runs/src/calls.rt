ghost use Rattle.std.specs.Prelude.{◌≡◌, ℕ, ◌+◌, ◌<◌, ◌≤◌, length};
ghost use Rattle.runs.specs.Perform.{Does, counted_to, perform, placed, proposes, run_of, sent_as, speaks, submits, summarises};

use crate::life::Open;
use crate::placing::put;
use crate::sent::Sent;
use model::{Fault, Machine};
use sending::{Numbered, to_propose, to_speak, to_submit, to_summarise};
use tables::{Counts, Tables};

// The station has submitted its operation of this sequence.
fn count(counts: &mut [Counts], station: usize, sequence: u8)
    requires { station < length counts.old }
    ensures { counts.new ≡ counted_to station sequence counts.old }
{
    let counted = Counts {
        submitted: sequence as u16,
        ..counts[station]
    };
    put(counts, station, counted);
}

impl Open {
    // The station, as origin, submits an operation: sends a request with its next sequence.
    pub fn submit<M: Machine>(
        &mut self,
        t: &mut Tables<'_, M>,
        station: u32,
        u: &M::Op,
    ) -> Result<Sent, Fault>
        ensures { Does sent_as (perform M.Op.Operation.refused (submits station (M.Op.Operation.bits u.now)) (run_of M.Op.Operation.bits M.Machine.means self.old t.old)) result (run_of M.Op.Operation.bits M.Machine.means self.old t.old) (run_of M.Op.Operation.bits M.Machine.means self.new t.new) }
    {
        let Numbered { sequence, slot } = to_submit(&self.on(t), station, u)?;
        let place = self.send(t.wire, slot);
        count(t.counts, station as usize, sequence);
        Ok(Sent { sequence, place })
    }

    // The station sends a summary: for each origin, how far its sequences have certificates there.
    pub fn summarise<M: Machine>(
        &mut self,
        t: &mut Tables<'_, M>,
        station: u32,
    ) -> Result<u16, Fault>
        ensures { Does placed (perform M.Op.Operation.refused (summarises station) (run_of M.Op.Operation.bits M.Machine.means self.old t.old)) result (run_of M.Op.Operation.bits M.Machine.means self.old t.old) (run_of M.Op.Operation.bits M.Machine.means self.new t.new) }
    {
        let slot = to_summarise(&self.on(t), station)?;
        Ok(self.send(t.wire, slot))
    }

    // The leader proposes the rows that it keeps, under its next number.
    pub fn propose<M: Machine>(
        &mut self,
        t: &mut Tables<'_, M>,
        station: u32,
    ) -> Result<Sent, Fault>
        ensures { Does sent_as (perform M.Op.Operation.refused (proposes station) (run_of M.Op.Operation.bits M.Machine.means self.old t.old)) result (run_of M.Op.Operation.bits M.Machine.means self.old t.old) (run_of M.Op.Operation.bits M.Machine.means self.new t.new) }
    {
        let Numbered { sequence, slot } = to_propose(&self.on(t), station)?;
        let place = self.send(t.wire, slot);
        self.last = sequence;
        Ok(Sent { sequence, place })
    }

    // A faulty station says these bytes.
    pub fn speak<M: Machine>(
        &mut self,
        t: &mut Tables<'_, M>,
        station: u32,
        bytes: &[u8],
    ) -> Result<u16, Fault>
        ensures { Does placed (perform M.Op.Operation.refused (speaks station bytes.now) (run_of M.Op.Operation.bits M.Machine.means self.old t.old)) result (run_of M.Op.Operation.bits M.Machine.means self.old t.old) (run_of M.Op.Operation.bits M.Machine.means self.new t.new) }
    {
        let slot = to_speak(&self.on(t), station, bytes)?;
        Ok(self.send(t.wire, slot))
    }
}
