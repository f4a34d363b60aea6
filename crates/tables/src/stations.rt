ghost use Rattle.std.specs.Prelude.{◌≡◌, IfOk};
ghost use Rattle.tables.specs.Contents.{contents};
ghost use Rattle.tables.specs.Plans.{lengths_of, plan_of, short as short_of};
ghost use Rattle.tables.specs.Refusing.{seen_as};
ghost use Rattle.tables.specs.Runs.{lengths_in};
ghost use Rattle.tables.specs.Stations.{Ready, correct_in, faulty_in, known_in};
ghost use Rattle.model.specs.Quorums.{stations};

use crate::fit::too_short;
use crate::numbers::Numbers;
use crate::tables::Tables;
use model::{Fault, Machine, Reason, names};

// A station of a run, with the tables of the run, which are long enough for it.
#[derive(Drop)]
pub struct Station<'a, 'b, M: Machine> {
    pub numbers: Numbers,
    pub tables: &'a Tables<'b, M>,
    pub index: usize,
    ghost ready: { Ready (plan_of numbers) (lengths_of tables.now) index },
}

impl Numbers {
    // Whether a table is too short for the run.
    pub fn short<M: Machine>(self, t: &Tables<'_, M>) -> bool
        ensures { result ≡ short_of (stations self.watch.faults) self.watch.limit self.wire (lengths_in (contents M.Op.Operation.bits M.Machine.means t.now)) }
    {
        too_short(self.watch, self.wire as usize, t)
    }

    // The station, if tables are long enough and there is such a station.
    // Kept: the clause `of` stands at each of the three calls that make a station, for it says of what each makes it.
    fn station<'a, 'b, M: Machine>(
        self,
        t: &'a Tables<'b, M>,
        station: u32,
    ) -> Result<Station<'a, 'b, M>, Fault>
        ensures is { seen_as (λ x. x.index) result ≡ known_in (plan_of self) (lengths_of t.now) station }
        ensures of { IfOk result (λ x. (x.numbers ≡ self) × (x.tables.now ≡ t.now) × (x.index ≡ station)) }
    {
        if too_short(self.watch, self.wire as usize, t) {
            return Err(Reason::ShortTable.into());
        }
        if station >= self.watch.stations() as u32 {
            return Err(Reason::NoStation.into());
        }
        Ok(Station {
            numbers: self,
            tables: t,
            index: station as usize,
        })
    }

    // The station, if tables are long enough and it is a correct one.
    pub fn correct<'a, 'b, M: Machine>(
        self,
        t: &'a Tables<'b, M>,
        station: u32,
    ) -> Result<Station<'a, 'b, M>, Fault>
        ensures is { seen_as (λ x. x.index) result ≡ correct_in (plan_of self) (lengths_in (contents M.Op.Operation.bits M.Machine.means t.now)) station }
        ensures of { IfOk result (λ x. (x.numbers ≡ self) × (x.tables.now ≡ t.now) × (x.index ≡ station)) }
    {
        let at = self.station(t, station)?;
        if names(self.faulty, at.index) {
            return Err(Reason::WrongStation.into());
        }
        Ok(at)
    }

    // The station, if tables are long enough and it is a faulty one.
    pub fn faulty<'a, 'b, M: Machine>(
        self,
        t: &'a Tables<'b, M>,
        station: u32,
    ) -> Result<Station<'a, 'b, M>, Fault>
        ensures is { seen_as (λ x. x.index) result ≡ faulty_in (plan_of self) (lengths_in (contents M.Op.Operation.bits M.Machine.means t.now)) station }
        ensures of { IfOk result (λ x. (x.numbers ≡ self) × (x.tables.now ≡ t.now) × (x.index ≡ station)) }
    {
        let at = self.station(t, station)?;
        if !names(self.faulty, at.index) {
            return Err(Reason::WrongStation.into());
        }
        Ok(at)
    }
}
