ghost use Rattle.std.specs.Prelude.{◌≡◌, ◌<◌, [], map, length, slice_index_or};
ghost use Rattle.delivery.specs.Deliveries.{ranks, row as row_from};
ghost use Rattle.delivery.specs.Hearings.{Hears};
ghost use Rattle.model.specs.Quorums.{stations};
ghost use Rattle.order.specs.Rows.{read, standing};
ghost use Rattle.rows.specs.Values.{row_of};

use crate::change::{Change, Delivery};
use crate::outcome::Outcome;
use crate::places::row_place;
use crate::sending::{quiet, settled};
use model::{Machine, Watch};
use order::compare;
use rows::Row;
use tables::Station;

// How a row ranks beside the kept one.
fn rank(watch: Watch, row: &Row, kept: &Row) -> Outcome
    ensures { result ≡ ranks (standing (stations watch.faults) (read watch.limit (row_of row.now)) (read watch.limit (row_of kept.now))) }
{
    compare(watch, row.as_slice(), kept.as_slice()).into()
}

// How a row ranks beside the one that is kept at this place.
fn rank_at(watch: Watch, row: &Row, kept: &[Row], at: usize) -> Outcome
    requires { at < length kept.now }
    ensures { result ≡ ranks (standing (stations watch.faults) (read watch.limit (row_of row.now)) (read watch.limit (slice_index_or (map row_of kept.now) at []))) }
{
    rank(watch, row, &kept[at])
}

// What a speaker's row does at a station.
pub(crate) fn hear_row<M: Machine>(
    at: &Station<'_, '_, M>,
    speaker: u8,
    row: Row,
) -> Delivery<M::Op>
    requires { speaker < stations at.now.numbers.watch.faults }
    ensures { Hears M.Op.Operation.bits M.Machine.means at.now.numbers at.now.tables.now at.now.index (row_from speaker (row_of row)) result }
{
    let watch = at.numbers.watch;
    let place = row_place(watch, at.index, speaker);
    let t = at.tables;
    let outcome = rank_at(watch, &row, t.kept, place);
    settled(outcome, speaker, || {
        quiet(Outcome::Taken, Change::Keep { at: place, row })
    })
}
