use crate::numbers::Numbers;
use crate::tables::Tables;
use model::Machine;

// An open run as a call reads it: its numbers, where its wire ends, the number that the leader last proposed under, and the
// tables that are lent.
#[derive(Drop)]
pub struct Snapshot<'a, 'b, M: Machine> {
    pub numbers: Numbers,
    pub end: u16,
    pub last: u8,
    pub tables: &'a Tables<'b, M>,
}
