// Frames on the wire of a run.
#![tactic(auto)]

mod inventing;
mod limits;
mod places;
mod reading;
mod showing;
mod slots;
mod speaking;

pub use places::Wire;
pub use slots::slot;
