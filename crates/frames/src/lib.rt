// Frames: bytes to meanings and back. A frame is a header of two bytes and a body.
#![tactic(auto)]

mod heads;
mod kind;
mod reading;
mod writing;

pub use kind::{Frame, Header, Kind, Message};
pub use reading::read;
pub use writing::write;
