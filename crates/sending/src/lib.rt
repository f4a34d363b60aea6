// What a station is to send: readers of the tables that refuse, or make the frame.
#![tactic(auto)]

mod gathering;
mod numbered;
mod proposing;
mod speaking;
mod submitting;
mod summarising;

pub use numbered::Numbered;
pub use proposing::to_propose;
pub use speaking::to_speak;
pub use submitting::to_submit;
pub use summarising::to_summarise;
