// Runs of the ordering core: fitted, opened, closed, and the calls on an open run. Tables are lent to each call.
#![tactic(auto)]

mod calls;
mod closing;
mod delivering;
mod life;
mod opening;
mod placing;
mod sent;
mod settling;
mod showing;

pub use life::{Closed, Declined, Fitted, Open};
pub use sent::Sent;
