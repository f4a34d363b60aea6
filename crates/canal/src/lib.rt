// Gate orders and water transfers: made, packed and unpacked.
#![tactic(auto)]

mod gate_order;
mod layout;
mod transfer;

pub use gate_order::GateOrder;
pub use transfer::Transfer;
