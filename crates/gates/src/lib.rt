// The gate board, a machine that takes gate orders.
#![tactic(auto)]

mod board;

pub use board::{Gate, GateBoard, GateCode, MOST_GATES, Moment};
