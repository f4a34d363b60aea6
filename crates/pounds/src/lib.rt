// The pound ledger, a machine that takes transfers.
#![tactic(auto)]

mod ledger;

pub use ledger::{MOST_POUNDS, Pound, PoundCode, PoundLedger};
