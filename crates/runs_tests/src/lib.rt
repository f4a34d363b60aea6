// Tests of runs, and what tests of runs need: tables that are owned, scripts of calls, and marks of what tables hold.
#![tactic(auto)]

pub mod bench;
pub mod calls;
#[cfg(test)]
mod fitting;
#[cfg(test)]
mod larger;
#[cfg(test)]
mod life;
pub mod marks;
#[cfg(test)]
mod opening;
#[cfg(test)]
mod reading;
