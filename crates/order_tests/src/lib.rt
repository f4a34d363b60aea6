// Tests of quorums, rows and the order.
#![tactic(auto)]

#[cfg(test)]
mod places;
#[cfg(test)]
mod sequences;
