// Tests of the frames, over an operation of their own.
#![tactic(auto)]

#[cfg(test)]
mod operation;
#[cfg(test)]
mod plain;
#[cfg(test)]
mod tests;
