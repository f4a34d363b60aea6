// Tests of what stations send, of false speech, and of showing frames.
#![tactic(auto)]

#[cfg(test)]
mod sends;
#[cfg(test)]
mod shows;
#[cfg(test)]
mod speeches;
