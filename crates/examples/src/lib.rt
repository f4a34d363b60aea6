// The worked examples of the rules, and tests of every layer on values that the rules give.
#![tactic(auto)]

ghost use Rattle.examples.specs.Worked.{Computed, all_hold, worked};
ghost use Rattle.std.specs.Prelude.{◌≡◌, true, length};

#[cfg(test)]
mod machines;
#[cfg(test)]
mod operations;
#[cfg(test)]
mod texts;

// How many worked examples there are; all of them hold, and the certificate that is computed in them is the certificate.
pub fn worked_examples() -> usize
    ensures count { result ≡ length worked }
    ensures hold { all_hold worked ≡ true }
    ensures computed { Computed }
{
    let packed_forms = 1;
    let frames = 2;
    let columns = 3;
    let orders = 1;
    let certificates = 3;
    let rows = 2;
    packed_forms + frames + columns + orders + certificates + rows
}
