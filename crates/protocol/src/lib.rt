// The claims over whole runs, at the level of the protocol: stations, places and messages, no bytes and no tables.
// The theorems stand on the contracts of these calls, for every machine.
#![tactic(auto)]

mod theorems;

ghost use Rattle.std.specs.Prelude.{◌≡◌, ◌+◌};
ghost use Rattle.model.specs.Quorums.{quorum, stations};
ghost use Rattle.protocol.specs.Claims.{Accuses, Bounded, Comparable, Executes, Lasting, OneMatrix, OneOperation, OneVoice, Safe, TwoFaced};
ghost use Rattle.protocol.specs.States.{Mach};

use model::{Machine, Watch};

// How many correct stations, at least, hold an executed entry under certificate: f + 1. This and all the other claims
// hold in every reached state.
pub fn claims_stand<M: Machine>(machine: &M, watch: Watch) -> u8
    ensures number { result ≡ watch.faults + 1 }
    ensures safe { Safe (record { Q = M.Machine.State; step = M.Machine.step }) }
{
    theorems::safety(machine);
    watch.faults + 1
}

// How many places, at least, hold an operation that has a certificate, or a matrix that is ordered: 2f + 1. So correct
// stations have one operation for an origin and sequence, and one matrix for a number; and none of
// them says two different words on one topic.
pub fn one_word_stands<M: Machine>(machine: &M, watch: Watch) -> u8
    ensures number { result ≡ quorum watch.faults }
    ensures operation { OneOperation (record { Q = M.Machine.State; step = M.Machine.step }) }
    ensures matrix { OneMatrix (record { Q = M.Machine.State; step = M.Machine.step }) }
    ensures voice { OneVoice (record { Q = M.Machine.State; step = M.Machine.step }) }
{
    theorems::uniqueness(machine);
    watch.quorum()
}

// How many places a topic has at a station: 3f + 1. A place never changes once it is filled; all that is on the wire is
// within the run's bounds; and a correct station's summaries are comparable.
pub fn what_lasts<M: Machine>(machine: &M, watch: Watch) -> u8
    ensures number { result ≡ stations watch.faults }
    ensures places { Lasting (record { Q = M.Machine.State; step = M.Machine.step }) }
    ensures bounds { Bounded (record { Q = M.Machine.State; step = M.Machine.step }) }
    ensures summaries { Comparable (record { Q = M.Machine.State; step = M.Machine.step }) }
{
    theorems::persistence(machine);
    watch.stations()
}

// How many stations the runs have that show that the rules can be met: 4, where f is 1. In one everybody executes; in
// another a faulty leader speaks two different proposals under one number, and a correct station accuses it.
pub fn runs_exist<M: Machine>(machine: &M) -> u8
    ensures number { result ≡ stations 1 }
    ensures executes { Executes (record { Q = M.Machine.State; step = M.Machine.step }) }
    ensures liar { TwoFaced (record { Q = M.Machine.State; step = M.Machine.step }) }
    ensures accuses { Accuses (record { Q = M.Machine.State; step = M.Machine.step }) }
{
    theorems::existence(machine);
    let faults = 1;
    3 * faults + 1
}
