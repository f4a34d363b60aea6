// One theorem or more to a function, which does nothing.
ghost use Rattle.protocol.specs.Claims.{Accuses, Bounded, Comparable, Executes, Lasting, OneMatrix, OneOperation, OneVoice, Safe, TwoFaced};
ghost use Rattle.protocol.specs.States.{Mach};

use model::Machine;

pub(crate) fn safety<M: Machine>(_machine: &M)
    ensures { Safe (record { Q = M.Machine.State; step = M.Machine.step }) }
{}

pub(crate) fn uniqueness<M: Machine>(_machine: &M)
    ensures operation { OneOperation (record { Q = M.Machine.State; step = M.Machine.step }) }
    ensures matrix { OneMatrix (record { Q = M.Machine.State; step = M.Machine.step }) }
    ensures voice { OneVoice (record { Q = M.Machine.State; step = M.Machine.step }) }
{}

pub(crate) fn persistence<M: Machine>(_machine: &M)
    ensures places { Lasting (record { Q = M.Machine.State; step = M.Machine.step }) }
    ensures bounds { Bounded (record { Q = M.Machine.State; step = M.Machine.step }) }
    ensures summaries { Comparable (record { Q = M.Machine.State; step = M.Machine.step }) }
{}

pub(crate) fn existence<M: Machine>(_machine: &M)
    ensures executes { Executes (record { Q = M.Machine.State; step = M.Machine.step }) }
    ensures liar { TwoFaced (record { Q = M.Machine.State; step = M.Machine.step }) }
    ensures accuses { Accuses (record { Q = M.Machine.State; step = M.Machine.step }) }
{}
