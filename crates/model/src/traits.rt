ghost use Rattle.std.specs.Prelude.{◌≡◌, ℕ, ◌^◌, ◌<◌, None, Decides, Option as Maybe};
ghost use Rattle.model.specs.Words.{Unpacked};
ghost use Rattle.model.specs.declared.fault.Fault.{Fault as Refusal};

use crate::fault::Fault;

// A value with a meaning.
pub trait Word: Sized {
    ghost Value: { Type 0 };

    ghost means: { Self → Value };

    // Yes exactly when the two meanings are equal.
    // Kept: a method of its own and not `==`, since values that differ may mean the same, as rows do past their last entry.
    fn same(&self, other: &Self) -> bool
        ensures { Decides result (means self.now ≡ means other.now) };
}

// A word with a packed form of 64 bits: one for each meaning. Bits that are no packed form are refused,
// and they alone fix how.
pub trait Operation: Word {
    ghost bits: { Self → ℕ };

    ghost refused: { ℕ → Maybe Refusal };

    fn pack(&self) -> u64
        ensures { result ≡ bits self.now };

    // The operation with this packed form.
    fn unpack(packed: u64) -> Result<Self, Fault>
        ensures { Unpacked bits refused packed result };

    ghost fits: { (u : Self) → bits u < 2 ^ 64 };

    ghost one: { (u v : Self) → Self.Word.means u ≡ Self.Word.means v → bits u ≡ bits v };

    ghost apart: { (u v : Self) → bits u ≡ bits v → Self.Word.means u ≡ Self.Word.means v };

    ghost whole: { (u : Self) → refused (bits u) ≡ None };
}

// A state that operations of one kind step on. What a step does and answers depends only on the state and on
// the operation's meaning, for which its packed form stands. No operation is declined.
pub trait Machine: Sized {
    type Op: Operation + Drop;

    ghost State: { Type 0 };

    ghost means: { Self → State };

    ghost step: { State → ℕ → State };

    ghost code: { State → ℕ → ℕ };

    // Takes the operation, and answers its code.
    // Kept: a number, since each machine has its own list of codes, and a run hands on any of them.
    fn apply(&mut self, u: &Self::Op) -> u8
        ensures state { means self.new ≡ step (means self.old) (Self.Op.Operation.bits u.now) }
        ensures answer { result ≡ code (means self.old) (Self.Op.Operation.bits u.now) };

    // Another machine of the same meaning.
    // Kept: `Copy` would ask more of a machine, and a `clone` may fail.
    fn copy(&self) -> Self
        ensures { means result ≡ means self.now };
}
