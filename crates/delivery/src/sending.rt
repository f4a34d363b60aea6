ghost use Rattle.std.specs.Prelude.{◌≡◌, not, ◌&&◌, ◌++◌, map, IfSome, None, ◌==◌};
ghost use Rattle.delivery.specs.Hearings.{Settles, says};
ghost use Rattle.delivery.specs.Tellings.{frame_in, frames_in};
ghost use Rattle.delivery.specs.declared.outcome.Outcome.TheVariants.{Taken as TakenIs};
ghost use Rattle.frames.specs.Views.{said_by};
ghost use Rattle.frames.specs.Writing.{frame as frame_saying, unfit};

use crate::change::{Change, Delivery};
use crate::outcome::Outcome;
use frames::Message;
use tables::Slot;
use wire::slot;

// Whether a station that took a speaker's word on a topic says the same: it does where the speaker opens the topic and the
// station does not.
pub(crate) fn echoes(station: usize, opener: u8, speaker: u8) -> bool
    ensures { result ≡ (speaker == opener && not (station == opener)) }
{
    speaker == opener && station != opener as usize
}

// The frame that says this, if there is something to say.
pub(crate) fn sent(sender: u8, faults: u8, message: Option<Message>) -> Option<Slot>
    requires { IfSome message (λ m. unfit (said_by sender faults m) ≡ None) }
    ensures { frame_in result ≡ map frame_saying (says sender faults message) }
{
    message.map(|message| slot(sender, faults, &message))
}

// A word is taken with this change, and these frames are sent, as far as there are any.
pub(crate) fn taken<O>(change: Change<O>, one: Option<Slot>, next: Option<Slot>) -> Delivery<O>
    ensures outcome { result.outcome ≡ TakenIs }
    ensures change { result.change ≡ change }
    ensures frames { frames_in result ≡ frame_in one ++ frame_in next }
    ensures ordered { result.first ≡ None → result.second ≡ None }
{
    let (first, second) = match one {
        Some(_) => (one, next),
        None => (next, None),
    };
    Delivery {
        outcome: Outcome::Taken,
        change,
        first,
        second,
    }
}

// A delivery that sends nothing.
pub(crate) fn quiet<O>(outcome: Outcome, change: Change<O>) -> Delivery<O>
    ensures { result ≡ record { outcome = outcome; change = change; first = None; second = None } }
{
    Delivery {
        outcome,
        change,
        first: None,
        second: None,
    }
}

// What a speaker's word does by its outcome: where it is taken, what the call says.
pub(crate) fn settled<O, F: FnOnce() -> Delivery<O>>(
    outcome: Outcome,
    speaker: u8,
    take: F,
) -> Delivery<O>
    requires { F.IsAlwaysCallable take }
    ensures { Settles (F.post take) outcome speaker result }
{
    match outcome {
        Outcome::Taken => take(),
        Outcome::Known => quiet(Outcome::Known, Change::Nothing),
        Outcome::TwoFaced => quiet(Outcome::TwoFaced, Change::Accuse { speaker }),
    }
}
