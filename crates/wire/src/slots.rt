ghost use Rattle.frames.specs.Views.{said_by};
ghost use Rattle.tables.specs.Contents.{frame_of};
ghost use Rattle.wire.specs.Slots.{framed};
ghost use Rattle.std.specs.Prelude.{◌≡◌};

use frames::{Message, write};
use tables::Slot;

// The frame that says this, as a place of the wire holds it: nothing where no frame says it.
pub fn slot(sender: u8, faults: u8, message: &Message) -> Slot
    ensures { frame_of result ≡ framed (said_by sender faults message.now) }
{
    let mut bytes = [0; 194];
    let len = write(sender, faults, message, &mut bytes).unwrap_or(0);
    Slot {
        bytes,
        len: len as u8,
    }
}
