ghost use Rattle.std.specs.Prelude.{◌≡◌, ℕ, ◌+◌, ◌-◌, ◌*◌, ◌<◌, ◌≤◌, min, drop, IfOk, None, Ok, Err};
ghost use Rattle.frames.specs.Kinds.{checked, head_fault};
ghost use Rattle.frames.specs.Meaning.{body_fault, filling_fault, meaning, or_else, part_fault, said_in, shifted};
ghost use Rattle.frames.specs.Views.{Alone, Borrows, Sound, answered, header_of, kind_is, said_of};
ghost use Rattle.frames.specs.Writing.{frame as frame_of, unfit};
ghost use Rattle.frames.specs.declared.kind.Kind.TheVariants.{Ack};

use crate::kind::{Frame, Header, Kind};
use model::{Fault, Operation, Reason};
use rows::{bits, room, word};

// Whether an operation with these bits, which begin at this bit of a frame, is one.
fn check_operation<O: Operation + Drop>(packed: u64, at: u16) -> Result<(), Fault>
    ensures { result ≡ checked (shifted at (O.Operation.refused packed)) }
{
    match O::unpack(packed) {
        Ok(_) => Ok(()),
        Err(e) => Err(Fault::new(e.reason, e.place.saturating_add(at))),
    }
}

// Whether the bits after the last of n entries are 0.
fn check_filling(n: usize, body: &[u8]) -> Result<(), Fault>
    requires { n ≤ 256 }
    ensures { result ≡ checked (filling_fault n body.now) }
{
    let end = 6 * n;
    if bits(body, end, (8 * room(n) - end) as u32) > 0 {
        return Err(Fault::new(Reason::FrameFilling, (16 + end) as u16));
    }
    Ok(())
}

// Whether the fields of an ack's body are sound.
fn check_ack<O: Operation + Drop>(header: Header, body: &[u8]) -> Result<(), Fault>
    ensures { result ≡ checked (part_fault O.Operation.refused Ack header.faults body.now) }
{
    if header.stations() <= bits(body, 0, 4) as usize {
        return Err(Fault::new(Reason::FrameOrigin, 16));
    }
    if bits(body, 4, 4) > 0 {
        return Err(Fault::new(Reason::FrameFilling, 20));
    }
    check_operation::<O>(word(body, 1), 24)
}

// Whether the fields of a body of this kind are sound.
// Kept: the range as a clause, since a header is a plain value that `check` refuses, and its type has any number.
fn check_fields<O: Operation + Drop>(kind: Kind, header: Header, body: &[u8]) -> Result<(), Fault>
    requires { header.faults ≤ 5 }
    ensures { result ≡ checked (part_fault O.Operation.refused kind header.faults body.now) }
{
    let n = header.stations();
    match kind {
        Kind::Request => check_operation::<O>(word(body, 0), 16),
        Kind::Ack => check_ack::<O>(header, body),
        Kind::Summary => check_filling(n, body),
        Kind::Proposal | Kind::Prepare | Kind::Commit => check_filling(n * n, body),
    }
}

// Whether this header and this body are a frame of this kind.
fn check<O: Operation + Drop>(kind: Kind, header: Header, body: &[u8]) -> Result<(), Fault>
    ensures { result ≡ checked (or_else (head_fault kind header.sender header.faults header.sequence) (body_fault O.Operation.refused kind header.faults body.now)) }
{
    header.check(kind)?;
    if body.len() != header.size(kind) {
        return Err(Fault::new(Reason::FrameLength, 0));
    }
    check_fields::<O>(kind, header, body)
}

// The frame of this kind with this header and this body.
fn frame(kind: Kind, header: Header, body: &[u8]) -> Frame<'_>
    ensures said { said_of result ≡ said_in kind header.sender header.faults header.sequence body.now }
    ensures head { (header_of result ≡ header) × (kind_is result ≡ kind) }
    ensures part { Borrows body.now result }
{
    match kind {
        Kind::Request => Frame::Request {
            header,
            packed: word(body, 0),
        },
        Kind::Ack => Frame::Ack {
            header,
            origin: bits(body, 0, 4),
            packed: word(body, 1),
        },
        Kind::Summary => Frame::Summary { header, row: body },
        Kind::Proposal => Frame::Proposal {
            header,
            matrix: body,
        },
        Kind::Prepare => Frame::Prepare {
            header,
            matrix: body,
        },
        Kind::Commit => Frame::Commit {
            header,
            matrix: body,
        },
    }
}

// The frame in these bytes, or why there is none.
pub fn read<O: Operation + Drop>(bytes: &[u8]) -> Result<Frame<'_>, Fault>
    ensures means { answered result ≡ meaning O.Operation.refused bytes.now }
    ensures parts { IfOk result (λ x. Borrows (drop 2 bytes.now) x) }
    ensures sound { IfOk result Sound }
    ensures written { IfOk result (λ x. (unfit (said_of x) ≡ None) × (frame_of (said_of x) ≡ bytes.now)) }
    ensures alone { IfOk result (λ x. Alone bytes.now (said_of x)) }
{
    let [first, second, body @ ..] = bytes else {
        return Err(Fault::new(Reason::ShortFrame, 0));
    };
    let head = [*first, *second];
    let kind = Kind::try_from(bits(&head, 0, 3))?;
    let header = Header {
        sender: bits(&head, 3, 4),
        faults: bits(&head, 7, 3),
        sequence: bits(&head, 10, 6),
    };
    check::<O>(kind, header, body)?;
    Ok(frame(kind, header, body))
}
