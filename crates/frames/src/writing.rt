ghost use Rattle.std.specs.Prelude.{◌≡◌, ℕ, ◌+◌, ◌*◌, ◌<◌, ◌≤◌, length, take, IfOk, None};
ghost use Rattle.frames.specs.Kinds.{checked};
ghost use Rattle.frames.specs.Views.{Reads, Valued, said_by};
ghost use Rattle.frames.specs.Writing.{body_of, count_fault, frame as frame_of, kind_of, leaves, part_unfit, sequence_of, written};

use crate::kind::{Header, Kind, Message};
use model::{Fault, Reason};

// Whether there are n entries.
fn check_count(entries: &[u8], n: usize) -> Result<(), Fault>
    ensures { result ≡ checked (count_fault entries.now n) }
{
    if entries.len() != n {
        return Err(Fault::new(Reason::FrameLength, 0));
    }
    Ok(())
}

impl Message {
    pub(crate) fn kind(&self) -> Kind
        ensures { (s f : ℕ) → result ≡ kind_of (said_by s f self.now) }
    {
        match self {
            Message::Request { .. } => Kind::Request,
            Message::Ack { .. } => Kind::Ack,
            Message::Summary { .. } => Kind::Summary,
            Message::Proposal { .. } => Kind::Proposal,
            Message::Prepare { .. } => Kind::Prepare,
            Message::Commit { .. } => Kind::Commit,
        }
    }

    // The header of the frame that says this. The sequence of a summary is 0.
    pub(crate) fn header(&self, sender: u8, faults: u8) -> Header
        ensures names { (result.sender ≡ sender) × (result.faults ≡ faults) }
        ensures sequence { (s f : ℕ) → result.sequence ≡ sequence_of (said_by s f self.now) }
    {
        let sequence = match self {
            Message::Request { sequence, .. }
            | Message::Ack { sequence, .. }
            | Message::Proposal { sequence, .. }
            | Message::Prepare { sequence, .. }
            | Message::Commit { sequence, .. } => *sequence,
            Message::Summary { .. } => 0,
        };
        Header {
            sender,
            faults,
            sequence,
        }
    }

    // Whether reading would refuse nothing of the body that says this.
    fn check(&self, header: Header) -> Result<(), Fault>
        ensures { (s : ℕ) → result ≡ checked (part_unfit (said_by s header.faults self.now)) }
    {
        let n = header.stations();
        match self {
            Message::Request { .. } => Ok(()),
            Message::Ack { origin, .. } => {
                if n <= *origin as usize {
                    return Err(Fault::new(Reason::FrameOrigin, 16));
                }
                Ok(())
            }
            Message::Summary { row } => check_count(row.as_slice(), n),
            Message::Proposal { matrix, .. }
            | Message::Prepare { matrix, .. }
            | Message::Commit { matrix, .. } => check_count(matrix.entries.as_slice(), n * n),
        }
    }

    // Fills `to` with the body that says this.
    // Kept: the range as a clause, since a header is a plain value that `check` refuses, and its type has any number.
    #[tactic(auto, using(crate::proofs::Bodies::word_bytes_lem, crate::proofs::Sending::fills_ack))]
    fn fill(&self, header: Header, to: &mut [u8])
        requires few { header.faults ≤ 5 }
        requires fits { part_unfit (said_by 0 header.faults self.now) ≡ None }
        requires long { length to.old ≡ length (body_of (said_by 0 header.faults self.now)) }
        ensures body { to.new ≡ body_of (said_by 0 header.faults self.now) }
        ensures values { Valued (said_by 0 header.faults self.now) }
    {
        match self {
            Message::Request { packed, .. } => to.copy_from_slice(&packed.to_be_bytes()),
            Message::Ack { origin, packed, .. } => {
                to[0] = *origin * 16;
                to[1..9].copy_from_slice(&packed.to_be_bytes());
            }
            Message::Summary { row } => {
                row.pack(to);
            }
            Message::Proposal { matrix, .. }
            | Message::Prepare { matrix, .. }
            | Message::Commit { matrix, .. } => {
                matrix.pack(to);
            }
        }
    }
}

// The length of the frame that says this, or why none is written into so many bytes.
fn decide(header: Header, message: &Message, space: usize) -> Result<usize, Fault>
    requires { (s f : ℕ) → header.sequence ≡ sequence_of (said_by s f message.now) }
    ensures { result ≡ written (said_by header.sender header.faults message.now) space }
{
    let kind = message.kind();
    header.check(kind)?;
    message.check(header)?;
    let len = 2 + header.size(kind);
    if space < len {
        return Err(Fault::new(Reason::ShortBuffer, 0));
    }
    Ok(len)
}

// Writes the frame that says this into the front of `to`, and answers its length.
pub fn write(sender: u8, faults: u8, message: &Message, to: &mut [u8]) -> Result<usize, Fault>
    ensures answer { result ≡ written (said_by sender faults message.now) (length to.old) }
    ensures leaves { to.new ≡ leaves result (frame_of (said_by sender faults message.now)) to.old }
    ensures reads { IfOk result (λ len. Reads (take len to.new) (said_by sender faults message.now)) }
{
    let header = message.header(sender, faults);
    let len = decide(header, message, to.len())?;
    let head = header.number(message.kind());
    to[..2].copy_from_slice(&head.to_be_bytes());
    message.fill(header, &mut to[2..len]);
    Ok(len)
}
