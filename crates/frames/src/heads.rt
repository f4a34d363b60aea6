ghost use Rattle.std.specs.Prelude.{◌≡◌, ℕ, ◌+◌, ◌*◌, ◌<◌, ◌≤◌};
ghost use Rattle.frames.specs.Kinds.{checked, kind_in, kind_number, head_fault, named, size as body_size};
ghost use Rattle.frames.specs.Views.{header_of, kind_is};
ghost use Rattle.frames.specs.Writing.{head_number};

use crate::kind::{Frame, Header, Kind};
use model::{Fault, Reason};
use rows::room;

impl TryFrom<u8> for Kind {
    type Error = Fault;

    ghost try_from_gives = { λ number result. result ≡ named (kind_in number) };

    // The kind with this number.
    fn try_from(number: u8) -> Result<Kind, Fault> {
        match number {
            1 => Ok(Kind::Request),
            2 => Ok(Kind::Ack),
            3 => Ok(Kind::Summary),
            4 => Ok(Kind::Proposal),
            5 => Ok(Kind::Prepare),
            6 => Ok(Kind::Commit),
            _ => Err(Fault::new(Reason::FrameKind, 0)),
        }
    }
}

impl Kind {
    // The number in the header.
    pub fn number(self) -> u8
        ensures { result ≡ kind_number self }
    {
        // Kept: the enum's values are the numbers, so a `From` or a `match` would say no more than the cast.
        self as u8
    }
}

impl Header {
    // How many stations there are.
    pub fn stations(self) -> usize
        ensures { result ≡ 3 * self.faults + 1 }
    {
        3 * self.faults as usize + 1
    }

    // Whether the header is one that a frame of this kind may have.
    pub(crate) fn check(self, kind: Kind) -> Result<(), Fault>
        ensures { result ≡ checked (head_fault kind self.sender self.faults self.sequence) }
    {
        if !(1..=5).contains(&self.faults) {
            return Err(Fault::new(Reason::FrameFaultBound, 7));
        }
        if self.stations() <= self.sender as usize {
            return Err(Fault::new(Reason::FrameSender, 3));
        }
        let bad = match kind {
            Kind::Summary => 0 < self.sequence,
            _ => !(1..=63).contains(&self.sequence),
        };
        if bad {
            return Err(Fault::new(Reason::FrameSequence, 10));
        }
        Ok(())
    }

    // How many bytes the body of a frame of this kind has.
    pub(crate) fn size(self, kind: Kind) -> usize
        ensures { result ≡ body_size kind self.faults }
    {
        let n = self.stations();
        match kind {
            Kind::Request => 8,
            Kind::Ack => 9,
            Kind::Summary => room(n),
            Kind::Proposal | Kind::Prepare | Kind::Commit => room(n * n),
        }
    }

    // The number that the 16 bits of the header write.
    // Kept: the ranges as clauses, since a header is a plain value that `check` refuses, and its type has any number.
    pub(crate) fn number(self, kind: Kind) -> u16
        requires low { (self.sender < 16) × (self.faults ≤ 5) }
        requires short { self.sequence < 64 }
        ensures { result ≡ head_number (kind_number kind) self.sender self.faults self.sequence }
    {
        let high = u16::from(kind.number()) * 16 + u16::from(self.sender);
        (high * 8 + u16::from(self.faults)) * 64 + u16::from(self.sequence)
    }
}

impl Frame<'_> {
    pub fn header(&self) -> Header
        ensures { result ≡ header_of self.now }
    {
        match self {
            Frame::Request { header, .. }
            | Frame::Ack { header, .. }
            | Frame::Summary { header, .. }
            | Frame::Proposal { header, .. }
            | Frame::Prepare { header, .. }
            | Frame::Commit { header, .. } => *header,
        }
    }

    pub fn kind(&self) -> Kind
        ensures { result ≡ kind_is self.now }
    {
        match self {
            Frame::Request { .. } => Kind::Request,
            Frame::Ack { .. } => Kind::Ack,
            Frame::Summary { .. } => Kind::Summary,
            Frame::Proposal { .. } => Kind::Proposal,
            Frame::Prepare { .. } => Kind::Prepare,
            Frame::Commit { .. } => Kind::Commit,
        }
    }
}
