ghost use Rattle.model.specs.Faults.{fault, layer_of, number_of};
ghost use Rattle.std.specs.Prelude.{◌≡◌, ℕ};

// Why a call declines. The values are the numbers of the rules, and of two that hold the lower is given.
#[derive(Clone, Copy, PartialEq, Eq, Debug)]
pub enum Reason {
    // The number of faulty stations to be borne is outside 1 to 5.
    FaultBound = 1,
    // The watch length is outside 1 to 63.
    WatchLength = 2,
    // The leader is not below the number of stations.
    Leader = 3,
    // The faulty set names a station that there is not, or more stations than are borne.
    FaultySet = 4,
    // A table is too short.
    ShortTable = 5,
    // The station is not below the number of stations.
    NoStation = 6,
    // The station is faulty; for false speech, it is correct.
    WrongStation = 7,
    // A station other than the leader is to propose.
    NotLeader = 8,
    // All numbers of the watch are used.
    NumbersUsed = 9,
    // There is no such place on the wire, or its frame is not one of this run.
    NoFrame = 10,
    // A frame has fewer than two bytes.
    ShortFrame = 11,
    // A frame's kind is 0 or 7.
    FrameKind = 12,
    // A frame's number of faulty stations is outside 1 to 5.
    FrameFaultBound = 13,
    // A frame's sender is not below its number of stations.
    FrameSender = 14,
    // A frame's sequence is 0 outside a summary, or not 0 in one.
    FrameSequence = 15,
    // A frame's length is not what its kind and its number of stations give.
    FrameLength = 16,
    // An ack's origin is not below the frame's number of stations.
    FrameOrigin = 17,
    // A bit that has to be zero is set.
    FrameFilling = 18,
    // An operation's tag is another type's.
    OtherTag = 19,
    // A field of an operation or of a machine is outside its range.
    OutOfRange = 20,
    // A spoken frame is for another number of stations, or in another station's name.
    SpokenName = 21,
    // A spoken sequence or entry is above the watch length.
    SpokenExcess = 22,
    // A spoken proposal has a row of a correct station that its summaries do not have.
    SpokenRow = 23,
    // The frame's kind is not one that its sender may send.
    WrongSender = 24,
    // No further operation is ordered.
    NoneOrdered = 25,
    // The next operation has no certificate at this station.
    NoCertificate = 26,
    // The wire lacks places for the frames to be sent.
    WireFull = 27,
    // A buffer to be written is too short.
    ShortBuffer = 28,
}

// The layer that a reason belongs to.
#[derive(Clone, Copy, PartialEq, Eq, Debug)]
pub enum Layer {
    Operation = 1,
    Frame = 2,
    Run = 3,
}

impl Reason {
    // The number of the rules.
    pub fn number(self) -> u8
        ensures { result ≡ number_of self }
    {
        // Kept: the enum's values are the numbers of the rules, so a `From` or a `match` would say no more than the cast.
        self as u8
    }

    pub fn layer(self) -> Layer
        ensures { result ≡ layer_of self }
    {
        match self.number() {
            11..=18 => Layer::Frame,
            19..=20 => Layer::Operation,
            _ => Layer::Run,
        }
    }
}

// A refusal: why, and where: the first bit of the first bad field, or another place that goes with the reason, or 0.
// Its number and its layer are those of the reason, so the three cannot disagree.
#[derive(Clone, Copy, PartialEq, Eq, Debug)]
pub struct Fault {
    pub reason: Reason,
    pub place: u16,
}

impl Fault {
    pub fn new(reason: Reason, place: u16) -> Fault
        ensures { result ≡ fault reason place }
    {
        Fault { reason, place }
    }
}

// A reason alone is a fault at place 0, so a `?` passes it on.
impl From<Reason> for Fault {
    ghost from_gives = { λ reason e. e ≡ fault reason 0 };

    fn from(reason: Reason) -> Fault {
        Fault::new(reason, 0)
    }
}
