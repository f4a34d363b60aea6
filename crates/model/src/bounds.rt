ghost use Rattle.model.specs.Quorums.{stations as stations_of, quorum as quorum_of};
ghost use Rattle.model.specs.Watches.{Watched};
ghost use Rattle.std.specs.Prelude.{◌≡◌};

use crate::fault::Reason;
use crate::watch::Watch;

impl Watch {
    // The number of faulty stations is 1 to 5, and the watch length 1 to 63.
    pub fn new(f: u32, length: u32) -> Result<Watch, Reason>
        ensures { Watched f length result }
    {
        if f < 1 || f > 5 {
            return Err(Reason::FaultBound);
        }
        if length < 1 || length > 63 {
            return Err(Reason::WatchLength);
        }
        Ok(Watch {
            faults: f as u8,
            limit: length as u8,
        })
    }

    // How many stations there are.
    pub fn stations(self) -> u8
        ensures { result ≡ stations_of self.faults }
    {
        3 * self.faults + 1
    }

    // How many stations are a quorum.
    pub fn quorum(self) -> u8
        ensures { result ≡ quorum_of self.faults }
    {
        2 * self.faults + 1
    }
}
