use crate::reply::{Entry, Reply, Standing};
use calendar::Date;
use gates::GateCode;
use std::fmt;

// A date and a time of the day, as month-day hour:minute.
#[derive(Clone, Copy)]
struct When {
    date: Option<Date>,
    minute: u16,
}

impl fmt::Display for When {
    fn fmt<W: fmt::Write>(&self, f: &mut fmt::Formatter<W>) -> fmt::Result {
        match self.date {
            Some(date) => {
                let month = date.month;
                let day = date.day;
                write!(f, "{month:02}-{day:02} ")?;
            }
            None => write!(f, "no date ")?,
        }
        let hour = self.minute / 60;
        let minute = self.minute % 60;
        write!(f, "{hour:02}:{minute:02}")
    }
}

impl fmt::Display for Entry {
    fn fmt<W: fmt::Write>(&self, f: &mut fmt::Formatter<W>) -> fmt::Result {
        let bits = self.bits;
        let when = When {
            date: self.date,
            minute: self.minute,
        };
        let gate = self.gate;
        let opening = self.opening;
        write!(f, "{bits:016X} {when} gate {gate} ")?;
        match self.code {
            GateCode::Moved => write!(f, "moved to {opening} mm"),
            GateCode::NotFitted => write!(f, "not moved: it is not fitted"),
            GateCode::NoSuchDay => write!(f, "not moved: a common year has no day 366"),
            GateCode::TooEarly => write!(f, "not moved: earlier than its last moved order"),
        }
    }
}

impl fmt::Display for Reply {
    fn fmt<W: fmt::Write>(&self, f: &mut fmt::Formatter<W>) -> fmt::Result {
        match self {
            Reply::Board { gates, leap } => {
                let year = if *leap { "leap" } else { "common" };
                write!(f, "a board of {gates} gates in a {year} year")
            }
            Reply::Done(entry) => write!(f, "{entry}"),
            Reply::Refused(e) => {
                let number = e.reason.number();
                let place = e.place;
                write!(f, "refused: {number} at {place}")
            }
            Reply::NoBoard => write!(
                f,
                "no board yet: a line with its gates and its leap mark comes first"
            ),
            Reply::NoOrder => {
                write!(
                    f,
                    "no order: gate, opening, day, minute and number are wanted, 1 to 9 digits each, parted by one space"
                )
            }
        }
    }
}

impl fmt::Display for Standing {
    fn fmt<W: fmt::Write>(&self, f: &mut fmt::Formatter<W>) -> fmt::Result {
        let gate = self.gate;
        let opening = self.opening;
        let when = When {
            date: self.date,
            minute: self.minute,
        };
        write!(f, "gate {gate} stands at {opening} mm since {when}")
    }
}
