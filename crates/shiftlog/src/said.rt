// What a call answers, as it is printed.
use hopper::Fault;
use shift::Shift;
use std::fmt;

// What an accepted call says.
#[derive(Clone, Copy)]
pub(crate) enum Said {
    Opened,
    Ordered { mv: u32 },
    Done,
    Withdrawn,
    Arrived,
    Closed,
    Holds,
    DoesNotHold,
}

// Why a call was refused.
#[derive(Clone, Copy)]
pub(crate) enum Refused {
    ByRule(Fault),
    ShiftIsOpen,
    NoShift,
    NoOrder,
}

// Where a shift stands.
#[derive(Clone, Copy)]
pub(crate) struct Position {
    place: u32,
    level: u32,
}

// What a call said, and where the shift stands after a call that was made on it.
#[derive(Clone, Copy)]
pub(crate) struct Answer {
    pub(crate) said: Result<Said, Refused>,
    pub(crate) at: Option<Position>,
}

impl From<Fault> for Refused {
    fn from(fault: Fault) -> Refused {
        Refused::ByRule(fault)
    }
}

impl From<(u32, u32)> for Position {
    fn from((place, level): (u32, u32)) -> Position {
        Position { place, level }
    }
}

impl Answer {
    // The answer of a call that was made on this shift.
    pub(crate) fn made(shift: &Shift, said: Result<Said, Refused>) -> Answer {
        Answer {
            said,
            at: Some((shift.place(), shift.level()).into()),
        }
    }

    // The answer of a call that was not made on a shift.
    pub(crate) fn unmade(said: Result<Said, Refused>) -> Answer {
        Answer { said, at: None }
    }
}

impl fmt::Display for Said {
    fn fmt<W: fmt::Write>(&self, f: &mut fmt::Formatter<W>) -> fmt::Result {
        match self {
            Said::Opened => f.write_str("opened"),
            Said::Ordered { mv } => write!(f, "move {mv}"),
            Said::Done => f.write_str("done"),
            Said::Withdrawn => f.write_str("withdrawn"),
            Said::Arrived => f.write_str("arrived"),
            Said::Closed => f.write_str("closed"),
            Said::Holds => f.write_str("holds"),
            Said::DoesNotHold => f.write_str("does not hold"),
        }
    }
}

impl fmt::Display for Refused {
    fn fmt<W: fmt::Write>(&self, f: &mut fmt::Formatter<W>) -> fmt::Result {
        match self {
            Refused::ByRule(fault) => write!(f, "{fault}"),
            Refused::ShiftIsOpen => f.write_str("a shift is open"),
            Refused::NoShift => f.write_str("no shift is open"),
            Refused::NoOrder => f.write_str("no order is held"),
        }
    }
}

impl fmt::Display for Position {
    fn fmt<W: fmt::Write>(&self, f: &mut fmt::Formatter<W>) -> fmt::Result {
        let Position { place, level } = *self;
        write!(f, "at place {place} level {level}")
    }
}

impl fmt::Display for Answer {
    fn fmt<W: fmt::Write>(&self, f: &mut fmt::Formatter<W>) -> fmt::Result {
        match self.said {
            Ok(said) => write!(f, "{said}")?,
            Err(refused) => write!(f, "{refused}")?,
        }
        match self.at {
            Some(at) => write!(f, ", {at}"),
            None => Ok(()),
        }
    }
}
