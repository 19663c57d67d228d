// The parts of a weighted game: owners of places, and moves.
#![tactic(auto)]

ghost use Rattle.std.specs.Prelude.{◌≡◌, Some};
ghost use Rattle.game.specs.Owners.{owner_number, owner_text, NamesOwner};

use std::fmt;

// Who chooses the move at a place: we do, or the other side does.
#[derive(Clone, Copy, PartialEq, Eq, Debug)]
pub enum Owner {
    Ours = 0,
    Theirs = 1,
}

// A move: the place that it leads to, and the litres that it pours in, or takes out where the amount is negative.
#[derive(Clone, Copy, PartialEq, Eq, Debug)]
pub struct Edge {
    pub target: u32,
    pub amount: i32,
}

impl Owner {
    // The number by which a line file names the owner.
    // kept as it is: no plainer, `u8::from` would not say which number.
    pub fn number(self) -> u8
        ensures { result ≡ owner_number self }
    {
        self as u8
    }
}

// A number that names no owner.
#[derive(Clone, Copy, PartialEq, Eq, Debug)]
pub struct UnknownOwner(pub u8);

// The owner that a line file names by the number.
impl TryFrom<u8> for Owner {
    type Error = UnknownOwner;

    ghost try_from_gives = { NamesOwner };

    fn try_from(number: u8) -> Result<Self, UnknownOwner> {
        match number {
            0 => Ok(Owner::Ours),
            1 => Ok(Owner::Theirs),
            _ => Err(UnknownOwner(number)),
        }
    }
}

// `ours` or `theirs`.
impl fmt::Display for Owner {
    ghost output = { λ o. Some (owner_text o) };

    fn fmt<W: fmt::Write>(&self, f: &mut fmt::Formatter<W>) -> fmt::Result {
        match self {
            Owner::Ours => write!(f, "ours"),
            Owner::Theirs => write!(f, "theirs"),
        }
    }
}
