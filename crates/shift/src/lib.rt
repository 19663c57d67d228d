// Shifts: opened at a good fill, and led on by orders, reports of them, and the moves that the other side makes.
#![tactic(auto)]

ghost use Rattle.std.specs.Prelude.{◌≡◌};

use hopper::Fault;

mod checks;
mod good;
mod moving;
mod numbers;
mod opening;
mod ordering;

pub use good::marked_good;

// A shift: the number that its opener chose, the place and the level where it stands, and the move of its open order.
#[derive(Drop)]
pub struct Shift {
    number: u32,
    place: u32,
    level: u32,
    opened: Option<u32>,
}

// A move that was ordered and is not reported yet: the number of the shift, its place, and the move's number.
// It can be neither copied nor let go; a done or a withdrawn report spends it.
pub struct Order {
    shift: u32,
    place: u32,
    mv: u32,
}

// A report was refused, and the order is handed back.
pub struct Returned {
    pub fault: Fault,
    pub order: Order,
}

// A shift could not be closed, and is handed back.
#[derive(Drop)]
pub struct StillOpen {
    pub fault: Fault,
    pub shift: Shift,
}

impl Shift {
    pub fn number(&self) -> u32
        ensures { result ≡ self.now.number }
    {
        self.number
    }

    pub fn place(&self) -> u32
        ensures { result ≡ self.now.place }
    {
        self.place
    }

    pub fn level(&self) -> u32
        ensures { result ≡ self.now.level }
    {
        self.level
    }

    // The move of the open order.
    pub fn opened(&self) -> Option<u32>
        ensures { result ≡ self.now.opened }
    {
        self.opened
    }
}

impl Order {
    // The move's number.
    pub fn mv(&self) -> u32
        ensures { result ≡ self.now.mv }
    {
        self.mv
    }
}
