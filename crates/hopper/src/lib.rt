// Boards and vessels, and what every call of the planner answers where it refuses: a fault, by its table of checks.
#![tactic(auto)]

ghost use Rattle.std.specs.Prelude.{◌≡◌, ◌==◌, Some};
ghost use Rattle.hopper.specs.Faults.{refusal_number, layer_number, check, check_at};
ghost use Rattle.hopper.specs.Refusing.{verdict};
ghost use Rattle.hopper.specs.Texts.{refused_text};

use std::fmt;

pub mod any;
pub mod board;
pub mod closed;
pub mod drawn;
pub mod limits;
pub mod lip;
mod top;
pub mod vessel;

pub use any::AnyVessel;
pub use board::Board;
pub use closed::Closed;
pub use drawn::Drawn;
pub use lip::Lip;
pub use vessel::{Graded, Vessel};

// Why a call refuses. Each case says its number, its layer and its spot, and then the reason.
#[derive(Clone, Copy, PartialEq, Eq, Debug)]
pub enum Refusal {
    // 1, layer bytes, spot the longest that a file may be: the file has more bytes than any line file has
    FileTooLong = 1,
    // 2, layer bytes, spot its length: the file has no room for a trailer
    FileTooShort = 2,
    // 3, layer file, spot the field's offset: the file is of a version that is not known
    UnknownVersion = 3,
    // 4, layer file, spot the field's offset; in writing the number: the kind is none of lip, closed and drawn
    UnknownKind = 4,
    // 5, layer file, spot the field's offset; in writing the number: the number of places is out of range
    PlacesOutOfRange = 5,
    // 6, layer file, spot the field's offset; in writing the number: there are fewer moves than places, or too many
    MovesOutOfRange = 6,
    // 7, layer file, spot the field's offset; in writing, and in making a vessel, the number: the top or the draw is out of range
    VesselOutOfRange = 7,
    // 8, layer file, spot the field's offset: the distance back is not what the places and moves take
    WrongDistance = 8,
    // 9, layer bytes, spot the trailer's offset: the distance back leads beyond the start of the file
    DistancePastStart = 9,
    // 10, layer line, spot the place: a place record has a wrong owner, too long a name or no move
    BadPlaceRecord = 10,
    // 11, layer line, spot the number of places: the move counts or the name lengths do not add up
    TotalsDiffer = 11,
    // 12, layer file, spot the byte's offset: a byte of a name is no printable character
    BadNameByte = 12,
    // 13, layer line, spot the move's number in the file: a move leads to no place, or its amount is out of range
    BadMoveRecord = 13,
    // 14, layer rest, spot the entries needed: a table has no room for the records
    TableTooShort = 14,
    // 15, layer rest, spot the bytes needed: the output has no room for the file
    OutputTooShort = 15,
    // 16, layer rest, spot the top: there are too many fills to mark
    TooManyFills = 16,
    // 17, layer rest, spot the entries needed: the marks are too short
    MarksTooShort = 17,
    // 18, layer rest, spot the place asked for: there is no such place
    NoSuchPlace = 18,
    // 19, layer rest, spot the entries needed: a row is too short
    RowTooShort = 19,
    // 20, layer rest, spot the budget: within the budget each row differs from the next
    RowsKeepChanging = 20,
    // 21, layer rest, spot the place: a plan is asked for at a place of theirs
    PlanAtTheirs = 21,
    // 22, layer rest, spot the place: at this entry nothing can be planned
    NoMoveServes = 22,
    // 23, layer rest, spot the fill: the vessel cannot hold so much
    FillAboveTop = 23,
    // 24, layer rest, spot the number of moves: the look-ahead is over too many moves
    LookTooFar = 24,
    // 25, layer rest, spot the height: the height is above the gauge
    HeightAboveGauge = 25,
    // 26, layer rest, spot the litres: the gauge does not go up to so many litres
    LitresAboveGauge = 26,
    // 27, layer rest, spot the place: the mark of the fill is not never
    FillNotGood = 27,
    // 28, layer rest, spot the shift's place: an order is open
    OrderStillOpen = 28,
    // 29, layer rest, spot the shift's place: the shift stands off this board, or above this vessel's top
    NotOnBoard = 29,
    // 30, layer rest, spot the shift's place: the place is theirs
    PlaceIsTheirs = 30,
    // 31, layer rest, spot the shift's place: no move is poured to a good level
    NoGoodMove = 31,
    // 32, layer rest, spot the shift's place: this is not the open order
    NotTheOpenOrder = 32,
    // 33, layer rest, spot the shift's place: the vessel refuses the move
    VesselRefuses = 33,
    // 34, layer rest, spot the shift's place: the place is ours
    PlaceIsOurs = 34,
    // 35, layer rest, spot the move: there is no such move
    NoSuchMove = 35,
}

// Where a refusal comes from: the bytes of a file, its fields, its line, or all the rest.
#[derive(Clone, Copy, PartialEq, Eq, Debug)]
pub enum Layer {
    Bytes = 1,
    File = 2,
    Line = 3,
    Rest = 4,
}

// A refusal, its layer, and the spot: an offset, a length needed, a place or the number refused.
#[derive(Clone, Copy, PartialEq, Eq, Debug)]
pub struct Fault {
    pub refusal: Refusal,
    pub layer: Layer,
    pub spot: u64,
}

// One line of a call's table of checks: the fault that it refuses with, or nothing where it passes.
pub type Check = Option<Fault>;

impl Fault {
    // The number of the refusal.
    // kept as it is: no plainer, `u8::from` would not say which number of a fault.
    pub fn number(self) -> u8
        ensures { result ≡ refusal_number self.refusal }
    {
        self.refusal as u8
    }

    // Whether it is this refusal. Refusals are the same where their numbers are.
    pub fn is_refusal(self, refusal: Refusal) -> bool
        ensures { result ≡ (refusal_number self.refusal == refusal_number refusal) }
    {
        self.refusal == refusal
    }
}

impl Layer {
    // The number of the layer.
    // kept as it is: no plainer, `u8::from` would not say which number.
    pub fn number(self) -> u8
        ensures { result ≡ layer_number self }
    {
        self as u8
    }
}

// The check that refuses where a test is true.
pub fn check(fails: bool, refusal: Refusal, layer: Layer, spot: u64) -> Check
    ensures { result ≡ check fails refusal layer spot }
{
    found(fails.then_some(spot), refusal, layer)
}

// The check that refuses where a search has found something, and names what it found.
pub fn found(at: Option<u64>, refusal: Refusal, layer: Layer) -> Check
    ensures { result ≡ check_at at refusal layer }
{
    at.map(|spot| Fault {
        refusal,
        layer,
        spot,
    })
}

// Refuses with the fault of the first check that has one, and passes where none has.
pub fn pass(checks: &[Check]) -> Result<(), Fault>
    ensures { result ≡ verdict checks.now }
{
    for check in checks {
        if let Some(fault) = check {
            return Err(*fault);
        }
    }
    Ok(())
}

// A fault as every program of the planner prints it: `refused` with its number, its layer and its spot.
impl fmt::Display for Fault {
    ghost output = { λ f. Some (refused_text f) };

    fn fmt<W: fmt::Write>(&self, f: &mut fmt::Formatter<W>) -> fmt::Result {
        let number = self.number();
        let layer = self.layer.number();
        let spot = self.spot;
        write!(f, "refused {number} {layer} {spot}")
    }
}
