// Opening and closing a shift.
ghost use Rattle.std.specs.Prelude.{◌≡◌};
ghost use Rattle.hopper.specs.Refusing.{verdict};
ghost use Rattle.shift.specs.Checks.{open_checks};
ghost use Rattle.shift.specs.Answers.{OpenAnswers, CloseAnswers};
ghost use Rattle.shift.specs.StartingFill.{StartingFillsDecide};

use super::checks::marks_too_short;
use super::good::marked_good;
use super::{Shift, StillOpen};
use hopper::limits::MOST_FILLS;
use hopper::{Board, Fault, Layer, Refusal, Vessel, check, pass};
use solver::fills;

// Checks whether a shift can be opened at the place and the fill.
fn check_open<B: Board, V: Vessel>(
    board: &B,
    vessel: &V,
    marks: &[u32],
    place: u32,
    fill: u32,
) -> Result<(), Fault>
    ensures { result ≡ verdict (open_checks (B.Board.game board.now) (V.Vessel.hopper vessel.now) marks.now place fill) }
{
    // kept as it is: no plainer, each call says its checks in a table of its own, those that others have too.
    pass(&[
        check(
            fills(board, vessel) > MOST_FILLS,
            Refusal::TooManyFills,
            Layer::Rest,
            vessel.top() as u64,
        ),
        marks_too_short(board, vessel, marks),
        check(
            place >= board.places(),
            Refusal::NoSuchPlace,
            Layer::Rest,
            place as u64,
        ),
        check(
            fill > vessel.top(),
            Refusal::FillAboveTop,
            Layer::Rest,
            fill as u64,
        ),
        check(
            !marked_good(marks, vessel.top(), place, fill),
            Refusal::FillNotGood,
            Layer::Rest,
            place as u64,
        ),
    ])
}

impl Shift {
    // Opens a shift at a place and a fill that the marks call good.
    pub fn open<B: Board, V: Vessel>(
        number: u32,
        board: &B,
        vessel: &V,
        marks: &[u32],
        place: u32,
        fill: u32,
    ) -> Result<Shift, Fault>
        ensures answer { OpenAnswers (B.Board.game board.now) (V.Vessel.hopper vessel.now) marks.now number place fill result }
        ensures decides { StartingFillsDecide }
    {
        check_open(board, vessel, marks, place, fill)?;
        Ok(Shift {
            number,
            place,
            level: fill,
            opened: None,
        })
    }

    // Gives the shift up for the place and the level where it stood, unless an order is open.
    pub fn close(self) -> Result<(u32, u32), StillOpen>
        ensures { CloseAnswers self result }
    {
        if let Err(fault) = pass(&[self.order_still_open()]) {
            return Err(StillOpen { fault, shift: self });
        }
        Ok((self.place, self.level))
    }
}
