// The checks that the calls of a shift share.
ghost use Rattle.std.specs.Prelude.{◌≡◌};
ghost use Rattle.shift.specs.Checks.{is_open_order, poured_to, marks_too_short, order_still_open, not_on_board, place_is, not_the_open_order, no_such_move, vessel_refuses};

use super::{Order, Shift};
use game::{Edge, Owner};
use hopper::{Board, Check, Layer, Refusal, Vessel, check};
use solver::fills;

// kept as it is: each call of a shift is shown a board, a vessel and marks anew, and believes what they say of places, levels and moves that are there.
// The marks have no room for the fills and the spill.
pub(crate) fn marks_too_short<B: Board, V: Vessel>(board: &B, vessel: &V, marks: &[u32]) -> Check
    ensures { result ≡ marks_too_short (B.Board.game board.now) (V.Vessel.hopper vessel.now) marks.now }
{
    let needed = fills(board, vessel) + 1;
    check(
        (marks.len() as u64) < needed,
        Refusal::MarksTooShort,
        Layer::Rest,
        needed,
    )
}

// The level that the vessel pours the move to.
pub(crate) fn poured_to<V: Vessel>(vessel: &V, level: u32, edge: Option<Edge>) -> Option<u32>
    ensures { result ≡ poured_to (V.Vessel.hopper vessel.now).table level edge }
{
    vessel.pour(level, edge?.amount)
}

impl Shift {
    // An order is open.
    pub(crate) fn order_still_open(&self) -> Check
        ensures { result ≡ order_still_open self.now }
    {
        check(
            self.opened.is_some(),
            Refusal::OrderStillOpen,
            Layer::Rest,
            self.place as u64,
        )
    }

    // The shift stands off this board, or above this vessel's top.
    pub(crate) fn not_on_board<B: Board, V: Vessel>(&self, board: &B, vessel: &V) -> Check
        ensures { result ≡ not_on_board (B.Board.game board.now) (V.Vessel.hopper vessel.now) self.now }
    {
        check(
            self.place >= board.places() || self.level > vessel.top(),
            Refusal::NotOnBoard,
            Layer::Rest,
            self.place as u64,
        )
    }

    // The place belongs to this owner.
    pub(crate) fn place_is<B: Board>(&self, board: &B, owner: Owner) -> Check
        ensures { result ≡ place_is (B.Board.game board.now) owner self.now }
    {
        let refusal = match owner {
            Owner::Ours => Refusal::PlaceIsOurs,
            Owner::Theirs => Refusal::PlaceIsTheirs,
        };
        check(
            board.owner(self.place) == Some(owner),
            refusal,
            Layer::Rest,
            self.place as u64,
        )
    }

    // Whether the order names this shift, its place and the move that is open.
    fn is_open_order(&self, order: &Order) -> bool
        ensures { result ≡ is_open_order self.now order.now }
    {
        self.opened.is_some_and(|mv| {
            order.shift == self.number && order.place == self.place && order.mv == mv
        })
    }

    // No order is open, or another than this.
    pub(crate) fn not_the_open_order(&self, order: &Order) -> Check
        ensures { result ≡ not_the_open_order self.now order.now }
    {
        check(
            !self.is_open_order(order),
            Refusal::NotTheOpenOrder,
            Layer::Rest,
            self.place as u64,
        )
    }

    // The place has no such move.
    pub(crate) fn no_such_move<B: Board>(&self, board: &B, mv: u32) -> Check
        ensures { result ≡ no_such_move (B.Board.game board.now) self.now mv }
    {
        check(
            board.step(self.place, mv).is_none(),
            Refusal::NoSuchMove,
            Layer::Rest,
            mv as u64,
        )
    }

    // The vessel refuses the move.
    pub(crate) fn vessel_refuses<B: Board, V: Vessel>(
        &self,
        board: &B,
        vessel: &V,
        mv: u32,
    ) -> Check
        ensures { result ≡ vessel_refuses (B.Board.game board.now) (V.Vessel.hopper vessel.now) self.now mv }
    {
        check(
            poured_to(vessel, self.level, board.step(self.place, mv)).is_none(),
            Refusal::VesselRefuses,
            Layer::Rest,
            self.place as u64,
        )
    }
}
