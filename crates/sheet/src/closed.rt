// What a plan sheet says of a place over marks: its least good fill, and the move that an order gives out there.
ghost use Rattle.sheet.specs.Fills.{LeastMarkedGood, LeastGoodByMarks, OrderedMove, OrderedWhereGood};

use hopper::{Board, Vessel};
use shift::{Shift, marked_good};

// The least good fill of a place, by marks over a vessel with this top: the first that they call good.
pub fn least_marked_good(marks: &[u32], top: u32, place: u32) -> Option<u32>
    ensures value { LeastMarkedGood top marks.now place result }
    ensures least { LeastGoodByMarks top marks.now place result }
{
    (0..=top).find(|&fill| marked_good(marks, top, place, fill))
}

// The move that an order gives out to a shift opened at a place and a fill; none where opening or the order is refused.
pub fn ordered_move<B: Board, V: Vessel>(
    board: &B,
    vessel: &V,
    marks: &[u32],
    place: u32,
    fill: u32,
) -> Option<u32>
    ensures ordered { OrderedMove (B.Board.game board.now) (V.Vessel.hopper vessel.now) marks.now place fill result }
    ensures good { OrderedWhereGood (B.Board.game board.now) (V.Vessel.hopper vessel.now) marks.now place fill result }
{
    let mut shift = Shift::open(0, board, vessel, marks, place, fill).ok()?;
    let order = shift.order(board, vessel, marks).ok()?;
    let mv = order.mv();
    shift.withdrawn(order).unwrap();
    Some(mv)
}
