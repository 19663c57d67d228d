// The board of all the fills: each place at each level, and the spill that refused moves lead to.
ghost use Rattle.std.specs.Prelude.{◌≡◌};
ghost use Rattle.game.specs.Forced.{spill, unfolded};
ghost use Rattle.game.proofs.Unfold.{unfolded_is_well_formed};
ghost use Rattle.solver.specs.Inner.Marks.{spill_number};

use game::{Edge, Owner};
use hopper::limits::MOST_FILLS;
use hopper::{Board, Vessel};

// A board unfolded by the levels of a vessel.
#[derive(Clone, Copy)]
pub struct Unfolded<'a, B: Board, V: Vessel> {
    pub board: &'a B,
    pub vessel: &'a V,
}

// How many fills there are up to the top, at all places together.
pub fn fills<B: Board, V: Vessel>(board: &B, vessel: &V) -> u64
    ensures { result ≡ spill (B.Board.game board.now) (V.Vessel.hopper vessel.now).top }
{
    board.places() as u64 * (vessel.top() as u64 + 1)
}

impl<B: Board, V: Vessel> Unfolded<'_, B, V> {
    // How many fills there are, 0 where they are too many. It is the number of the spill.
    fn spill(&self) -> u32
        ensures { result ≡ spill_number (B.Board.game self.now.board.now) (V.Vessel.hopper self.now.vessel.now).top }
    {
        let count = fills(self.board, self.vessel);
        if count <= MOST_FILLS { count as u32 } else { 0 }
    }
}

impl<B: Board, V: Vessel> Board for Unfolded<'_, B, V> {
    ghost game = { λ u. unfolded (B.Board.game u.board.now) (V.Vessel.hopper u.vessel.now) };

    ghost formed = { λ u. unfolded_is_well_formed (B.Board.game u.board.now) (B.Board.formed u.board.now) (V.Vessel.hopper u.vessel.now) (V.Vessel.keeps u.vessel.now) };

    fn places(&self) -> u32 {
        self.spill() + 1
    }

    fn owner(&self, place: u32) -> Option<Owner> {
        let spill = self.spill();
        if place < spill {
            self.board.owner(place / (self.vessel.top() + 1))
        } else {
            (place == spill).then_some(Owner::Ours)
        }
    }

    // kept as it is: no plainer, joined with `owner` it would take a closure for the board's answer and a value for the spill's
    fn moves(&self, place: u32) -> Option<u32> {
        let spill = self.spill();
        if place < spill {
            self.board.moves(place / (self.vessel.top() + 1))
        } else {
            (place == spill).then_some(1)
        }
    }

    #[inline(always)]
    fn step(&self, place: u32, mv: u32) -> Option<Edge> {
        let spill = self.spill();
        if place >= spill {
            return (place == spill && mv == 0).then_some(Edge {
                target: spill,
                amount: 0,
            });
        }
        let width = self.vessel.top() + 1;
        let edge = self.board.step(place / width, mv)?;
        let target = self
            .vessel
            .pour(place % width, edge.amount)
            .map_or(spill, |level| edge.target * width + level);
        Some(Edge { target, amount: 0 })
    }
}
