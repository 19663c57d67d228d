// A buffer that tells of the places of a board.
ghost use Rattle.std.specs.Prelude.{◌≡◌, ◌<◌, ◌≤◌, length};
ghost use Rattle.std.specs.Bool.{Decides};
ghost use Rattle.game.specs.Forced.{ForcesInto};
ghost use Rattle.hopper.specs.Boards.{owner_at, step_at, count_at};
ghost use Rattle.solver.specs.Inner.Marks.{MarkedBelow, LeadsTo};
ghost use Rattle.solver.specs.Inner.Rows.{NeededFor, IsNext};

use super::NEVER;
use super::preferring::preferred;
use game::{Edge, Owner};
use hopper::{Board, Graded};

// A buffer with an entry for each place of the board: a mark, or the place's level in a row.
#[derive(Drop)]
pub(crate) struct Entries<'a, B: Board> {
    pub(crate) board: &'a B,
    pub(crate) entries: &'a [u32],
    ghost long: { (B.Board.game board.now).places ≤ length entries.now },
}

impl<B: Board> Entries<'_, B> {
    // Who chooses at the place.
    // kept as it is: no plainer, a struct for a place that is there would be made anew for each place
    pub(crate) fn owner(&self, place: u32) -> Owner
        requires { place < (B.Board.game self.now.board.now).places }
        ensures { owner_at ((B.Board.game self.now.board.now).at place) ≡ Some result }
    {
        self.board.owner(place).unwrap()
    }

    // How many moves the place has.
    pub(crate) fn move_count(&self, place: u32) -> u32
        requires { place < (B.Board.game self.now.board.now).places }
        ensures { result ≡ count_at ((B.Board.game self.now.board.now).at place) }
    {
        self.board.moves(place).unwrap()
    }

    // Its move m.
    // kept as it is: no plainer, a struct for a move that is there would be made anew for each move
    #[inline(always)]
    pub(crate) fn move_at(&self, place: u32, m: u32) -> Edge
        requires { m < count_at ((B.Board.game self.now.board.now).at place) }
        ensures answered { step_at ((B.Board.game self.now.board.now).at place) m ≡ Some result }
        ensures inside { result.target < (B.Board.game self.now.board.now).places }
    {
        self.board.step(place, m).unwrap()
    }

    // Whether its move m leads to an entry below the round.
    fn leads_below(&self, place: u32, m: u32, round: u32) -> bool
        requires { m < count_at ((B.Board.game self.now.board.now).at place) }
        ensures { Decides result (LeadsTo (B.Board.game self.now.board.now) (MarkedBelow self.now.entries.now round) place m) }
    {
        self.entries[self.move_at(place, m).target as usize] < round
    }

    // Whether the other side can force one move from the place to an entry below the round, and how many moves had to be looked at before the one that decides:
    // of ours one that leads elsewhere, of theirs one that leads there.
    pub(crate) fn can_force(&self, place: u32, round: u32) -> (bool, u32)
        requires { place < (B.Board.game self.now.board.now).places }
        ensures { Decides result.0 (ForcesInto (B.Board.game self.now.board.now) (MarkedBelow self.now.entries.now round) place) }
    {
        let count = self.move_count(place);
        let mut moves = 0..count;
        match self.owner(place) {
            Owner::Ours => {
                let elsewhere = moves.find(
                    |&m|
                        requires { m < count_at ((B.Board.game self.now.board.now).at place) }
                    { !self.leads_below(place, m, round) },
                );
                (elsewhere.is_none(), elsewhere.unwrap_or(count))
            }
            Owner::Theirs => {
                let there = moves.find(
                    |&m|
                        requires { m < count_at ((B.Board.game self.now.board.now).at place) }
                    { self.leads_below(place, m, round) },
                );
                (there.is_some(), there.unwrap_or(count))
            }
        }
    }

    // What its move m needs for its target's entry, never where no level is enough.
    pub(crate) fn needed<V: Graded>(&self, vessel: &V, place: u32, m: u32) -> u32
        requires { m < count_at ((B.Board.game self.now.board.now).at place) }
        ensures { NeededFor (B.Board.game self.now.board.now) (V.Graded.need vessel.now) self.now.entries.now place m result }
    {
        let edge = self.move_at(place, m);
        vessel
            .need(self.entries[edge.target as usize], edge.amount)
            .unwrap_or(NEVER)
    }

    // The place's entry in the next row.
    pub(crate) fn next_entry<V: Graded>(&self, vessel: &V, place: u32) -> u32
        requires { place < (B.Board.game self.now.board.now).places }
        ensures { IsNext (B.Board.game self.now.board.now) (V.Graded.need vessel.now) self.now.entries.now place result }
    {
        preferred(
            self.owner(place),
            self.move_count(place),
            |m|
                requires { m < count_at ((B.Board.game self.now.board.now).at place) }
            { self.needed(vessel, place, m) },
        )
    }
}
