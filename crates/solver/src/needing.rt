// What the moves of a place need for a row, read from the table of all moves.
ghost use Rattle.std.specs.Prelude.{◌≡◌, ◌<◌, ◌≤◌, length};
ghost use Rattle.hopper.specs.Boards.{count_at};
ghost use Rattle.solver.specs.Inner.Rows.{NeededFor, IsNext, RightNeeds};

use super::edge_table::EdgeTable;
use super::preferring::preferred;
use hopper::{Board, Graded};

impl<B: Board> EdgeTable<'_, B> {
    // How many moves the place has.
    fn move_count(&self, place: u32) -> u32
        requires { place < (B.Board.game self.now.board.now).places }
        ensures { result ≡ count_at ((B.Board.game self.now.board.now).at place) }
    {
        (self.firsts[place as usize + 1] - self.firsts[place as usize]) as u32
    }
}

// A row of the places of a table, and what each move of the table needs for it.
#[derive(Drop)]
pub(crate) struct RowNeeds<'a, 't, B: Board, V: Graded> {
    pub(crate) table: &'a EdgeTable<'t, B>,
    pub(crate) vessel: &'a V,
    pub(crate) row: &'a [u32],
    pub(crate) needs: &'a [u32],
    ghost long: { (B.Board.game table.now.board.now).places ≤ length row.now },
    ghost room: { length table.now.edges.items ≤ length needs.now },
    ghost right: { RightNeeds (V.Graded.need vessel.now) row.now table.now.edges.items needs.now },
}

impl<B: Board, V: Graded> RowNeeds<'_, '_, B, V> {
    // What the place's move m needs, as the table of needs has it. The vessel and the row say what is right, and are not asked.
    fn needed(&self, place: u32, m: u32) -> u32
        requires place { place < (B.Board.game self.now.table.now.board.now).places }
        requires m { m < count_at ((B.Board.game self.now.table.now.board.now).at place) }
        ensures { NeededFor (B.Board.game self.now.table.now.board.now) (V.Graded.need self.now.vessel.now) self.now.row.now place m result }
    {
        self.needs[self.table.firsts[place as usize] + m as usize]
    }

    // The place's entry in the row after this one.
    pub(crate) fn next_entry(&self, place: u32) -> u32
        requires { place < (B.Board.game self.now.table.now.board.now).places }
        ensures { IsNext (B.Board.game self.now.table.now.board.now) (V.Graded.need self.now.vessel.now) self.now.row.now place result }
    {
        preferred(
            self.table.board.owner(place).unwrap(),
            self.table.move_count(place),
            |m| self.needed(place, m),
        )
    }
}
