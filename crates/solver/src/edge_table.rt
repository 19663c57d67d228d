// The moves of a board in one table, so that asking for one reads no more than that.
ghost use Rattle.std.specs.Prelude.{◌≡◌, ℕ, ◌+◌, ◌<◌, ◌≤◌, length, true, IfSome, slice_index};
ghost use Rattle.std.specs.List.{slice_get};
ghost use Rattle.hopper.specs.Boards.{count_at, step_at};
ghost use Rattle.solver.specs.Inner.Moves.{HasMoves, Laid};

use game::{Edge, Owner};
use hopper::Board;
use std::alloc::Global;

// A move to fill a new table with.
const NO_EDGE: Edge = Edge {
    target: 0,
    amount: 0,
};

// A board and its moves, one place after another, and for each place the number of its first move there.
#[derive(Drop)]
pub(crate) struct EdgeTable<'a, B: Board> {
    pub(crate) board: &'a B,
    pub(crate) firsts: Vec<usize>,
    pub(crate) edges: Vec<Edge>,
    ghost long: { (B.Board.game board.now).places < length firsts.items },
    ghost counted: { (p : ℕ) → p < (B.Board.game board.now).places → slice_index firsts.items (p + 1) ≡ slice_index firsts.items p + count_at ((B.Board.game board.now).at p) },
    ghost inside: { (p : ℕ) → p < (B.Board.game board.now).places → slice_index firsts.items (p + 1) ≤ length edges.items },
    ghost held: { (p : ℕ) → p < (B.Board.game board.now).places → HasMoves (B.Board.game board.now) p edges.items (slice_index firsts.items p) },
}

// Puts the moves of the place into the table from the number `first` on, and answers the number after the last, or nothing where the table ends before.
fn lay_place<B: Board>(board: &B, place: u32, edges: &mut [Edge], first: usize) -> Option<usize>
    requires place { place < (B.Board.game board.now).places }
    requires first { first ≤ length edges.old }
    ensures end { IfSome result (λ end. (end ≡ first + count_at ((B.Board.game board.now).at place)) × (end ≤ length edges.old)) }
    ensures held { IfSome result (λ _. HasMoves (B.Board.game board.now) place edges.new first) }
    ensures before { (k : ℕ) → k < first → slice_get edges.new k ≡ slice_get edges.old k }
{
    let count = board.moves(place).unwrap();
    if edges.len() - first < count as usize {
        return None;
    }
    for m in 0..count {
        edges[first + m as usize] = board.step(place, m).unwrap();
    }
    Some(first + count as usize)
}

// Puts the moves of all places into the table, and the number of each place's first one, and says whether there was room.
fn lay_places<B: Board>(board: &B, firsts: &mut [usize], edges: &mut [Edge]) -> bool
    requires long { (B.Board.game board.now).places < length firsts.old }
    requires start { slice_index firsts.old 0 ≡ 0 }
    ensures { result ≡ true → Laid (B.Board.game board.now) (B.Board.game board.now).places firsts.new edges.new }
{
    for place in 0..board.places() {
        let at = place as usize;
        let Some(end) = lay_place(board, place, edges, firsts[at]) else {
            return false;
        };
        firsts[at + 1] = end;
    }
    true
}

impl<'a, B: Board> EdgeTable<'a, B> {
    // The moves of the board in memory of the heap, or nothing where that has no room.
    pub(crate) fn new(heap: Global, board: &'a B) -> Option<EdgeTable<'a, B>>
        ensures { IfSome result (λ t. t.board.now ≡ board.now) }
    {
        let places = board.places();
        let mut count = 0usize;
        for place in 0..places {
            count = count.saturating_add(board.moves(place).unwrap_or(0) as usize);
        }
        let Ok(mut firsts) = vec![in heap; 0usize; places as usize + 1] else {
            return None;
        };
        let Ok(mut edges) = vec![in heap; NO_EDGE; count] else {
            return None;
        };
        if !lay_places(board, &mut firsts, &mut edges) {
            return None;
        }
        Some(EdgeTable {
            board,
            firsts,
            edges,
        })
    }
}

impl<B: Board> Board for EdgeTable<'_, B> {
    ghost game = { λ t. B.Board.game t.board.now };

    ghost formed = { λ t. B.Board.formed t.board.now };

    fn places(&self) -> u32 {
        self.board.places()
    }

    fn owner(&self, place: u32) -> Option<Owner> {
        self.board.owner(place)
    }

    fn moves(&self, place: u32) -> Option<u32> {
        self.board.moves(place)
    }

    fn step(&self, place: u32, mv: u32) -> Option<Edge> {
        if place >= self.board.places() {
            return None;
        }
        let first = self.firsts[place as usize];
        let end = self.firsts[place as usize + 1];
        if mv as usize >= end - first {
            return None;
        }
        Some(self.edges[first + mv as usize])
    }
}
