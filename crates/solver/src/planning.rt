// The move that keeps to a row.
ghost use Rattle.std.specs.Prelude.{◌<◌, ℕ};
ghost use Rattle.std.specs.Bool.{Decides};
ghost use Rattle.std.specs.Option.{MatchOption};
ghost use Rattle.hopper.specs.Boards.{count_at};
ghost use Rattle.solver.specs.Entries.{entries};
ghost use Rattle.solver.specs.Planning.{NeedsNoMore, Planned, PlanAnswers, AnswersWhereGood, PlannedRunsArePoured};

use super::NEVER;
use super::buffer::Entries;
use game::Owner;
use hopper::{Board, Fault, Graded, Layer, Refusal, Vessel, check, pass};

// Whether the place's move m needs no more than the place's entry for its target's entry.
fn needs_no_more<B: Board, V: Graded>(row: &Entries<B>, vessel: &V, place: u32, m: u32) -> bool
    requires place { place < (B.Board.game row.now.board.now).places }
    requires m { m < count_at ((B.Board.game row.now.board.now).at place) }
    ensures { Decides result (NeedsNoMore (B.Board.game row.now.board.now) (V.Vessel.hopper vessel.now) (entries row.now.entries.now) place m) }
{
    let entry = row.entries[place as usize];
    entry != NEVER && row.needed(vessel, place, m) <= entry
}

// The first move of the place that needs no more than the place's entry.
fn first_serving<B: Board, V: Graded>(row: &Entries<B>, vessel: &V, place: u32) -> Option<u32>
    requires { place < (B.Board.game row.now.board.now).places }
    ensures { MatchOption result ((m : ℕ) → ¬ NeedsNoMore (B.Board.game row.now.board.now) (V.Vessel.hopper vessel.now) (entries row.now.entries.now) place m) (Planned (B.Board.game row.now.board.now) (V.Vessel.hopper vessel.now) row.now.entries.now place) }
{
    if row.entries[place as usize] == NEVER {
        return None;
    }
    (0..row.move_count(place)).find(
        |&m|
            requires { m < count_at ((B.Board.game row.now.board.now).at place) }
        { needs_no_more(row, vessel, place, m) },
    )
}

// The first move of the place that needs no more than the place's entry for its target's entry.
pub fn plan<B: Board, V: Graded>(
    board: &B,
    vessel: &V,
    row: &[u32],
    place: u32,
) -> Result<u32, Fault>
    ensures answer { PlanAnswers (B.Board.game board.now) (V.Vessel.hopper vessel.now) row.now place result }
    ensures served { AnswersWhereGood (B.Board.game board.now) (V.Vessel.hopper vessel.now) row.now place result }
    ensures runs { PlannedRunsArePoured (B.Board.game board.now) (V.Vessel.hopper vessel.now) row.now }
{
    let places = board.places();
    let theirs = board.owner(place) == Some(Owner::Theirs);
    pass(&[
        check(
            place >= places,
            Refusal::NoSuchPlace,
            Layer::Rest,
            place as u64,
        ),
        check(
            row.len() < places as usize,
            Refusal::RowTooShort,
            Layer::Rest,
            places as u64,
        ),
        check(theirs, Refusal::PlanAtTheirs, Layer::Rest, place as u64),
    ])?;
    let unserved = Fault {
        refusal: Refusal::NoMoveServes,
        layer: Layer::Rest,
        spot: place as u64,
    };
    let row = Entries {
        board,
        entries: row,
    };
    first_serving(&row, vessel, place).ok_or(unserved)
}
