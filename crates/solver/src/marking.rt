// How long each fill holds.
ghost use Rattle.std.specs.Prelude.{◌≡◌, ◌+◌, ◌<◌, ◌≤◌, length, min, IfSome};
ghost use Rattle.game.specs.Forced.{spill, unfolded};
ghost use Rattle.game.specs.Limits.{most_fills};
ghost use Rattle.solver.specs.Entries.{KeptFrom};
ghost use Rattle.solver.specs.Forcing.{ForcedMarks};
ghost use Rattle.solver.specs.Marking.{MarkPromises};

use super::budget::Looks;
use super::edge_table::EdgeTable;
use super::forcing::{forced, rounds_within};
use super::levels::spread_levels;
use super::settling::guessed;
use super::unfolded::{Unfolded, fills};
use hopper::limits::MOST_FILLS;
use hopper::{Board, Fault, Layer, Refusal, Vessel, check, pass};
use std::alloc::Global;

// kept as it is: no plainer, the struct of both is `Unfolded`, which `mark` makes; were it asked of the caller, each clause would name board and vessel through its fields.
// How many entries `mark` asks for: one for each fill and one for the spill. Where there are too many fills to mark, as many as for the most.
pub fn marks_needed<B: Board, V: Vessel>(board: &B, vessel: &V) -> usize
    ensures { result ≡ min (spill (B.Board.game board.now) (V.Vessel.hopper vessel.now).top) most_fills + 1 }
{
    fills(board, vessel).min(MOST_FILLS) as usize + 1
}

// Marks the fills by rounds where few looks are enough for that, else by the moves of the line alone, and answers the number of rounds if the heap has room
// for the work and the marks settle.
fn by_levels<B: Board, V: Vessel>(
    heap: Global,
    fills: &Unfolded<B, V>,
    target: u32,
    marks: &mut [u32],
) -> Option<u32>
    requires target { target < (unfolded (B.Board.game fills.now.board.now) (V.Vessel.hopper fills.now.vessel.now)).places }
    requires room { (unfolded (B.Board.game fills.now.board.now) (V.Vessel.hopper fills.now.vessel.now)).places ≤ length marks.old }
    ensures marked { IfSome result (ForcedMarks (unfolded (B.Board.game fills.now.board.now) (V.Vessel.hopper fills.now.vessel.now)) target marks.old marks.new) }
    ensures kept { KeptFrom (unfolded (B.Board.game fills.now.board.now) (V.Vessel.hopper fills.now.vessel.now)).places marks.old marks.new }
{
    let table = EdgeTable::new(heap, fills.board)?;
    let fills = Unfolded {
        board: &table,
        vessel: fills.vessel,
    };
    let levels = fills.vessel.top() as u64 + 1;
    let moves = levels.saturating_mul(table.edges.len() as u64);
    if let Ok(rounds) = rounds_within(&fills, target, marks, Looks::few(moves)) {
        return Some(rounds);
    }
    guessed(&fills, target, marks, |front| {
        spread_levels(heap, &table, fills.vessel, front)
    })
}

// Marks the fills, by the moves of the unfolded board where those of the line come to nothing, and answers the number of rounds.
fn fill_marks<B: Board, V: Vessel>(
    heap: Global,
    fills: &Unfolded<B, V>,
    target: u32,
    marks: &mut [u32],
) -> u32
    requires target { target < (unfolded (B.Board.game fills.now.board.now) (V.Vessel.hopper fills.now.vessel.now)).places }
    requires room { (unfolded (B.Board.game fills.now.board.now) (V.Vessel.hopper fills.now.vessel.now)).places ≤ length marks.old }
    ensures { ForcedMarks (unfolded (B.Board.game fills.now.board.now) (V.Vessel.hopper fills.now.vessel.now)) target marks.old marks.new result }
{
    match by_levels(heap, fills, target, marks) {
        Some(rounds) => rounds,
        None => forced(heap, fills, target, marks).unwrap(),
    }
}

// Finds, fill by fill, within how many moves the other side can bring about a refusal, and answers the largest of these numbers.
// On the unfolded board a refusal is a run that comes to the spill.
pub fn mark<'x, B: Board, V: Vessel>(
    heap: Global,
    board: &'x B,
    vessel: &'x V,
    marks: &mut [u32],
) -> Result<u32, Fault>
    ensures { MarkPromises (B.Board.game board.now) (V.Vessel.hopper vessel.now) marks.old marks.new result }
{
    let top = vessel.top();
    let count = fills(board, vessel);
    pass(&[
        check(
            count > MOST_FILLS,
            Refusal::TooManyFills,
            Layer::Rest,
            top as u64,
        ),
        check(
            (marks.len() as u64) < count + 1,
            Refusal::MarksTooShort,
            Layer::Rest,
            count + 1,
        ),
    ])?;
    let unfolded = Unfolded { board, vessel };
    Ok(fill_marks(heap, &unfolded, count as u32, marks))
}
