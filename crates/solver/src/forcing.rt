// Where the other side can force a run.
ghost use Rattle.std.specs.Prelude.{◌<◌, ◌≤◌, length, IfOk, IfSome};
ghost use Rattle.solver.specs.Entries.{never, KeptFrom};
ghost use Rattle.solver.specs.Inner.Marks.{RoundDone};
ghost use Rattle.solver.specs.Forcing.{ForcedMarks, ForcedPromises};

use super::NEVER;
use super::budget::{Budget, Looks, Unlimited};
use super::buffer::Entries;
use super::settling::guessed;
use super::spreading::spread;
use hopper::{Board, Fault, Layer, Refusal, check, pass};
use std::alloc::Global;

// Gives the round as mark to each place without one that can be forced into the places marked before, and says whether there was such a place.
fn mark_round<B: Board, L: Budget>(
    board: &B,
    marks: &mut [u32],
    round: u32,
    budget: &mut L,
) -> Result<bool, L::Exhausted>
    requires number { round < never }
    requires room { (B.Board.game board.now).places ≤ length marks.old }
    ensures done { IfOk result (RoundDone (B.Board.game board.now) (B.Board.game board.now).places marks.old marks.new round) }
    ensures kept { KeptFrom (B.Board.game board.now).places marks.old marks.new }
{
    // kept as it is: no plainer, each place asks for the marks of all places while its own is written.
    let mut fresh = false;
    budget.spend(board.places())?;
    for place in 0..board.places() {
        let entries = Entries {
            board,
            entries: marks,
        };
        if marks[place as usize] == NEVER {
            let (forced, looks) = entries.can_force(place, round);
            budget.spend(looks)?;
            if forced {
                marks[place as usize] = round;
                fresh = true;
            }
        }
    }
    Ok(fresh)
}

// Marks the places round by round, which takes no memory, and answers the number of rounds if the looks that this takes are within the budget.
pub(crate) fn rounds_within<B: Board, L: Budget>(
    board: &B,
    target: u32,
    marks: &mut [u32],
    mut budget: L,
) -> Result<u32, L::Exhausted>
    requires target { target < (B.Board.game board.now).places }
    requires room { (B.Board.game board.now).places ≤ length marks.old }
    ensures marked { IfOk result (ForcedMarks (B.Board.game board.now) target marks.old marks.new) }
    ensures kept { KeptFrom (B.Board.game board.now).places marks.old marks.new }
{
    let places = board.places();
    marks[..places as usize].fill(NEVER);
    marks[target as usize] = 0;
    // kept as it is: no plainer, a `for` has to name a last round and what comes after it, and a closure for `find` would change the marks
    let mut rounds = 0;
    while mark_round(board, marks, rounds + 1, &mut budget)? {
        rounds += 1;
    }
    Ok(rounds)
}

// Marks the places round by round, however long that takes, and answers the number of rounds.
fn by_rounds<B: Board>(board: &B, target: u32, marks: &mut [u32]) -> u32
    requires target { target < (B.Board.game board.now).places }
    requires room { (B.Board.game board.now).places ≤ length marks.old }
    ensures { ForcedMarks (B.Board.game board.now) target marks.old marks.new result }
{
    match rounds_within(board, target, marks, Unlimited) {
        Ok(rounds) => rounds,
        Err(never) => match never {},
    }
}

// Marks the places by spreading, in time that grows with the number of moves, and answers the number of rounds if the heap has room for the work and the marks settle.
fn by_spreading<B: Board>(heap: Global, board: &B, target: u32, marks: &mut [u32]) -> Option<u32>
    requires target { target < (B.Board.game board.now).places }
    requires room { (B.Board.game board.now).places ≤ length marks.old }
    ensures marked { IfSome result (ForcedMarks (B.Board.game board.now) target marks.old marks.new) }
    ensures kept { KeptFrom (B.Board.game board.now).places marks.old marks.new }
{
    guessed(
        board,
        target,
        marks,
        |front| spread(heap, board, target, front),
    )
}

// How many moves the places of a board have, all together.
fn all_moves<B: Board>(board: &B) -> u64 {
    let mut count = 0u64;
    for place in 0..board.places() {
        count = count.saturating_add(board.moves(place).unwrap_or(0) as u64);
    }
    count
}

// Marks the places, by rounds where few looks are enough for that or where spreading comes to nothing, and answers the number of rounds.
fn forced_marks<B: Board>(heap: Global, board: &B, target: u32, marks: &mut [u32]) -> u32
    requires target { target < (B.Board.game board.now).places }
    requires room { (B.Board.game board.now).places ≤ length marks.old }
    ensures { ForcedMarks (B.Board.game board.now) target marks.old marks.new result }
{
    if let Ok(rounds) = rounds_within(board, target, marks, Looks::few(all_moves(board))) {
        return rounds;
    }
    match by_spreading(heap, board, target, marks) {
        Some(rounds) => rounds,
        None => by_rounds(board, target, marks),
    }
}

// Finds, place by place, how few moves the other side needs to bring the run to the target, and answers the largest of these numbers.
pub fn forced<B: Board>(
    heap: Global,
    board: &B,
    target: u32,
    marks: &mut [u32],
) -> Result<u32, Fault>
    ensures { ForcedPromises (B.Board.game board.now) target marks.old marks.new result }
{
    let places = board.places();
    // kept as it is: no plainer, the four calls that refuse a place that is not there each say so in their own table.
    pass(&[
        check(
            target >= places,
            Refusal::NoSuchPlace,
            Layer::Rest,
            target as u64,
        ),
        check(
            marks.len() < places as usize,
            Refusal::MarksTooShort,
            Layer::Rest,
            places as u64,
        ),
    ])?;
    Ok(forced_marks(heap, board, target, marks))
}
