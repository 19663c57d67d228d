// The least fills that hold, row by row.
ghost use Rattle.std.specs.Prelude.{◌≡◌, ◌≤◌, length};
ghost use Rattle.hopper.specs.Faults.{fault};
ghost use Rattle.hopper.specs.declared.Layer.TheVariants.{Rest};
ghost use Rattle.hopper.specs.declared.Refusal.TheVariants.{RowsKeepChanging};
ghost use Rattle.solver.specs.Least.{LeastPromises};
ghost use Rattle.solver.specs.Inner.Rows.{NextRow, RowsAnswer};

use super::buffer::Entries;
use super::changing::{add_all, take_over};
use super::needing::RowNeeds;
use super::needs::fill_needs;
use super::origins::Origins;
use super::scratch::Scratch;
use hopper::{Board, Fault, Graded, Layer, Refusal, Vessel, check, pass};
use std::alloc::Global;

// Fills the buffer `next` with the row after `row`.
fn next_row<B: Board, V: Graded>(board: &B, vessel: &V, row: &[u32], next: &mut [u32])
    requires row_room { (B.Board.game board.now).places ≤ length row.now }
    requires next_room { (B.Board.game board.now).places ≤ length next.old }
    ensures { NextRow (B.Board.game board.now) (V.Graded.need vessel.now) (B.Board.game board.now).places row.now next.old next.new }
{
    let entries = Entries {
        board,
        entries: row,
    };
    let places = board.places() as usize;
    for (place, entry) in next[..places].iter_mut().enumerate() {
        *entry = entries.next_entry(vessel, place as u32);
    }
}

// The fault of rows that still change where the budget is used up.
fn keeps_changing(budget: u64) -> Fault
    ensures { result ≡ fault RowsKeepChanging Rest budget }
{
    Fault {
        refusal: Refusal::RowsKeepChanging,
        layer: Layer::Rest,
        spot: budget,
    }
}

// Makes whole rows until one is the next one too, and answers its number.
fn whole_rows<B: Board, V: Graded>(
    board: &B,
    vessel: &V,
    row: &mut [u32],
    next: &mut [u32],
    budget: u64,
) -> Result<u64, Fault>
    requires row_room { (B.Board.game board.now).places ≤ length row.old }
    requires next_room { (B.Board.game board.now).places ≤ length next.old }
    ensures { RowsAnswer (B.Board.game board.now) (V.Vessel.hopper vessel.now) row.old row.new next.old next.new budget result }
{
    let count = board.places() as usize;
    row[..count].fill(0);
    next_row(board, vessel, row, next);
    // kept as it is: no plainer, a `for` over the budget compares the rows once more after its last turn.
    let mut rounds = 0;
    while row[..count] != next[..count] {
        if rounds == budget {
            return Err(keeps_changing(budget));
        }
        row[..count].copy_from_slice(&next[..count]);
        next_row(board, vessel, row, next);
        rounds += 1;
    }
    Ok(rounds)
}

// Makes rows until one is the next one too, each from the one before by what changed, and answers its number.
fn changed_rows<B: Board, V: Graded>(
    origins: &Origins<B>,
    vessel: &V,
    row: &mut [u32],
    next: &mut [u32],
    budget: u64,
    scratch: &mut Scratch,
) -> Result<u64, Fault>
    requires needs_room { length origins.now.table.edges.items ≤ length scratch.old.needs.items }
    requires row_room { (B.Board.game origins.now.table.board.now).places ≤ length row.old }
    requires next_room { (B.Board.game origins.now.table.board.now).places ≤ length next.old }
    requires flags { (B.Board.game origins.now.table.board.now).places ≡ length scratch.old.flags.items }
    requires list_room { length scratch.old.flags.items ≤ length scratch.old.list.items }
    requires changed_room { length scratch.old.list.items ≤ length scratch.old.changed.items }
    ensures { RowsAnswer (B.Board.game origins.now.table.board.now) (V.Vessel.hopper vessel.now) row.old row.new next.old next.new budget result }
{
    let changed = scratch.changed.as_mut_slice();
    let list = scratch.list.as_mut_slice();
    let flags = scratch.flags.as_mut_slice();
    let needs = scratch.needs.as_mut_slice();
    let table = &origins.table;
    let count = flags.len();
    row[..count].fill(0);
    next[..count].fill(0);
    fill_needs(vessel, row, &table.edges, needs);
    let all = add_all(list, flags);
    let begun = RowNeeds {
        table,
        vessel,
        row,
        needs,
    };
    let mut changes = begun.remake(next, list, all, flags, changed);
    let mut rounds = 0;
    while changes > 0 {
        if rounds == budget {
            return Err(keeps_changing(budget));
        }
        take_over(row, next, changed, changes);
        let most = origins.lead_most(changed, changes);
        origins.refresh_all(vessel, row, changed, changes, most, needs);
        let again = origins.list_again(changed, changes, most, list, flags);
        let reached = RowNeeds {
            table,
            vessel,
            row,
            needs,
        };
        changes = reached.remake(next, list, again, flags, changed);
        rounds += 1;
    }
    Ok(rounds)
}

// Makes rows until one is the next one too, by what changed where the heap has room for that, and answers its number.
fn made_rows<B: Board, V: Graded>(
    heap: Global,
    board: &B,
    vessel: &V,
    row: &mut [u32],
    next: &mut [u32],
    budget: u64,
) -> Result<u64, Fault>
    requires row_room { (B.Board.game board.now).places ≤ length row.old }
    requires next_room { (B.Board.game board.now).places ≤ length next.old }
    ensures { RowsAnswer (B.Board.game board.now) (V.Vessel.hopper vessel.now) row.old row.new next.old next.new budget result }
{
    let Some(origins) = Origins::new(heap, board) else {
        return whole_rows(board, vessel, row, next, budget);
    };
    let Some(mut scratch) = Scratch::new(heap, board.places(), origins.table.edges.len()) else {
        return whole_rows(board, vessel, row, next, budget);
    };
    changed_rows(&origins, vessel, row, next, budget, &mut scratch)
}

// Fills both buffers with the first row that is the next one too, which is that of the least good fills, and answers its number.
// Row j is made of the lowest fills that last j moves.
pub fn least<B: Board, V: Graded>(
    heap: Global,
    board: &B,
    vessel: &V,
    row: &mut [u32],
    next: &mut [u32],
    budget: u64,
) -> Result<u64, Fault>
    ensures { LeastPromises (B.Board.game board.now) (V.Vessel.hopper vessel.now) row.old row.new next.old next.new budget result }
{
    let places = board.places();
    let count = places as usize;
    pass(&[check(
        row.len() < count || next.len() < count,
        Refusal::RowTooShort,
        Layer::Rest,
        places as u64,
    )])?;
    made_rows(heap, board, vessel, row, next, budget)
}
