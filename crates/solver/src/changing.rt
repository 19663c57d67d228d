// A row made from the one before by what changed.
ghost use Rattle.std.specs.Prelude.{◌≡◌, ℕ, ◌+◌, ◌<◌, ◌≤◌, ◌⊎◌, length, true, IfSome, slice_index};
ghost use Rattle.solver.specs.Entries.{never};
ghost use Rattle.solver.specs.Inner.Changing.{Listed, Flagged, IsWorklist, KeepsFlags, ListsChanges};
ghost use Rattle.solver.specs.Inner.Rows.{IsNext};

use super::needing::RowNeeds;
use hopper::{Board, Graded};

// Gives the row the next one's entries at the places of the list.
pub(crate) fn take_over(row: &mut [u32], next: &[u32], list: &[u32], count: usize)
    requires room { count ≤ length list.now }
    requires row_room { (i : ℕ) → i < count → slice_index list.now i < length row.old }
    requires next_room { (i : ℕ) → i < count → slice_index list.now i < length next.now }
    ensures taken { (i : ℕ) → i < count → slice_index row.new (slice_index list.now i) ≡ slice_index next.now (slice_index list.now i) }
    ensures rest { (k : ℕ) → ¬ Listed list.now count k → slice_index row.new k ≡ slice_index row.old k }
{
    for i in 0..count {
        let place = list[i] as usize;
        row[place] = next[place];
    }
}

// Puts the place into the list unless it has a flag, flags it, and answers the new count, or nothing where the list is full.
pub(crate) fn add_place(
    place: u32,
    list: &mut [u32],
    flags: &mut [bool],
    count: usize,
) -> Option<usize>
    requires place { place < length flags.old }
    requires before { IsWorklist list.old count flags.old }
    ensures after { IfSome result (λ n. IsWorklist list.new n flags.new) }
    ensures flagged { IfSome result (λ _. Flagged flags.new place) }
    ensures kept { IfSome result (λ _. KeepsFlags flags.old flags.new) }
{
    if flags[place as usize] {
        return Some(count);
    }
    if count >= list.len() {
        return None;
    }
    list[count] = place;
    flags[place as usize] = true;
    Some(count + 1)
}

// Puts all places into the list, flags them, and answers how many they are.
pub(crate) fn add_all(list: &mut [u32], flags: &mut [bool]) -> usize
    requires room { length flags.old ≤ length list.old }
    requires fits { length flags.old ≤ never }
    ensures after { IsWorklist list.new result flags.new }
    ensures flagged { (p : ℕ) → p < length flags.new → Flagged flags.new p }
{
    for place in 0..flags.len() {
        list[place] = place as u32;
        flags[place] = true;
    }
    flags.len()
}

impl<B: Board, V: Graded> RowNeeds<'_, '_, B, V> {
    // Makes again the entries of the places of the list, takes their flags, and lists the places where they differ from the row's: answers how many these are.
    pub(crate) fn remake(
        &self,
        next: &mut [u32],
        list: &[u32],
        count: usize,
        flags: &mut [bool],
        changed: &mut [u32],
    ) -> usize
        requires next_room { (B.Board.game self.now.table.now.board.now).places ≤ length next.old }
        requires list_room { count ≤ length list.now }
        requires changed_room { count ≤ length changed.old }
        requires inside { (i : ℕ) → i < count → slice_index list.now i < (B.Board.game self.now.table.now.board.now).places }
        requires flags_room { (B.Board.game self.now.table.now.board.now).places ≤ length flags.old }
        requires same { (k : ℕ) → k < (B.Board.game self.now.table.now.board.now).places → slice_index next.old k ≡ slice_index self.now.row.now k }
        ensures made { (i : ℕ) → i < count → IsNext (B.Board.game self.now.table.now.board.now) (V.Graded.need self.now.vessel.now) self.now.row.now (slice_index list.now i) (slice_index next.new (slice_index list.now i)) }
        ensures others { (k : ℕ) → k < (B.Board.game self.now.table.now.board.now).places → (slice_index next.new k ≡ slice_index self.now.row.now k) ⊎ IsNext (B.Board.game self.now.table.now.board.now) (V.Graded.need self.now.vessel.now) self.now.row.now k (slice_index next.new k) }
        ensures past { (k : ℕ) → (B.Board.game self.now.table.now.board.now).places ≤ k → slice_index next.new k ≡ slice_index next.old k }
        ensures changes { ListsChanges (B.Board.game self.now.table.now.board.now).places self.now.row.now next.new changed.new result }
        ensures unflagged { (p : ℕ) → Flagged flags.new p → Flagged flags.old p × ¬ Listed list.now count p }
    {
        let mut kept = 0;
        for i in 0..count {
            let place = list[i];
            let at = place as usize;
            let entry = self.next_entry(place);
            flags[at] = false;
            if entry != self.row[at] {
                next[at] = entry;
                changed[kept] = place;
                kept += 1;
            }
        }
        kept
    }
}
