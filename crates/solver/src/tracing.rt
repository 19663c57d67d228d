// From the places that changed back to those with a move to one of them.
ghost use Rattle.std.specs.Prelude.{◌≡◌, ℕ, ◌<◌, ◌≤◌, ◌⊎◌, length, IfSome, slice_index};
ghost use Rattle.solver.specs.Inner.Changing.{Flagged, IsWorklist, KeepsFlags};
ghost use Rattle.solver.specs.Inner.Rows.{RightNeed, RefreshesPart};
ghost use Rattle.solver.specs.Inner.Moves.{IsSource, FlagsSources};

use super::changing::{add_all, add_place};
use super::needs::fill_needs;
use super::origins::Origins;
use hopper::{Board, Graded, Vessel};

impl<B: Board> Origins<'_, B> {
    // Puts the sources of the place into the list, and answers the new count, or nothing where the list is full.
    fn add_sources(
        &self,
        target: u32,
        list: &mut [u32],
        flags: &mut [bool],
        count: usize,
    ) -> Option<usize>
        requires flags { (B.Board.game self.now.table.board.now).places ≤ length flags.old }
        requires before { IsWorklist list.old count flags.old }
        ensures after { IfSome result (λ n. IsWorklist list.new n flags.new) }
        ensures flagged { IfSome result (λ _. FlagsSources self.now.sources.begins.items self.now.sources.ends.items self.now.sources.places.items flags.new target) }
        ensures kept { IfSome result (λ _. KeepsFlags flags.old flags.new) }
    {
        let sources = &self.sources;
        let begin = *sources.begins.get(target as usize)?;
        let end = *sources.ends.get(target as usize)?;
        let mut count = count;
        for slot in begin..end {
            let place = *sources.places.get(slot)?;
            count = add_place(place, list, flags, count)?;
        }
        Some(count)
    }

    // Puts the sources of all places of a list into the other list, and answers its count, or nothing where it is full.
    fn add_all_sources(
        &self,
        changed: &[u32],
        changes: usize,
        list: &mut [u32],
        flags: &mut [bool],
    ) -> Option<usize>
        requires changes { changes ≤ length changed.now }
        requires flags { (B.Board.game self.now.table.board.now).places ≤ length flags.old }
        requires before { IsWorklist list.old 0 flags.old }
        ensures after { IfSome result (λ n. IsWorklist list.new n flags.new) }
        ensures flagged { IfSome result (λ _. (i : ℕ) → i < changes → FlagsSources self.now.sources.begins.items self.now.sources.ends.items self.now.sources.places.items flags.new (slice_index changed.now i)) }
    {
        let mut count = 0;
        for i in 0..changes {
            count = self.add_sources(changed[i], list, flags, count)?;
        }
        Some(count)
    }

    // Whether most moves lead to the places of the list, so that it is cheaper to go over all moves.
    pub(crate) fn lead_most(&self, targets: &[u32], count: usize) -> bool
        requires count { count ≤ length targets.now }
        requires inside { (i : ℕ) → i < count → slice_index targets.now i < (B.Board.game self.now.table.board.now).places }
    {
        let begins = self.arcs.begins.as_slice();
        let mut moves = 0usize;
        for i in 0..count {
            let target = targets[i] as usize;
            moves = moves.saturating_add(begins[target + 1].saturating_sub(begins[target]));
        }
        moves > self.table.edges.len() / 2
    }

    // Whether the places of the list have few sources, so that it is cheaper to look at these than at all places.
    fn has_few_sources(&self, changed: &[u32], changes: usize) -> bool
        requires { changes ≤ length changed.now }
    {
        let sources = &self.sources;
        let mut count = 0usize;
        for i in 0..changes {
            let target = changed[i] as usize;
            if let (Some(begin), Some(end)) = (
                sources.begins.get(target),
                sources.ends.get(target),
            ) {
                count = count.saturating_add(end.saturating_sub(*begin));
            }
        }
        count < sources.begins.len()
    }

    // Lists and flags the places whose entries may change after those of the changed places did, and answers how many they are: all places where most moves lead to changed ones.
    pub(crate) fn list_again(
        &self,
        changed: &[u32],
        changes: usize,
        most: bool,
        list: &mut [u32],
        flags: &mut [bool],
    ) -> usize
        requires changes { changes ≤ length changed.now }
        requires flags { (B.Board.game self.now.table.board.now).places ≡ length flags.old }
        requires room { length flags.old ≤ length list.old }
        requires before { IsWorklist list.old 0 flags.old }
        ensures after { IsWorklist list.new result flags.new }
        ensures flagged { (i p : ℕ) → i < changes → p < length flags.new → IsSource self.now.sources.begins.items self.now.sources.ends.items self.now.sources.places.items (slice_index changed.now i) p → Flagged flags.new p }
    {
        if !most
            && self.has_few_sources(changed, changes)
            && let Some(count) = self.add_all_sources(changed, changes, list, flags)
        {
            return count;
        }
        add_all(list, flags)
    }

    // Writes again what each of the moves to the places of the list needs, or what all moves need where those are most of them.
    pub(crate) fn refresh_all<V: Graded>(
        &self,
        vessel: &V,
        row: &[u32],
        changed: &[u32],
        changes: usize,
        most: bool,
        needs: &mut [u32],
    )
        requires changes { changes ≤ length changed.now }
        requires inside { (i : ℕ) → i < changes → slice_index changed.now i < (B.Board.game self.now.table.board.now).places }
        requires row_room { (B.Board.game self.now.table.board.now).places ≤ length row.now }
        requires room { length self.now.table.edges.items ≤ length needs.old }
        ensures parts { (i : ℕ) → i < changes → RefreshesPart (V.Graded.need vessel.now) row.now self.now.table.edges.items self.now.arcs.begins.items self.now.arcs.numbers.items self.now.arcs.slots.items (slice_index changed.now i) needs.new }
        ensures rest { (k : ℕ) → (slice_index needs.new k ≡ slice_index needs.old k) ⊎ RightNeed (V.Graded.need vessel.now) row.now self.now.table.edges.items needs.new k }
    {
        let edges = self.table.edges.as_slice();
        if most {
            fill_needs(vessel, row, edges, needs);
            return;
        }
        for i in 0..changes {
            self.arcs.refresh(vessel, row, edges, changed[i], needs);
        }
    }
}
