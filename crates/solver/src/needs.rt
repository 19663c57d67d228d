// What each move needs, kept up to date by what changed.
ghost use Rattle.std.specs.Prelude.{◌≡◌, ℕ, ◌+◌, ◌<◌, ◌≤◌, ◌⊎◌, length, Some, slice_index};
ghost use Rattle.std.specs.List.{slice_get};
ghost use Rattle.game.specs.declared.Edge.{Edge};
ghost use Rattle.solver.specs.Entries.{as_entry, entries};
ghost use Rattle.solver.specs.Inner.Rows.{RightNeed, RightNeeds, AreWanted, RefreshesPart};
ghost use Rattle.solver.specs.Inner.Moves.{PartLeads};

use super::NEVER;
use super::arcs::Arcs;
use game::Edge;
use hopper::{Graded, Vessel};

// The lowest level from which the move leads to the wanted level or above, or never.
fn need_of<V: Graded>(vessel: &V, wanted: u32, edge: Edge) -> u32
    ensures { as_entry result ≡ V.Graded.need vessel.now wanted edge.amount }
{
    vessel.need(wanted, edge.amount).unwrap_or(NEVER)
}

// The same, with no branch that depends on what is wanted: where it is above the top, the vessel is asked at the top.
fn need_of_any<V: Graded>(vessel: &V, wanted: u32, edge: Edge) -> u32
    ensures { as_entry result ≡ V.Graded.need vessel.now wanted edge.amount }
{
    let top = vessel.top();
    let need = need_of(vessel, wanted.min(top), edge);
    if wanted > top { NEVER } else { need }
}

// Writes for each move its target's entry, which is the level that it is wanted to lead to.
fn put_wanted(row: &[u32], edges: &[Edge], wanted: &mut [u32])
    requires targets { (k : ℕ) (e : Edge) → slice_get edges.now k ≡ Some e → e.target < length row.now }
    requires room { length edges.now ≤ length wanted.old }
    ensures { AreWanted row.now edges.now wanted.new }
{
    for k in 0..edges.len() {
        wanted[k] = row[edges[k].target as usize];
    }
}

// Writes what each move needs in place of the level that it is wanted to lead to.
fn put_needs<V: Graded>(vessel: &V, edges: &[Edge], needs: &mut [u32])
    requires { length edges.now ≤ length needs.old }
    ensures { (k : ℕ) (e : Edge) → slice_get edges.now k ≡ Some e → entries needs.new k ≡ V.Graded.need vessel.now (slice_index needs.old k) e.amount }
{
    for k in 0..edges.len() {
        needs[k] = need_of_any(vessel, needs[k], edges[k]);
    }
}

// Writes what each move needs for its target's entry. One pass could not be done four moves at a time, and these two are.
pub(crate) fn fill_needs<V: Graded>(vessel: &V, row: &[u32], edges: &[Edge], needs: &mut [u32])
    requires targets { (k : ℕ) (e : Edge) → slice_get edges.now k ≡ Some e → e.target < length row.now }
    requires room { length edges.now ≤ length needs.old }
    ensures { RightNeeds (V.Graded.need vessel.now) row.now edges.now needs.new }
{
    put_wanted(row, edges, needs);
    put_needs(vessel, edges, needs);
}

impl Arcs {
    // Writes again what each move to the target needs for its entry.
    #[inline(never)]
    pub(crate) fn refresh<V: Graded>(
        &self,
        vessel: &V,
        row: &[u32],
        edges: &[Edge],
        target: u32,
        needs: &mut [u32],
    )
        requires target { target < length row.now }
        requires begins { target + 1 < length self.now.begins.items }
        requires led { PartLeads edges.now self.now.begins.items self.now.numbers.items self.now.amounts.items target }
        requires room { length edges.now ≤ length needs.old }
        ensures part { RefreshesPart (V.Graded.need vessel.now) row.now edges.now self.now.begins.items self.now.numbers.items self.now.slots.items target needs.new }
        ensures rest { (k : ℕ) → (slice_index needs.new k ≡ slice_index needs.old k) ⊎ RightNeed (V.Graded.need vessel.now) row.now edges.now needs.new k }
    {
        let wanted = row[target as usize];
        let numbers = self.numbers.as_slice();
        let amounts = self.amounts.as_slice();
        let begin = self.begins[target as usize];
        let end = self.begins[target as usize + 1];
        for slot in begin..end {
            let edge = Edge {
                target,
                amount: amounts[slot],
            };
            needs[numbers[slot] as usize] = need_of(vessel, wanted, edge);
        }
    }
}
