// Good fills, read off marks.
ghost use Rattle.std.specs.Prelude.{◌≡◌};
ghost use Rattle.shift.specs.Good.{is_good, pours_good};

use game::Edge;
use hopper::Vessel;
use solver::NEVER;

// Whether the marks, over a vessel with this top, call the fill of the place good. None above the top is.
pub fn marked_good(marks: &[u32], top: u32, place: u32, fill: u32) -> bool
    ensures { result ≡ is_good top marks.now place fill }
{
    let at = place as u64 * (top as u64 + 1) + fill as u64;
    fill <= top && marks.get(at as usize) == Some(&NEVER)
}

// Whether the vessel pours the move from this level to a good one.
pub(crate) fn pours_good<V: Vessel>(vessel: &V, marks: &[u32], level: u32, edge: Edge) -> bool
    ensures { result ≡ pours_good (V.Vessel.hopper vessel.now) marks.now level edge }
{
    let top = vessel.top();
    let poured = vessel.pour(level, edge.amount);
    poured.is_some_and(|level| marked_good(marks, top, edge.target, level))
}
