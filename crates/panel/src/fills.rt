// The fills of a line: least good ones, and the mark of each.
ghost use Rattle.std.specs.Prelude.{◌≡◌};
ghost use Rattle.hopper.specs.Any.{any_hopper};
ghost use Rattle.lineformat.specs.Games.{game_of, hopper_of};
ghost use Rattle.linefile.specs.Held.{line_held};
ghost use Rattle.panel.specs.Told.{Writes};
ghost use Rattle.solver.specs.Least.{LeastPromises};
ghost use Rattle.solver.specs.Marking.{MarkPromises};
ghost use Rattle.panel.specs.Lines.{FileMarked, OnGraded, FileLeast};

use super::numbers::{FaultNumbers, tell};
use hopper::{AnyVessel, Fault, Graded, Layer, Refusal, Vessel};
use linefile::FileLine;
use lineformat::Kind;
use solver::{least, mark};
use std::alloc::Global;

// Marks the fills of a line over a vessel of one kind.
fn mark_over<'x, V: Vessel>(
    heap: Global,
    line: &'x FileLine,
    vessel: &'x V,
    marks: &mut [u32],
) -> Result<u32, Fault>
    ensures { MarkPromises (game_of (line_held line.now)) (V.Vessel.hopper vessel.now) marks.old marks.new result }
{
    mark(heap, line, vessel, marks)
}

// Marks the fills of a line with its own vessel. Each kind has its marking, so that no pour asks for the kind.
pub(crate) fn mark_line<'x>(
    heap: Global,
    line: &'x FileLine,
    vessel: &'x AnyVessel,
    marks: &mut [u32],
) -> Result<u32, Fault>
    ensures { MarkPromises (game_of (line_held line.now)) (any_hopper vessel.now) marks.old marks.new result }
{
    match vessel {
        AnyVessel::OfLip(lip) => mark_over(heap, line, lip, marks),
        AnyVessel::OfClosed(closed) => mark_over(heap, line, closed, marks),
        AnyVessel::OfDrawn(drawn) => mark_over(heap, line, drawn, marks),
    }
}

fn mark_file(heap: Global, file: &[u8], marks: &mut [u32]) -> Result<u32, Fault>
    ensures { FileMarked file.now marks.old marks.new result }
{
    let line = FileLine::try_from(file)?;
    mark_line(heap, &line, &line.vessel(), marks)
}

#[unsafe(no_mangle)]
pub extern "C" fn hopper_mark(
    heap: Global,
    file: &[u8],
    marks: &mut [u32],
    rounds: &mut u32,
) -> FaultNumbers
    ensures { Writes result rounds.old rounds.new (FileMarked file.now marks.old marks.new) }
{
    tell(mark_file(heap, file, marks), rounds)
}

// Finds the least fills of a line over a vessel with rows.
pub(crate) fn least_over<V: Graded>(
    heap: Global,
    line: &FileLine,
    vessel: &V,
    row: &mut [u32],
    next: &mut [u32],
    budget: u64,
) -> Result<u64, Fault>
    ensures { LeastPromises (game_of (line_held line.now)) (V.Vessel.hopper vessel.now) row.old row.new next.old next.new budget result }
{
    least(heap, line, vessel, row, next, budget)
}

fn least_line(
    heap: Global,
    line: &FileLine,
    row: &mut [u32],
    next: &mut [u32],
    budget: u64,
) -> Result<u64, Fault>
    ensures { OnGraded (LeastPromises (game_of (line_held line.now)) (hopper_of (line_held line.now)) row.old row.new next.old next.new budget result) ((row.new ≡ row.old) × (next.new ≡ next.old)) (line_held line.now) result }
{
    match line.vessel() {
        AnyVessel::OfLip(lip) => least_over(heap, line, &lip, row, next, budget),
        AnyVessel::OfDrawn(drawn) => least_over(heap, line, &drawn, row, next, budget),
        AnyVessel::OfClosed(_) => Err(Fault {
            refusal: Refusal::UnknownKind,
            layer: Layer::Rest,
            spot: u64::from(Kind::Closed.number()),
        }),
    }
}

fn least_file(
    heap: Global,
    file: &[u8],
    row: &mut [u32],
    next: &mut [u32],
    budget: u64,
) -> Result<u64, Fault>
    ensures { FileLeast file.now row.old row.new next.old next.new budget result }
{
    let line = FileLine::try_from(file)?;
    least_line(heap, &line, row, next, budget)
}

#[unsafe(no_mangle)]
pub extern "C" fn hopper_least(
    heap: Global,
    file: &[u8],
    row: &mut [u32],
    next: &mut [u32],
    budget: u64,
    rounds: &mut u64,
) -> FaultNumbers
    ensures { Writes result rounds.old rounds.new (FileLeast file.now row.old row.new next.old next.new budget) }
{
    tell(least_file(heap, file, row, next, budget), rounds)
}
