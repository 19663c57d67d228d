// Whether a file is accepted, and how large its line is.
ghost use Rattle.std.specs.Prelude.{◌≡◌};
ghost use Rattle.hopper.specs.Refusing.{verdict};
ghost use Rattle.lineformat.specs.Checks.{read_checks};
ghost use Rattle.lineformat.specs.Laws.{AcceptsJustTheWritten};
ghost use Rattle.panel.specs.Told.{answer_numbers, Writes};
ghost use Rattle.panel.specs.Lines.{FileCounted};

use super::numbers::{FaultNumbers, tell, told};
use hopper::{Board, Fault};
use linefile::FileLine;
use solver::fills;

// Whether reading accepts the file.
fn check_file(file: &[u8]) -> Result<(), Fault>
    ensures { result ≡ verdict (read_checks file.now) }
{
    FileLine::try_from(file)?;
    Ok(())
}

// How many places the line of a file has, and how many entries its marks need.
fn count_file(file: &[u8]) -> Result<(u32, u64), Fault>
    ensures { FileCounted file.now result }
{
    let line = FileLine::try_from(file)?;
    Ok((line.places(), fills(&line, &line.vessel()) + 1))
}

#[unsafe(no_mangle)]
#[tactic(auto, using(lineformat::proofs::Laws::file_law))]
pub extern "C" fn hopper_check(file: &[u8]) -> FaultNumbers
    ensures answer { result ≡ answer_numbers (verdict (read_checks file.now)) }
    ensures law { AcceptsJustTheWritten file.now }
{
    told(check_file(file))
}

#[unsafe(no_mangle)]
pub extern "C" fn hopper_places(
    file: &[u8],
    places: &mut u32,
    fills_plus_one: &mut u64,
) -> FaultNumbers
    ensures { Writes result (places.old, fills_plus_one.old) (places.new, fills_plus_one.new) (FileCounted file.now) }
{
    let mut counts = (*places, *fills_plus_one);
    let answer = tell(count_file(file), &mut counts);
    (*places, *fills_plus_one) = counts;
    answer
}
