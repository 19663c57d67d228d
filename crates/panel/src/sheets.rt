// Plan sheets as numbers.
ghost use Rattle.std.specs.Prelude.{◌≡◌, ◌<◌, ◌≤◌, length};
ghost use Rattle.hopper.specs.Any.{any_hopper};
ghost use Rattle.lineformat.specs.Games.{game_of};
ghost use Rattle.linefile.specs.Held.{line_held};
ghost use Rattle.panel.specs.Told.{Writes};
ghost use Rattle.panel.specs.Sheets.{HeightSays, RowSays, RowsFilled, PlannedRow, PlannedSheet, MoveAt, OrderedRow, OrderedSheet, SheetAnswers, FileSheet};

use super::fills::{least_over, mark_line};
use super::numbers::{FaultNumbers, tell};
use gauge::height;
use hopper::{AnyVessel, Board, Fault, Graded, Layer, Refusal, Vessel, check, pass};
use linefile::FileLine;
use lineformat::MOST_PLACES;
use sheet::closed::{least_marked_good, ordered_move};
use sheet::entry_fill;
use solver::{NEVER, fills, plan};
use std::alloc::Global;

// The entries of a row with one for each place that a line can have.
const ROW_SIZE: usize = MOST_PLACES as usize;

// What a sheet says of one place: its number and owner, its least good fill, the height of that on the gauge, and our move from it.
#[repr(C)]
#[derive(Clone, Copy)]
pub struct RowNumbers {
    pub place: u32,
    pub owner: u32,
    pub fill: u32,
    pub height: u32,
    pub mv: u32,
}

fn height_of(fill: Option<u32>) -> u32
    ensures { HeightSays fill result }
{
    match fill {
        Some(litres) => height(litres).unwrap_or(NEVER),
        None => NEVER,
    }
}

// The row of a place, with this fill and this move.
fn row_of(line: &FileLine, place: u32, fill: Option<u32>, mv: Option<u32>) -> RowNumbers
    requires { place < (game_of (line_held line.now)).places }
    ensures { RowSays (game_of (line_held line.now)) place fill mv result }
{
    RowNumbers {
        place,
        owner: u32::from(line.owner(place).unwrap().number()),
        fill: fill.unwrap_or(NEVER),
        height: height_of(fill),
        mv: mv.unwrap_or(NEVER),
    }
}

// The row of a place by the least good fills, with the move planned on them.
fn planned_row<V: Graded>(line: &FileLine, vessel: &V, least: &[u32], place: u32) -> RowNumbers
    requires there { place < (game_of (line_held line.now)).places }
    requires long { (game_of (line_held line.now)).places ≤ length least.now }
    ensures { PlannedRow (game_of (line_held line.now)) (V.Vessel.hopper vessel.now) least.now place result }
{
    let mv = plan(line, vessel, least, place).ok();
    row_of(line, place, entry_fill(least[place as usize]), mv)
}

fn fill_planned<V: Graded>(line: &FileLine, vessel: &V, least: &[u32], rows: &mut [RowNumbers])
    requires long { (game_of (line_held line.now)).places ≤ length least.now }
    requires room { (game_of (line_held line.now)).places ≤ length rows.old }
    ensures { RowsFilled (game_of (line_held line.now)).places (PlannedRow (game_of (line_held line.now)) (V.Vessel.hopper vessel.now) least.now) rows.old rows.new }
{
    let places = line.places() as usize;
    for (place, row) in rows[..places].iter_mut().enumerate() {
        *row = planned_row(line, vessel, least, place as u32);
    }
}

// The sheet of a line over a vessel with rows, and how many rounds its least fills took.
fn planned_sheet<V: Graded>(
    heap: Global,
    line: &FileLine,
    vessel: &V,
    rows: &mut [RowNumbers],
) -> u64
    requires { (game_of (line_held line.now)).places ≤ length rows.old }
    ensures { PlannedSheet (game_of (line_held line.now)) (V.Vessel.hopper vessel.now) rows.old rows.new result }
{
    let mut row = [0; ROW_SIZE];
    let mut next = [0; ROW_SIZE];
    let budget = fills(line, vessel);
    let rounds = least_over(heap, line, vessel, &mut row, &mut next, budget).unwrap();
    fill_planned(line, vessel, &row, rows);
    rounds
}

// The move ordered at a fill, where there is one.
fn move_at(
    line: &FileLine,
    vessel: &AnyVessel,
    marks: &[u32],
    place: u32,
    fill: Option<u32>,
) -> Option<u32>
    ensures { MoveAt (game_of (line_held line.now)) (any_hopper vessel.now) marks.now place fill result }
{
    match fill {
        Some(level) => ordered_move(line, vessel, marks, place, level),
        None => None,
    }
}

// The row of a place by marks, with the move ordered at its least good fill.
fn ordered_row(line: &FileLine, vessel: &AnyVessel, marks: &[u32], place: u32) -> RowNumbers
    requires { place < (game_of (line_held line.now)).places }
    ensures { OrderedRow (game_of (line_held line.now)) (any_hopper vessel.now) marks.now place result }
{
    let fill = least_marked_good(marks, vessel.top(), place);
    let mv = move_at(line, vessel, marks, place, fill);
    row_of(line, place, fill, mv)
}

fn fill_ordered(line: &FileLine, vessel: &AnyVessel, marks: &[u32], rows: &mut [RowNumbers])
    requires { (game_of (line_held line.now)).places ≤ length rows.old }
    ensures { RowsFilled (game_of (line_held line.now)).places (OrderedRow (game_of (line_held line.now)) (any_hopper vessel.now) marks.now) rows.old rows.new }
{
    let places = line.places() as usize;
    for (place, row) in rows[..places].iter_mut().enumerate() {
        *row = ordered_row(line, vessel, marks, place as u32);
    }
}

// The sheet of a line by the marks of its fills, and their rounds.
fn ordered_sheet<'x>(
    heap: Global,
    line: &'x FileLine,
    vessel: &'x AnyVessel,
    marks: &mut [u32],
    rows: &mut [RowNumbers],
) -> Result<u64, Fault>
    requires { (game_of (line_held line.now)).places ≤ length rows.old }
    ensures { OrderedSheet (game_of (line_held line.now)) (any_hopper vessel.now) marks.old marks.new rows.old rows.new result }
{
    let rounds = mark_line(heap, line, vessel, marks)?;
    fill_ordered(line, vessel, marks, rows);
    Ok(u64::from(rounds))
}

fn sheet_line(
    heap: Global,
    line: &FileLine,
    marks: &mut [u32],
    rows: &mut [RowNumbers],
) -> Result<u64, Fault>
    ensures { SheetAnswers (line_held line.now) marks.old marks.new rows.old rows.new result }
{
    let places = line.places();
    pass(&[check(
        rows.len() < places as usize,
        Refusal::TableTooShort,
        Layer::Rest,
        places as u64,
    )])?;
    let vessel = line.vessel();
    match vessel {
        AnyVessel::OfLip(lip) => Ok(planned_sheet(heap, line, &lip, rows)),
        AnyVessel::OfDrawn(drawn) => Ok(planned_sheet(heap, line, &drawn, rows)),
        AnyVessel::OfClosed(_) => ordered_sheet(heap, line, &vessel, marks, rows),
    }
}

fn sheet_file(
    heap: Global,
    file: &[u8],
    marks: &mut [u32],
    rows: &mut [RowNumbers],
) -> Result<u64, Fault>
    ensures { FileSheet file.now marks.old marks.new rows.old rows.new result }
{
    let line = FileLine::try_from(file)?;
    sheet_line(heap, &line, marks, rows)
}

#[unsafe(no_mangle)]
pub extern "C" fn hopper_sheet(
    heap: Global,
    file: &[u8],
    marks: &mut [u32],
    rows: &mut [RowNumbers],
    rounds: &mut u64,
) -> FaultNumbers
    ensures { Writes result rounds.old rounds.new (FileSheet file.now marks.old marks.new rows.old rows.new) }
{
    tell(sheet_file(heap, file, marks, rows), rounds)
}
