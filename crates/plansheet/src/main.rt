// Prints the plan sheet of a line file from standard input: for each place the least good fill, its height on the gauge and our move.
#![tactic(auto)]

use gauge::height;
use hopper::{AnyVessel, Board, Closed, Graded, Vessel};
use linefile::FileLine;
use linefile::input::file_bytes;
use sheet::closed::{least_marked_good, ordered_move};
use sheet::{SheetRow, entry_fill};
use solver::{fills, least, mark, plan};
use std::io;

// The entries of the marks of a closed line's sheet.
const SHEET_MARKS: usize = 8_192;

// A place with its least good fill and our move from it; the height is that of the fill, as far as the gauge goes.
fn print_row(
    rt: &HostRuntime,
    line: &FileLine,
    place: u32,
    fill: Option<u32>,
    mv: Option<u32>,
) -> io::Result<()> {
    let (Some(owner), Some(name)) = (line.owner(place), line.name(place as usize)) else {
        return Ok(());
    };
    let row = SheetRow {
        place,
        owner,
        fill,
        height: fill.and_then(|litres| height(litres).ok()),
        mv,
        name: name.text,
    };
    println!(rt; "{row}")
}

// The rows over a lip or a drawn vessel: a row of least good fills, and the moves planned on it.
// kept as it is: no plainer, `line, vessel` go down once, and the vessel is of one of two types
fn print_planned<V: Graded>(
    rt: &HostRuntime,
    line: &FileLine,
    vessel: &V,
    row: &[u32],
) -> io::Result<()> {
    for (place, entry) in (0..line.places()).zip(row) {
        let mv = plan(line, vessel, row, place).ok();
        print_row(rt, line, place, entry_fill(*entry), mv)?;
    }
    Ok(())
}

fn graded_sheet<V: Graded>(rt: &HostRuntime, line: &FileLine, vessel: &V) -> io::Result<()> {
    let places = line.places();
    let budget = fills(line, vessel);
    let mut row = vec![in rt.alloc(); 0u32; places as usize]?;
    let mut next = vec![in rt.alloc(); 0u32; places as usize]?;
    match least(rt.alloc(), line, vessel, &mut row, &mut next, budget) {
        Err(fault) => println!(rt; "{fault}"),
        Ok(rounds) => {
            println!(rt; "{line} rounds {rounds}")?;
            print_planned(rt, line, vessel, &row)
        }
    }
}

// The rows over a closed vessel: the least good fills that the marks have, and the moves ordered there.
fn print_ordered(
    rt: &HostRuntime,
    line: &FileLine,
    vessel: &Closed,
    marks: &[u32],
) -> io::Result<()> {
    // kept as it is: no plainer, a line answers by the number of a place
    for place in 0..line.places() {
        let fill = least_marked_good(marks, vessel.top(), place);
        let mv = fill.and_then(|level| ordered_move(line, vessel, marks, place, level));
        print_row(rt, line, place, fill, mv)?;
    }
    Ok(())
}

fn closed_sheet<'x>(rt: &HostRuntime, line: &'x FileLine, vessel: &'x Closed) -> io::Result<()> {
    let mut marks = vec![in rt.alloc(); 0u32; SHEET_MARKS]?;
    match mark(rt.alloc(), line, vessel, &mut marks) {
        Err(fault) => println!(rt; "{fault}"),
        Ok(rounds) => {
            println!(rt; "{line} rounds {rounds}")?;
            print_ordered(rt, line, vessel, &marks)
        }
    }
}

fn print_sheet<'x>(rt: &HostRuntime, line: &'x FileLine, vessel: &'x AnyVessel) -> io::Result<()> {
    match vessel {
        AnyVessel::OfLip(lip) => graded_sheet(rt, line, lip),
        AnyVessel::OfDrawn(drawn) => graded_sheet(rt, line, drawn),
        AnyVessel::OfClosed(closed) => closed_sheet(rt, line, closed),
    }
}

fn main(rt: HostRuntime) -> io::Result<()> {
    let file = file_bytes(rt.alloc(), rt.stdin())?;
    match FileLine::try_from(file.as_slice()) {
        Err(fault) => println!(rt; "{fault}"),
        Ok(line) => print_sheet(&rt, &line, &line.vessel()),
    }
}
