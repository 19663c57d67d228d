// Prints the plan sheet of each line file that it is given, with what marks and look-ahead say of the fills that its rows turn on, and from which places the other side can bring the run to the first.
#![tactic(auto)]

use gauge::height;
use hopper::{AnyVessel, Board};
use linefile::FileLine;
use linefile::input::file_bytes;
use lookahead::{MOST_AHEAD, look_ahead};
use sheet::closed::{least_marked_good, ordered_move};
use sheet::{NumberOr, SheetRow, entry_fill};
use solver::{forced, mark, marks_needed};
use std::fs::File;
use std::{env, io};

// For how many of the next moves a fill holds, as far as looking ahead goes.
fn moves_held(rt: &HostRuntime, line: &FileLine, place: u32, fill: u32) -> u32 {
    let holds = |k: &u32| look_ahead(rt.alloc(), line, place, fill, *k).unwrap_or(false);
    (1..=MOST_AHEAD).filter(holds).last().unwrap_or(0)
}

// The mark of a fill, and how far looking ahead sees it hold.
fn print_fill(
    rt: &HostRuntime,
    line: &FileLine,
    marks: &[u32],
    place: u32,
    fill: u32,
) -> io::Result<()> {
    let at = place as u64 * (line.top() as u64 + 1) + fill as u64;
    let Some(entry) = marks.get(at as usize) else {
        return Ok(());
    };
    let mark = NumberOr {
        number: entry_fill(*entry),
        word: "never",
    };
    let held = moves_held(rt, line, place, fill);
    println!(rt; "  {fill}: mark {mark}, ahead {held} of {MOST_AHEAD}")
}

// The row of the sheet, then one litre less than its fill and the fill itself; the full vessel where no fill is good.
fn print_place<'x>(
    rt: &HostRuntime,
    line: &'x FileLine,
    vessel: &'x AnyVessel,
    marks: &[u32],
    place: u32,
) -> io::Result<()> {
    let (Some(owner), Some(name)) = (line.owner(place), line.name(place as usize)) else {
        return Ok(());
    };
    let fill = least_marked_good(marks, line.top(), place);
    let litres = fill.unwrap_or(line.top());
    let row = SheetRow {
        place,
        owner,
        fill,
        height: fill.and_then(|litres| height(litres).ok()),
        mv: ordered_move(line, vessel, marks, place, litres),
        name: name.text,
    };
    println!(rt; "{row}")?;
    // kept as it is: no plainer, at most two levels, and each is printed
    for level in litres.saturating_sub(1)..=litres {
        print_fill(rt, line, marks, place, level)?;
    }
    Ok(())
}

// Within how many moves the other side can bring the run from each place to place 0.
fn print_forced(rt: &HostRuntime, line: &FileLine) -> io::Result<()> {
    let mut marks = vec![in rt.alloc(); 0u32; Board::places(line) as usize]?;
    match forced(rt.alloc(), line, 0, &mut marks) {
        Err(fault) => println!(rt; "{fault}"),
        Ok(rounds) => {
            println!(rt; "to place 0, rounds {rounds}")?;
            for (place, entry) in marks.iter().enumerate() {
                let within = NumberOr {
                    number: entry_fill(*entry),
                    word: "never",
                };
                println!(rt; "  from {place}: {within}")?;
            }
            Ok(())
        }
    }
}

fn print_line<'x>(rt: &HostRuntime, line: &'x FileLine, vessel: &'x AnyVessel) -> io::Result<()> {
    let mut marks = vec![in rt.alloc(); 0u32; marks_needed(line, vessel)]?;
    match mark(rt.alloc(), line, vessel, &mut marks) {
        Err(fault) => println!(rt; "{fault}"),
        Ok(rounds) => {
            println!(rt; "{line} rounds {rounds}")?;
            // kept as it is: no plainer, a line answers by the number of a place
            for place in 0..line.places() {
                print_place(rt, line, vessel, &marks, place)?;
            }
            print_forced(rt, line)
        }
    }
}

fn print_file(rt: &HostRuntime, path: &str) -> io::Result<()> {
    let file = file_bytes(rt.alloc(), File::open(rt, path)?)?;
    match FileLine::try_from(file.as_slice()) {
        Err(fault) => println!(rt; "{fault}"),
        Ok(line) => print_line(rt, &line, &line.vessel()),
    }
}

fn main(rt: HostRuntime) -> io::Result<()> {
    let mut words = env::args(&rt)?;
    let _program = words.next();
    for path in words {
        print_file(&rt, path.as_str())?;
    }
    Ok(())
}
