// Marks the fills of a line file from standard input with its own vessel, and says which are good at each place.
#![tactic(auto)]

use hopper::{AnyVessel, Board, Vessel};
use linefile::FileLine;
use linefile::input::file_bytes;
use solver::{NEVER, mark, marks_needed};
use std::io;

// The place's number, owner, how many of its fills are good, the lowest good fill, and its name.
fn print_place(rt: &HostRuntime, line: &FileLine, p: u32, fills: &[u32]) -> io::Result<()> {
    let (Some(owner), Some(name)) = (line.owner(p), line.name(p as usize)) else {
        return Ok(());
    };
    let text = name.text;
    let count = fills.iter().filter(|entry| **entry == NEVER).count();
    match fills.iter().position(|entry| *entry == NEVER) {
        Some(level) => println!(rt; "{p} {owner} {count} good from {level} {text}"),
        None => println!(rt; "{p} {owner} {count} good {text}"),
    }
}

// One line for each place, whose fills lie one after another in the marks.
fn print_marks<'x>(rt: &HostRuntime, line: &'x FileLine, vessel: &'x AnyVessel) -> io::Result<()> {
    let mut marks = vec![in rt.alloc(); 0u32; marks_needed(line, vessel)]?;
    match mark(rt.alloc(), line, vessel, &mut marks) {
        Err(fault) => println!(rt; "{fault}"),
        Ok(rounds) => {
            println!(rt; "{line} rounds {rounds}")?;
            let levels = vessel.top() as usize + 1;
            for (p, fills) in (0..line.places()).zip(marks.chunks_exact(levels)) {
                print_place(rt, line, p, fills)?;
            }
            Ok(())
        }
    }
}

fn main(rt: HostRuntime) -> io::Result<()> {
    let file = file_bytes(rt.alloc(), rt.stdin())?;
    match FileLine::try_from(file.as_slice()) {
        Err(fault) => println!(rt; "{fault}"),
        Ok(line) => print_marks(&rt, &line, &line.vessel()),
    }
}
