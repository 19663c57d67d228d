// Runs the calls of a shift, read from standard input, on the line of a file and its own vessel, and says what each one answers.
#![tactic(auto)]

use call::Call;
use desk::{Bench, Desk, Ended};
use hopper::AnyVessel;
use linefile::FileLine;
use linefile::input::file_bytes;
use lookahead::look_ahead;
use said::{Answer, Refused, Said};
use solver::{mark, marks_needed};
use std::fs::File;
use std::io::{BufRead, BufReader};
use std::{env, fmt, io};

mod call;
mod desk;
mod said;

// How many calls were accepted and refused, and how many lines were no calls.
#[derive(Clone, Copy, Default)]
struct Counts {
    accepted: u64,
    refused: u64,
    unread: u64,
}

impl Counts {
    // Counts a call that was answered.
    fn count(&mut self, answer: &Answer) {
        let counted = match answer.said {
            Ok(_) => &mut self.accepted,
            Err(_) => &mut self.refused,
        };
        *counted = counted.saturating_add(1);
    }
}

impl fmt::Display for Counts {
    fn fmt<W: fmt::Write>(&self, f: &mut fmt::Formatter<W>) -> fmt::Result {
        let Counts {
            accepted,
            refused,
            unread,
        } = *self;
        let calls = accepted.saturating_add(refused);
        write!(
            f,
            "calls {calls}, accepted {accepted}, refused {refused}, not understood {unread}"
        )
    }
}

// A line of input as it is shown, without the blanks around it.
fn shown(bytes: &[u8]) -> &str {
    match std::str::from_utf8(bytes).map(|text| text.trim()) {
        Ok("") => "(blank)",
        Ok(words) => words,
        Err(_) => "(no text)",
    }
}

// Looks ahead.
fn ahead(
    rt: &HostRuntime,
    line: &FileLine,
    place: u32,
    fill: u32,
    k: u32,
) -> Result<Said, Refused> {
    Ok(if look_ahead(rt.alloc(), line, place, fill, k)? {
        Said::Holds
    } else {
        Said::DoesNotHold
    })
}

// Makes the call of one line of input, and prints what it answers.
fn run_line(
    rt: &HostRuntime,
    bench: Bench,
    desk: Desk,
    text: &str,
    counts: &mut Counts,
) -> (Desk, io::Result<()>) {
    let Some(call) = call::read(text) else {
        counts.unread = counts.unread.saturating_add(1);
        return (desk, println!(rt; "{text}: not a call"));
    };
    let (next, answer) = match call {
        Call::Ahead { place, fill, k } => (
            desk,
            Answer::unmade(ahead(rt, bench.line, place, fill, k)),
        ),
        Call::OfShift(call) => desk.step(bench, call),
    };
    counts.count(&answer);
    (next, println!(rt; "{text}: {answer}"))
}

// Ends the shift that is still open, and says so.
fn run_end(rt: &HostRuntime, desk: Desk) -> io::Result<()> {
    let Some(Ended { withdrawn, at }) = desk.end() else {
        return Ok(());
    };
    if withdrawn {
        println!(rt; "at the end the order is withdrawn")?;
    }
    println!(rt; "at the end the shift is closed, {at}")
}

// Runs the calls, one to a line. Input or output that fails ends them, with the shift closed.
fn run_calls(rt: &HostRuntime, bench: Bench) -> io::Result<()> {
    let input = BufReader::new(rt.alloc(), rt.stdin())?;
    let mut counts = Counts::default();
    let mut desk = Desk::Closed;
    let mut ended = Ok(());
    for line in input.split(rt.alloc(), b'\n') {
        let bytes = match line {
            Ok(bytes) => bytes,
            Err(error) => {
                ended = Err(error);
                break;
            }
        };
        let (next, printed) = run_line(rt, bench, desk, shown(&bytes), &mut counts);
        desk = next;
        if printed.is_err() {
            ended = printed;
            break;
        }
    }
    let closed = run_end(rt, desk);
    ended?;
    closed?;
    println!(rt; "{counts}")
}

// Marks the fills of the line, and runs the calls on them. Where there are too many fills to mark no shift opens, but looking ahead needs no marks.
fn mark_and_run<'x>(rt: &HostRuntime, line: &'x FileLine, vessel: &'x AnyVessel) -> io::Result<()> {
    let mut marks = vec![in rt.alloc(); 0u32; marks_needed(line, vessel)]?;
    match mark(rt.alloc(), line, vessel, &mut marks) {
        Err(fault) => println!(rt; "{line} {fault}")?,
        Ok(rounds) => println!(rt; "{line} rounds {rounds}")?,
    }
    run_calls(
        rt,
        Bench {
            line,
            vessel,
            marks: &marks,
        },
    )
}

fn main(rt: HostRuntime) -> io::Result<()> {
    let mut words = env::args(&rt)?;
    let _program = words.next();
    let Some(path) = words.next() else {
        return println!(rt; "the path of a line file is missing");
    };
    // stays open while the calls are read
    let input = File::open(&rt, path.as_str())?;
    let file = file_bytes(rt.alloc(), &input)?;
    match FileLine::try_from(file.as_slice()) {
        Err(fault) => println!(rt; "{fault}"),
        Ok(line) => mark_and_run(&rt, &line, &line.vessel()),
    }
}
