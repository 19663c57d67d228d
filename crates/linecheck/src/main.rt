// Checks a line file from standard input: says what is in it and that the writer makes the same bytes of it again, or how it is refused.
#![tactic(auto)]

ghost use Rattle.std.specs.Prelude.{◌≡◌, ◌++◌, length, drop, MatchResult};
ghost use Rattle.linefile.specs.Held.{file_of};

use hopper::{Board, Fault};
use linefile::input::file_bytes;
use linefile::{FileLine, LineTables};
use lineformat::{MoveRecord, PlaceRecord};
use std::io;

// Writes the line of a file again, by way of two tables that have room for its records. What it writes is the file.
fn write_again(
    line: &FileLine,
    places: &mut [PlaceRecord],
    moves: &mut [MoveRecord],
    out: &mut [u8],
) -> Result<usize, Fault>
    ensures { MatchResult result (λ n. (n ≡ length (file_of line.now)) × (out.new ≡ file_of line.now ++ drop n out.old)) (λ _. out.new ≡ out.old) }
{
    line.unpack(places, moves)?;
    let (n, m) = (line.place_count(), line.move_count());
    let tables = LineTables {
        places: &places[0..n],
        moves: &moves[0..m],
        names: line.names(),
        kind: line.kind().number(),
        top: line.top(),
        draw: line.draw(),
    };
    tables.write(out)
}

// Whether the writer makes the bytes of the file again.
fn written_alike(rt: &HostRuntime, line: &FileLine, file: &[u8]) -> io::Result<bool> {
    let heap = rt.alloc();
    let mut places = vec![in heap; PlaceRecord::default(); line.place_count()]?;
    let mut moves = vec![in heap; MoveRecord::default(); line.move_count()]?;
    let mut out = vec![in heap; 0u8; file.len()]?;
    let written = write_again(line, &mut places, &mut moves, &mut out);
    Ok(written.is_ok_and(|n| n == file.len() && out.as_slice() == file))
}

// The place's number, owner, number of moves and name.
fn print_place(rt: &HostRuntime, line: &FileLine, p: u32) -> io::Result<()> {
    let (Some(owner), Some(moves), Some(name)) = (
        line.owner(p),
        line.moves(p),
        line.name(p as usize),
    ) else {
        return Ok(());
    };
    println!(rt; "{p} {owner} {moves} {}", name.text)
}

fn print_line(rt: &HostRuntime, line: &FileLine, file: &[u8]) -> io::Result<()> {
    let bytes = file.len();
    let alike = if written_alike(rt, line, file)? {
        "alike"
    } else {
        "otherwise"
    };
    println!(rt; "accepted {line}, {bytes} bytes, written again {alike}")?;
    // kept as it is: no plainer, a line answers by the number of a place
    for p in 0..line.places() {
        print_place(rt, line, p)?;
    }
    Ok(())
}

fn main(rt: HostRuntime) -> io::Result<()> {
    let file = file_bytes(rt.alloc(), rt.stdin())?;
    match FileLine::try_from(file.as_slice()) {
        Err(fault) => println!(rt; "{fault}"),
        Ok(line) => print_line(&rt, &line, &file),
    }
}
