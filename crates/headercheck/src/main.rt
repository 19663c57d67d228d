// Holds the numbers that the header for C defines against those of the library, and says of each whether they are the same.
#![tactic(auto)]

use game::Owner;
use hopper::limits::MOST_FILLS;
use hopper::{Layer, Refusal};
use linefile::input::file_bytes;
use lineformat::{LONGEST_FILE, MOST_PLACES};
use solver::NEVER;
use std::fs::File;
use std::{env, io};

// The library's number for a name of the header.
fn in_library(name: &str) -> Option<u64> {
    let number = match name {
        "HOPPER_ACCEPTED" => 0,
        "HOPPER_NEVER" => u64::from(NEVER),
        "HOPPER_MOST_PLACES" => MOST_PLACES,
        "HOPPER_MOST_MARKS" => MOST_FILLS + 1,
        "HOPPER_LONGEST_FILE" => LONGEST_FILE as u64,
        "HOPPER_OURS" => u64::from(Owner::Ours.number()),
        "HOPPER_THEIRS" => u64::from(Owner::Theirs.number()),
        "HOPPER_BYTES" => u64::from(Layer::Bytes.number()),
        "HOPPER_FILE" => u64::from(Layer::File.number()),
        "HOPPER_LINE" => u64::from(Layer::Line.number()),
        "HOPPER_REST" => u64::from(Layer::Rest.number()),
        "HOPPER_FILE_TOO_LONG" => Refusal::FileTooLong as u64,
        "HOPPER_FILE_TOO_SHORT" => Refusal::FileTooShort as u64,
        "HOPPER_UNKNOWN_VERSION" => Refusal::UnknownVersion as u64,
        "HOPPER_UNKNOWN_KIND" => Refusal::UnknownKind as u64,
        "HOPPER_PLACES_OUT_OF_RANGE" => Refusal::PlacesOutOfRange as u64,
        "HOPPER_MOVES_OUT_OF_RANGE" => Refusal::MovesOutOfRange as u64,
        "HOPPER_VESSEL_OUT_OF_RANGE" => Refusal::VesselOutOfRange as u64,
        "HOPPER_WRONG_DISTANCE" => Refusal::WrongDistance as u64,
        "HOPPER_DISTANCE_PAST_START" => Refusal::DistancePastStart as u64,
        "HOPPER_BAD_PLACE_RECORD" => Refusal::BadPlaceRecord as u64,
        "HOPPER_TOTALS_DIFFER" => Refusal::TotalsDiffer as u64,
        "HOPPER_BAD_NAME_BYTE" => Refusal::BadNameByte as u64,
        "HOPPER_BAD_MOVE_RECORD" => Refusal::BadMoveRecord as u64,
        "HOPPER_TABLE_TOO_SHORT" => Refusal::TableTooShort as u64,
        "HOPPER_TOO_MANY_FILLS" => Refusal::TooManyFills as u64,
        "HOPPER_MARKS_TOO_SHORT" => Refusal::MarksTooShort as u64,
        "HOPPER_NO_SUCH_PLACE" => Refusal::NoSuchPlace as u64,
        "HOPPER_ROW_TOO_SHORT" => Refusal::RowTooShort as u64,
        "HOPPER_ROWS_KEEP_CHANGING" => Refusal::RowsKeepChanging as u64,
        "HOPPER_FILL_ABOVE_TOP" => Refusal::FillAboveTop as u64,
        "HOPPER_FILL_NOT_GOOD" => Refusal::FillNotGood as u64,
        "HOPPER_ORDER_STILL_OPEN" => Refusal::OrderStillOpen as u64,
        "HOPPER_NOT_ON_BOARD" => Refusal::NotOnBoard as u64,
        "HOPPER_PLACE_IS_THEIRS" => Refusal::PlaceIsTheirs as u64,
        "HOPPER_NO_GOOD_MOVE" => Refusal::NoGoodMove as u64,
        "HOPPER_NOT_THE_OPEN_ORDER" => Refusal::NotTheOpenOrder as u64,
        "HOPPER_VESSEL_REFUSES" => Refusal::VesselRefuses as u64,
        "HOPPER_PLACE_IS_OURS" => Refusal::PlaceIsOurs as u64,
        "HOPPER_NO_SUCH_MOVE" => Refusal::NoSuchMove as u64,
        _ => return None,
    };
    Some(number)
}

// The number that a definition spells, bare or in a macro for its type.
fn in_header(value: &str) -> Option<u64> {
    let inner = value.strip_prefix("UINT32_C(").unwrap_or(value);
    inner.strip_suffix(")").unwrap_or(inner).parse().ok()
}

// A line of the header, where it defines a number.
fn print_definition(rt: &HostRuntime, line: &str) -> io::Result<()> {
    let mut words = line.split_whitespace();
    if words.next() != Some("#define") {
        return Ok(());
    }
    let (Some(name), Some(value)) = (words.next(), words.next()) else {
        return Ok(());
    };
    let said = match (in_library(name), in_header(value)) {
        (Some(known), Some(defined)) if known == defined => "as in the library",
        _ => "NOT AS IN THE LIBRARY",
    };
    println!(rt; "{name} {value} {said}")
}

fn main(rt: HostRuntime) -> io::Result<()> {
    let mut words = env::args(&rt)?;
    let _program = words.next();
    for path in words {
        let header = file_bytes(rt.alloc(), File::open(&rt, path.as_str())?)?;
        for line in header.split(|byte| *byte == b'\n') {
            print_definition(&rt, std::str::from_utf8(line).unwrap_or(""))?;
        }
    }
    Ok(())
}
