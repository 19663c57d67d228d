// Line files: a line over the bytes of its file, and a line in tables.
#![tactic(auto)]

ghost use Rattle.std.specs.Prelude.{◌≡◌, ℕ, ◌<◌, true, length, slice_index};
ghost use Rattle.lineformat.specs.Format.{encode, line_of};
ghost use Rattle.lineformat.specs.WellFormed.{moves_before, WellFormedLine};
ghost use Rattle.lineformat.specs.Checks.{accepts};

use lineformat::{MOST_PLACES, MoveRecord, PlaceRecord};
use trailed::Trailed;

pub mod board;
mod bytes;
mod checks;
pub mod input;
pub mod printing;
mod reading;
mod records;
mod trailed;
mod writing;

// The entries of a table with one for each place that a line can have.
const FIRSTS_SIZE: usize = MOST_PLACES as usize;

// A line over the file that it was read from, which is one that reading accepts; beside it the number of each place's first move.
#[derive(Drop)]
pub struct FileLine<'a> {
    file: Trailed<'a>,
    // kept as it is: fixed memory, a line holds no heap
    firsts: [u16; FIRSTS_SIZE],
    ghost accepted: { accepts file.bytes.now ≡ true },
    ghost formed: { WellFormedLine (line_of file.bytes.now) },
    ghost written: { encode (line_of file.bytes.now) ≡ file.bytes.now },
    ghost summed: { (p : ℕ) → p < length (line_of file.bytes.now).places → slice_index firsts p ≡ moves_before (line_of file.bytes.now) p },
}

// A name as that part of the file which it is, and the offset of that part.
#[derive(Clone, Copy)]
pub struct Name<'a> {
    pub text: &'a str,
    pub offset: usize,
}

// A line in tables: the records of its places and moves, the names of all places one after another, and its vessel by the file's numbers.
#[derive(Clone, Copy)]
pub struct LineTables<'a> {
    pub places: &'a [PlaceRecord],
    pub moves: &'a [MoveRecord],
    pub names: &'a [u8],
    // kept as it is: tables may have a number of no kind, and writing refuses it
    pub kind: u8,
    pub top: u32,
    pub draw: u16,
}
