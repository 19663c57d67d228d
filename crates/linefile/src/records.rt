// The records of a line, wherever they are kept.
ghost use Rattle.std.specs.Prelude.{◌≡◌, ℕ, ◌<◌, ◌≤◌, length, slice_index};
ghost use Rattle.lineformat.specs.Limits.{most_places};
ghost use Rattle.lineformat.specs.Format.{Line, place_of, move_of};
ghost use Rattle.lineformat.specs.WellFormed.{moves_before, letters_before, WellFormedLine};
ghost use Rattle.linefile.specs.Tabled.{line_in};

use super::{FIRSTS_SIZE, LineTables};
use lineformat::{MoveRecord, PlaceRecord};

// The records of a line, in the bytes of a file or in tables.
pub(crate) trait Records {
    ghost line: { Self → Line };

    fn place_count(&self) -> usize
        ensures { result ≡ length (line self.now).places };

    fn move_count(&self) -> usize
        ensures { result ≡ length (line self.now).moves };

    fn letter_count(&self) -> usize
        ensures { result ≡ length (line self.now).names };

    fn place_record(&self, p: usize) -> PlaceRecord
        requires { p < length (line self.now).places }
        ensures { result ≡ place_of (line self.now) p };

    fn move_record(&self, m: usize) -> MoveRecord
        requires { m < length (line self.now).moves }
        ensures { result ≡ move_of (line self.now) m };

    fn letter(&self, i: usize) -> u8
        requires { i < length (line self.now).names }
        ensures { result ≡ slice_index (line self.now).names i };
}

impl<'a> Records for LineTables<'a> {
    ghost line = { line_in };

    fn place_count(&self) -> usize {
        self.places.len()
    }

    fn move_count(&self) -> usize {
        self.moves.len()
    }

    fn letter_count(&self) -> usize {
        self.names.len()
    }

    fn place_record(&self, p: usize) -> PlaceRecord {
        self.places[p]
    }

    fn move_record(&self, m: usize) -> MoveRecord {
        self.moves[m]
    }

    fn letter(&self, i: usize) -> u8 {
        self.names[i]
    }
}

// How many moves the first `n` places have.
pub(crate) fn moves_before<R: Records>(records: &R, n: usize) -> usize
    requires there { n ≤ length (R.Records.line records.now).places }
    requires few { n ≤ most_places }
    ensures { result ≡ moves_before (R.Records.line records.now) n }
{
    (0..n)
        .map(
            |p|
                // kept as it is: no plainer, each chain over the places says that they are there
                requires { p < length (R.Records.line records.now).places }
            { records.place_record(p).moves as usize },
        )
        .sum()
}

// How many letters of names the first `n` places have.
// kept as it is: no plainer, joined with `moves_before` it would take a closure for the number, with a contract of its own.
pub(crate) fn letters_before<R: Records>(records: &R, n: usize) -> usize
    requires there { n ≤ length (R.Records.line records.now).places }
    requires few { n ≤ most_places }
    ensures { result ≡ letters_before (R.Records.line records.now) n }
{
    (0..n)
        .map(
            |p|
                requires { p < length (R.Records.line records.now).places }
            { records.place_record(p).letters as usize },
        )
        .sum()
}

// The number of the first move of each place.
#[tactic(auto, using(std::proofs::lemmas::List::Sums::sum_by_more, lineformat::proofs::Sound::in_moves, std::proofs::lemmas::List::Edits::fill_by_more))]
pub(crate) fn firsts<R: Records>(records: &R) -> [u16; FIRSTS_SIZE]
    requires { WellFormedLine (R.Records.line records.now) }
    ensures { (p : ℕ) → p < length (R.Records.line records.now).places → slice_index result p ≡ moves_before (R.Records.line records.now) p }
{
    let mut firsts = [0; FIRSTS_SIZE];
    let mut moves = 0u16;
    for (p, first) in firsts[..records.place_count()].iter_mut().enumerate() {
        *first = moves;
        moves += records.place_record(p).moves;
    }
    firsts
}
