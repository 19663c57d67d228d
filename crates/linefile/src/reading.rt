// Reading a line file, and what the line then holds.
ghost use Rattle.std.specs.Prelude.{◌≡◌, ◌≤◌, true, ◌++◌, length, drop, is_ok, Some};
ghost use Rattle.std.specs.List.{slice_get};
ghost use Rattle.hopper.specs.Refusing.{verdict, if_accepted, Answers};
ghost use Rattle.lineformat.specs.Kinds.{kind_number};
ghost use Rattle.lineformat.specs.Limits.{most_draw};
ghost use Rattle.lineformat.specs.Format.{built_in, numbers_of};
ghost use Rattle.lineformat.specs.WellFormed.{moves_of, name_at, SoundNumbers};
ghost use Rattle.lineformat.specs.Checks.{read_checks, unpack_checks};
ghost use Rattle.lineformat.specs.Laws.{AcceptsJustTheWritten};
ghost use Rattle.linefile.specs.Held.{file_of, line_held, named, PartOf, retabled, WritesAgain};

use super::checks::check_records;
use super::records::{firsts, letters_before};
use super::trailed::Trailed;
use super::{FileLine, Name};
use hopper::{Fault, Layer, Refusal, check, pass};
use lineformat::{Kind, MoveRecord, Numbers, PlaceRecord};

// One place of ours without a name, which leads to itself with 0; lip 0.
const BUILT_IN: &[u8; 24] = b"\0\0\0\0\0\0\x01\0\x01\0\x01\0\0\0\0\0\0\0\0\x01\x08\0\0\0";

// The line of a file that is accepted.
impl<'a> TryFrom<&'a [u8]> for FileLine<'a> {
    type Error = Fault;

    ghost try_from_gives = { λ file r. Answers (read_checks file.now) (λ b. file_of b ≡ file.now) (Unit {0}) r };

    #[tactic(auto, using(crate::proofs::Answering::both_pass, lineformat::proofs::Sound::accepted_of, lineformat::proofs::Sound::accepted_line), unfolding(lineformat::specs::Checks::read_checks))]
    fn try_from(file: &'a [u8]) -> Result<Self, Fault> {
        let trailed = Trailed::of(file)?;
        check_records(&trailed)?;
        Ok(FileLine {
            file: trailed,
            firsts: firsts(&trailed),
        })
    }
}

impl<'a> FileLine<'a> {
    // The line to begin with: one place of ours that leads to itself with 0, over lip 0.
    pub fn built_in() -> FileLine<'a>
        ensures { line_held result ≡ built_in }
    {
        FileLine::try_from(BUILT_IN.as_slice()).unwrap()
    }

    // Reads a file into this line; a file that is refused leaves the line as it was.
    #[tactic(auto, using(lineformat::proofs::Laws::file_law))]
    pub fn read(&mut self, file: &'a [u8]) -> Result<(), Fault>
        ensures answer { result ≡ verdict (read_checks file.now) }
        ensures holds { file_of self.new ≡ if_accepted result file.now (file_of self.old) }
        ensures law { AcceptsJustTheWritten file.now }
    {
        *self = FileLine::try_from(file)?;
        Ok(())
    }

    // The numbers of the line.
    #[tactic(auto, using(lineformat::proofs::Tests::draw_small))]
    fn numbers(&self) -> Numbers
        ensures value { result ≡ numbers_of (line_held self.now) }
        ensures sound { SoundNumbers result }
        ensures small { result.draw ≤ most_draw }
    {
        self.file.numbers
    }

    pub fn place_count(&self) -> usize
        ensures { result ≡ length (line_held self.now).places }
    {
        self.numbers().places as usize
    }

    pub fn move_count(&self) -> usize
        ensures { result ≡ length (line_held self.now).moves }
    {
        self.numbers().moves as usize
    }

    #[tactic(auto, using(lineformat::proofs::Tests::kind_named))]
    pub fn kind(&self) -> Kind
        ensures { kind_number result ≡ (line_held self.now).kind }
    {
        Kind::try_from(self.numbers().kind as u8).unwrap()
    }

    pub fn top(&self) -> u32
        ensures { result ≡ (line_held self.now).top }
    {
        self.numbers().top as u32
    }

    pub fn draw(&self) -> u16
        ensures { result ≡ (line_held self.now).draw }
    {
        self.numbers().draw as u16
    }

    // The record of a place, or nothing where there is no such place.
    pub fn place_record(&self, p: usize) -> Option<PlaceRecord>
        ensures { result ≡ slice_get (line_held self.now).places p }
    {
        self.file.get(p)
    }

    // The record of a move by its number in the file, where the moves of all places lie one after another.
    pub fn move_record(&self, m: usize) -> Option<MoveRecord>
        ensures { result ≡ slice_get (line_held self.now).moves m }
    {
        self.file.get(m)
    }

    // The record of move `m` of place `p`, counted from 0 within the place.
    #[tactic(auto, using(std::proofs::lemmas::Option::slice_get_within, std::proofs::lemmas::Option::get_or_from_slice_get, lineformat::proofs::Sound::move_in, lineformat::proofs::Spelt::no_moves, lineformat::proofs::Spelt::absent, lineformat::proofs::Spelt::nth_part_past))]
    pub fn move_record_of(&self, p: usize, m: usize) -> Option<MoveRecord>
        ensures { result ≡ slice_get (moves_of (line_held self.now) p) m }
    {
        self.place_record(p)
            .filter(|place| m < place.moves as usize)?;
        self.move_record(self.firsts[p] as usize + m)
    }

    // The names of all places, one after another, as that part of the file.
    #[tactic(auto, using(lineformat::proofs::Spelt::names_are))]
    pub fn names(&self) -> &'a [u8]
        ensures { result.now ≡ (line_held self.now).names }
    {
        &self.file.bytes[..self.file.names]
    }

    // The name of a place, or nothing where there is no such place.
    #[tactic(auto, using(std::proofs::lemmas::Option::slice_get_within, std::proofs::lemmas::Option::get_or_from_slice_get, lineformat::proofs::Encoded::names_few, lineformat::proofs::Sound::in_letters, lineformat::proofs::Sound::name_in))]
    pub fn name(&self, p: usize) -> Option<Name<'a>>
        ensures value { named result ≡ name_at (line_held self.now) p }
        ensures part { PartOf (file_of self.now) result }
    {
        let place = self.place_record(p)?;
        let offset = letters_before(&self.file, p);
        let end = offset + place.letters as usize;
        let text = std::str::from_utf8(&self.file.bytes[offset..end]).unwrap();
        Some(Name { text, offset })
    }

    // Checks tables with so many entries for places and for moves.
    #[tactic(auto, unfolding(lineformat::specs::Checks::unpack_checks))]
    fn check_tables(&self, places: usize, moves: usize) -> Result<(), Fault>
        ensures { result ≡ verdict (unpack_checks (line_held self.now) places moves) }
    {
        let (n, m) = (self.place_count(), self.move_count());
        pass(&[
            check(places < n, Refusal::TableTooShort, Layer::Rest, n as u64),
            check(moves < m, Refusal::TableTooShort, Layer::Rest, m as u64),
        ])
    }

    // Copies the line's records into the front of two tables; where a table is too short, it fills neither.
    pub fn unpack(&self, places: &mut [PlaceRecord], moves: &mut [MoveRecord]) -> Result<(), Fault>
        ensures answer { result ≡ verdict (unpack_checks (line_held self.now) (length places.old) (length moves.old)) }
        ensures places { places.new ≡ if_accepted result ((line_held self.now).places ++ drop (length (line_held self.now).places) places.old) places.old }
        ensures moves { moves.new ≡ if_accepted result ((line_held self.now).moves ++ drop (length (line_held self.now).moves) moves.old) moves.old }
        ensures again { is_ok result ≡ true → WritesAgain (file_of self.now) (retabled (line_held self.now) places.new moves.new) }
    {
        self.check_tables(places.len(), moves.len())?;
        self.file.fill(places);
        self.file.fill(moves);
        Ok(())
    }
}
