// The trailer of a file, and a file whose trailer is sound.
ghost use Rattle.std.specs.Prelude.{◌≡◌, ◌+◌, ◌<◌, ◌≤◌, ◌++◌, ◌^◌, length, drop};
ghost use Rattle.std.specs.List.{slice_get};
ghost use Rattle.hopper.specs.Refusing.{verdict, Answers};
ghost use Rattle.lineformat.specs.Limits.{trailer_size};
ghost use Rattle.lineformat.specs.Format.{line_of, trailer, numbers_in, offsets_in, version_in, version_offset, distance_in, distance_offset};
ghost use Rattle.lineformat.specs.Checks.{version_check, distance_check, start_check, size_checks, field_checks, trailer_checks};
ghost use Rattle.lineformat.specs.Inner.Parts.{PartsOf};

use super::bytes::{Record, four_at, two_at};
use super::checks::check_numbers;
use super::records::Records;
use hopper::{Check, Fault, Layer, Refusal, check, pass};
use lineformat::{
    LONGEST_FILE, MoveRecord, Numbers, ONLY_VERSION, PlaceRecord, RECORD_SIZE, Spots, TRAILER_SIZE,
};

// The trailer of a file that has room for one, by its offset.
#[derive(Clone, Copy)]
struct Trailer<'a> {
    file: &'a [u8],
    offset: usize,
    ghost ends: { offset + trailer_size ≡ length file.now },
}

// A file whose trailer is sound: the numbers in it, the offset of its first place, and how long its names are.
#[derive(Clone, Copy)]
pub(crate) struct Trailed<'a> {
    pub(crate) bytes: &'a [u8],
    pub(crate) numbers: Numbers,
    pub(crate) first: usize,
    pub(crate) names: usize,
    ghost parts: { PartsOf bytes.now numbers first names },
}

impl<'a> Trailer<'a> {
    #[tactic(auto, unfolding(lineformat::specs::Checks::size_checks))]
    fn of(file: &'a [u8]) -> Result<Trailer<'a>, Fault>
        ensures { Answers (size_checks file.now) (λ t. t.file.now ≡ file.now) (Unit {0}) result }
    {
        let n = file.len();
        pass(&[
            check(
                n > LONGEST_FILE,
                Refusal::FileTooLong,
                Layer::Bytes,
                LONGEST_FILE as u64,
            ),
            check(
                n < TRAILER_SIZE,
                Refusal::FileTooShort,
                Layer::Bytes,
                n as u64,
            ),
        ])?;
        Ok(Trailer {
            file,
            offset: n - TRAILER_SIZE,
        })
    }

    fn numbers(&self) -> Numbers
        ensures value { result ≡ numbers_in self.now.file.now }
        ensures small { (result.places < 2 ^ 16) × (result.moves < 2 ^ 16) }
    {
        let (file, t) = (self.file, self.offset);
        Numbers {
            places: u64::from(two_at(file, t)),
            moves: u64::from(two_at(file, t + 2)),
            top: u64::from(four_at(file, t + 4)),
            draw: u64::from(two_at(file, t + 8)),
            kind: u64::from(file[t + 10]),
        }
    }

    // The offset of each number.
    fn offsets(&self) -> Spots
        ensures { result ≡ offsets_in self.now.file.now }
    {
        let t = self.offset as u64;
        Spots {
            places: t,
            moves: t + 2,
            top: t + 4,
            draw: t + 8,
            kind: t + 10,
        }
    }

    fn version_check(&self) -> Check
        ensures { result ≡ version_check (version_in self.now.file.now) (version_offset self.now.file.now) }
    {
        let offset = self.offset + 11;
        check(
            self.file[offset] != ONLY_VERSION,
            Refusal::UnknownVersion,
            Layer::File,
            offset as u64,
        )
    }

    // How many bytes the records take, by the trailer.
    fn distance(&self) -> u64
        ensures { result ≡ distance_in self.now.file.now }
    {
        u64::from(four_at(self.file, self.offset + 12))
    }

    fn distance_check(&self) -> Check
        ensures { result ≡ distance_check (numbers_in self.now.file.now) (distance_in self.now.file.now) (distance_offset self.now.file.now) }
    {
        let n = self.numbers();
        check(
            self.distance() != RECORD_SIZE as u64 * (n.moves + n.places),
            Refusal::WrongDistance,
            Layer::File,
            (self.offset + 12) as u64,
        )
    }

    fn start_check(&self) -> Check
        ensures { result ≡ start_check (distance_in self.now.file.now) (trailer self.now.file.now) }
    {
        let end = self.offset as u64;
        check(
            self.distance() > end,
            Refusal::DistancePastStart,
            Layer::Bytes,
            end,
        )
    }

    // Checks what the trailer says.
    #[tactic(auto, using(hopper::proofs::Refusing::joined_verdicts), unfolding(lineformat::specs::Checks::field_checks))]
    fn check(&self) -> Result<(), Fault>
        ensures { result ≡ verdict (field_checks (trailer self.now.file.now) self.now.file.now) }
    {
        let numbers = check_numbers(self.numbers(), self.offsets());
        let distance = pass(&[self.distance_check(), self.start_check()]);
        pass(&[self.version_check()]).and(numbers.and(distance))
    }
}

impl<'a> Trailed<'a> {
    #[tactic(auto, using(crate::proofs::Answering::both_pass, lineformat::proofs::Sound::trailer_sound), unfolding(lineformat::specs::Checks::trailer_checks))]
    pub(crate) fn of(file: &'a [u8]) -> Result<Trailed<'a>, Fault>
        ensures { Answers (trailer_checks file.now) (λ t. t.bytes.now ≡ file.now) (Unit {0}) result }
    {
        let trailer = Trailer::of(file)?;
        trailer.check()?;
        let numbers = trailer.numbers();
        let first = trailer.offset - RECORD_SIZE * numbers.places as usize;
        Ok(Trailed {
            bytes: file,
            numbers,
            first,
            names: first - RECORD_SIZE * numbers.moves as usize,
        })
    }

    // The record of a number, or nothing where there is no such record.
    pub(crate) fn get<R: Record>(&self, i: usize) -> Option<R>
        ensures { result ≡ slice_get (R.Record.list (line_of self.now.bytes.now)) i }
    {
        let (from, n) = R::part(self);
        (i < n).then(|| R::read_at(self.bytes, from + i * RECORD_SIZE))
    }

    // Fills the first entries of a table with the records.
    pub(crate) fn fill<R: Record>(&self, table: &mut [R])
        requires { length (R.Record.list (line_of self.now.bytes.now)) ≤ length table.old }
        ensures { table.new ≡ R.Record.list (line_of self.now.bytes.now) ++ drop (length (R.Record.list (line_of self.now.bytes.now))) table.old }
    {
        let (from, n) = R::part(self);
        // apart from `self`, so that the loop is one that a processor does several records at a time
        let file = self.bytes;
        for (i, record) in table[..n].iter_mut().enumerate() {
            *record = R::read_at(file, from + i * RECORD_SIZE);
        }
    }
}

impl<'a> Records for Trailed<'a> {
    ghost line = { λ t. line_of t.bytes.now };

    fn place_count(&self) -> usize {
        self.numbers.places as usize
    }

    fn move_count(&self) -> usize {
        self.numbers.moves as usize
    }

    fn letter_count(&self) -> usize {
        self.names
    }

    fn place_record(&self, p: usize) -> PlaceRecord {
        self.get(p).unwrap()
    }

    fn move_record(&self, m: usize) -> MoveRecord {
        self.get(m).unwrap()
    }

    #[tactic(auto, using(lineformat::proofs::Spelt::one_letter))]
    fn letter(&self, i: usize) -> u8 {
        self.bytes[i]
    }
}
