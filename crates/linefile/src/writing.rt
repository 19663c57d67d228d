// Writing a line file from tables.
ghost use Rattle.std.specs.Prelude.{◌≡◌, ◌≤◌, [], ◌∷◌, ◌++◌, length, drop};
ghost use Rattle.hopper.specs.Refusing.{refuse, verdict, if_accepted, Answers};
ghost use Rattle.lineformat.specs.Format.{numbers_of, trailer_bytes, encode};
ghost use Rattle.lineformat.specs.Checks.{spots_of, line_checks, room_check, write_checks};
ghost use Rattle.lineformat.specs.Laws.{WritesJustTheWellFormed};
ghost use Rattle.lineformat.specs.Inner.Parts.{SizeOf};
ghost use Rattle.linefile.specs.Tabled.{line_in};

use super::LineTables;
use super::bytes::{put, put_all};
use super::checks::{check_numbers, check_records};
use hopper::{Fault, Layer, Refusal, check, pass};
use lineformat::{Numbers, ONLY_VERSION, RECORD_SIZE, Spots, TRAILER_SIZE};

// A line that passes the checks of its numbers and its records, and the length of its file.
#[derive(Clone, Copy)]
struct Checked<'a> {
    line: LineTables<'a>,
    size: usize,
    ghost sized: { SizeOf (line_in line) size },
}

// Writing reports a number that it refuses at the number itself.
fn spots_of(n: Numbers) -> Spots
    ensures { result ≡ spots_of n }
{
    Spots {
        places: n.places,
        moves: n.moves,
        top: n.top,
        draw: n.draw,
        kind: n.kind,
    }
}

impl<'a> LineTables<'a> {
    // Writes the file of this line, and answers its length; where it refuses, it writes nothing.
    #[tactic(auto, using(lineformat::proofs::Laws::writes_just_the_well_formed, hopper::proofs::Refusing::first_refuses, hopper::proofs::Refusing::handed_on, hopper::proofs::Refusing::none_fails), unfolding(lineformat::specs::Checks::write_checks))]
    pub fn write(&self, out: &mut [u8]) -> Result<usize, Fault>
        ensures answer { result ≡ refuse (write_checks (line_in self.now) (length out.old)) (length (encode (line_in self.now))) }
        ensures written { out.new ≡ if_accepted result (encode (line_in self.now) ++ drop (length (encode (line_in self.now))) out.old) out.old }
        ensures law { WritesJustTheWellFormed (line_in self.now) (length out.old) }
    {
        let checked = self.checked()?;
        checked.check_room(out.len())?;
        checked.put(out);
        Ok(checked.size)
    }

    fn numbers(&self) -> Numbers
        ensures { result ≡ numbers_of (line_in self.now) }
    {
        Numbers {
            places: self.places.len() as u64,
            moves: self.moves.len() as u64,
            top: self.top as u64,
            draw: self.draw as u64,
            kind: self.kind as u64,
        }
    }

    // Checks all but the room.
    #[tactic(auto, unfolding(lineformat::specs::Checks::line_checks))]
    fn check(&self) -> Result<(), Fault>
        ensures { result ≡ verdict (line_checks (line_in self.now)) }
    {
        let n = self.numbers();
        check_numbers(n, spots_of(n))?;
        check_records(self)
    }

    fn checked(&self) -> Result<Checked<'a>, Fault>
        ensures { Answers (line_checks (line_in self.now)) (λ c. line_in c.line ≡ line_in self.now) (Unit {0}) result }
    {
        self.check()?;
        Ok(Checked {
            line: *self,
            size: self.names.len()
                + self.moves.len() * RECORD_SIZE
                + self.places.len() * RECORD_SIZE
                + TRAILER_SIZE,
        })
    }
}

impl<'a> Checked<'a> {
    fn check_room(&self, room: usize) -> Result<(), Fault>
        ensures { result ≡ verdict (room_check room (length (encode (line_in self.now.line))) ∷ []) }
    {
        pass(&[check(
            room < self.size,
            Refusal::OutputTooShort,
            Layer::Rest,
            self.size as u64,
        )])
    }

    fn trailer(&self) -> [u8; TRAILER_SIZE]
        ensures { result ≡ trailer_bytes (numbers_of (line_in self.now.line)) }
    {
        let line = self.line;
        let (n, m) = (line.places.len() as u16, line.moves.len() as u16);
        let back = RECORD_SIZE as u32 * (u32::from(m) + u32::from(n));
        let mut bytes = [0; TRAILER_SIZE];
        put(&mut bytes, 0, &n.to_le_bytes());
        put(&mut bytes, 2, &m.to_le_bytes());
        put(&mut bytes, 4, &line.top.to_le_bytes());
        put(&mut bytes, 8, &line.draw.to_le_bytes());
        put(&mut bytes, 10, &[line.kind, ONLY_VERSION]);
        put(&mut bytes, 12, &back.to_le_bytes());
        bytes
    }

    // Puts the four parts of the file one after another.
    fn put(&self, out: &mut [u8])
        requires { self.now.size ≤ length out.old }
        ensures { out.new ≡ encode (line_in self.now.line) ++ drop (length (encode (line_in self.now.line))) out.old }
    {
        let line = self.line;
        let moves = line.names.len();
        let places = moves + line.moves.len() * RECORD_SIZE;
        let trailer = places + line.places.len() * RECORD_SIZE;
        put(out, 0, line.names);
        put_all(line.moves, out, moves);
        put_all(line.places, out, places);
        put(out, trailer, &self.trailer());
    }
}
