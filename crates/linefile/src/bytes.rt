// Numbers and records in the bytes of a file.
ghost use Rattle.std.specs.Prelude.{◌≡◌, ℕ, ◌+◌, ◌*◌, ◌≤◌, List, ◌++◌, length, take, drop, refl};
ghost use Rattle.std.specs.List.{flat_map};
ghost use Rattle.lineformat.specs.Format.{Line, two_at, four_at, trailer, line_of, move_at, place_at, move_bytes, place_bytes, places_from, moves_from, records_at};
ghost use Rattle.lineformat.specs.Limits.{record_size};
ghost use Rattle.lineformat.proofs.Spelt.{places_spelt, moves_spelt};

use super::trailed::Trailed;
use lineformat::{MoveRecord, PlaceRecord, RECORD_SIZE};

// A record, of which a line has a list.
pub(crate) trait Record: Copy {
    // what its bytes are, and which record the bytes at an offset spell
    ghost bytes: { Self → List ℕ };

    ghost at: { List ℕ → ℕ → Self };

    // which list of a line has these records, and where it begins in a file
    ghost list: { Line → List Self };

    ghost from: { List ℕ → ℕ };

    fn read_at(file: &[u8], o: usize) -> Self
        requires { o + record_size ≤ length file.now }
        ensures { result ≡ at file.now o };

    fn to_bytes(self) -> [u8; RECORD_SIZE]
        ensures { result ≡ bytes self };

    // Where the records of a file begin, and how many there are.
    // kept as it is: no plainer, a record is found by its offset, and in a part of the file of its own it would be so too.
    fn part(file: &Trailed) -> (usize, usize)
        ensures begin { result.0 ≡ from file.now.bytes.now }
        ensures count { result.1 ≡ length (list (line_of file.now.bytes.now)) }
        ensures inside { result.0 + result.1 * record_size ≤ length file.now.bytes.now };

    ghost sized: { (x : Self) → length (bytes x) ≡ record_size };

    ghost spelt: { (bs : List ℕ) → list (line_of bs) ≡ records_at at bs (from bs) (length (list (line_of bs))) };
}

impl Record for PlaceRecord {
    ghost bytes = { place_bytes };

    ghost at = { place_at };

    ghost list = { λ l. l.places };

    ghost from = { λ bs. places_from (trailer bs) bs };

    ghost sized = { λ _. refl };

    ghost spelt = { places_spelt };

    fn read_at(file: &[u8], o: usize) -> PlaceRecord {
        PlaceRecord {
            owner: file[o],
            letters: file[o + 1],
            moves: two_at(file, o + 2),
        }
    }

    fn to_bytes(self) -> [u8; RECORD_SIZE] {
        let [low, high] = self.moves.to_le_bytes();
        [self.owner, self.letters, low, high]
    }

    fn part(file: &Trailed) -> (usize, usize) {
        (file.first, file.numbers.places as usize)
    }
}

impl Record for MoveRecord {
    ghost bytes = { move_bytes };

    ghost at = { move_at };

    ghost list = { λ l. l.moves };

    ghost from = { λ bs. moves_from (trailer bs) bs };

    ghost sized = { λ _. refl };

    ghost spelt = { moves_spelt };

    fn read_at(file: &[u8], o: usize) -> MoveRecord {
        MoveRecord {
            target: two_at(file, o),
            amount: i16::from_le_bytes([file[o + 2], file[o + 3]]),
        }
    }

    fn to_bytes(self) -> [u8; RECORD_SIZE] {
        let [a, b] = self.target.to_le_bytes();
        let [c, d] = self.amount.to_le_bytes();
        [a, b, c, d]
    }

    fn part(file: &Trailed) -> (usize, usize) {
        (file.names, file.numbers.moves as usize)
    }
}

// The number of two bytes at an offset. Byte by byte, since loops over records that take a part of the file at each are several times slower.
pub(crate) fn two_at(file: &[u8], o: usize) -> u16
    requires { o + 2 ≤ length file.now }
    ensures { result ≡ two_at file.now o }
{
    u16::from_le_bytes([file[o], file[o + 1]])
}

// The number of four bytes at an offset.
pub(crate) fn four_at(file: &[u8], o: usize) -> u32
    requires { o + 4 ≤ length file.now }
    ensures { result ≡ four_at file.now o }
{
    u32::from_le_bytes([file[o], file[o + 1], file[o + 2], file[o + 3]])
}

// Puts some bytes at an offset.
#[tactic(auto, using(std::proofs::lemmas::Slice::overwrites))]
pub(crate) fn put(out: &mut [u8], o: usize, part: &[u8])
    requires { o + length part.now ≤ length out.old }
    ensures { out.new ≡ take o out.old ++ (part.now ++ drop (o + length part.now) out.old) }
{
    out[o..o + part.len()].copy_from_slice(part);
}

// Puts the bytes of all records of a table from an offset on.
#[tactic(auto, using(lineformat::proofs::Tables::put_step))]
pub(crate) fn put_all<R: Record>(table: &[R], out: &mut [u8], from: usize)
    requires { from + length table.now * record_size ≤ length out.old }
    ensures { out.new ≡ take from out.old ++ (flat_map R.Record.bytes table.now ++ drop (from + length table.now * record_size) out.old) }
{
    for (i, record) in table.iter().enumerate() {
        put(out, from + i * RECORD_SIZE, &record.to_bytes());
    }
}
