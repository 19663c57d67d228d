// The line file's types: the kind of its vessel, and its records. specs/ has the format, and proofs/ the laws of it.
#![tactic(auto)]

ghost use Rattle.std.specs.Prelude.{◌≡◌};
ghost use Rattle.lineformat.specs.Kinds.{kind_number, NamesKind};

use game::Owner;

// The limits of a line file are its own, whatever those of boards and vessels are. Its trailer, its records and its one version;
pub const TRAILER_SIZE: usize = 16;

pub const RECORD_SIZE: usize = 4;

pub const ONLY_VERSION: u8 = 1;
// its kinds, of which the last has a draw (kept as it is: a number in a file is refused before it names a kind);
pub const LAST_KIND: u64 = Kind::Drawn as u64;

pub const DRAWN_KIND: u64 = Kind::Drawn as u64;
// its places, its moves, and the vessel's top and draw in litres;
pub const MOST_PLACES: u64 = 256;

pub const MOST_MOVES: u64 = 4_096;

pub const MOST_TOP: u64 = 2_560_000;

pub const MOST_DRAW: u64 = 10_000;
// its records: an owner (kept as it is: a number in a record is refused before it names one), a name's length and letters, a move's litres in or out;
pub const LAST_OWNER: u8 = Owner::Theirs as u8;

pub const LONGEST_NAME: u8 = 32;

pub const FIRST_LETTER: u8 = 32;

pub const LAST_LETTER: u8 = 126;

pub const MOST_AMOUNT: u16 = 10_000;
// and the most bytes of all names and of all.
pub const LONGEST_NAMES: usize = MOST_PLACES as usize * LONGEST_NAME as usize;

pub const LONGEST_FILE: usize = LONGEST_NAMES
    + RECORD_SIZE * (MOST_MOVES as usize + MOST_PLACES as usize)
    + TRAILER_SIZE;

// The kind of vessel that a line file names.
#[derive(Clone, Copy, PartialEq, Eq, Debug)]
pub enum Kind {
    Lip = 0,
    Closed = 1,
    Drawn = 2,
}

// A number that names no kind.
#[derive(Clone, Copy, PartialEq, Eq, Debug)]
pub struct UnknownKind(pub u8);

// A place as a line file has it: the owner's number, the length of the name in bytes, and the number of moves.
#[derive(Clone, Copy, PartialEq, Eq, Default, Debug)]
pub struct PlaceRecord {
    // kept as it is: a record may have a number of no owner, and writing refuses it
    pub owner: u8,
    pub letters: u8,
    pub moves: u16,
}

// A move as a line file has it: the number of the place that it leads to, and the litres.
#[derive(Clone, Copy, PartialEq, Eq, Default, Debug)]
pub struct MoveRecord {
    pub target: u16,
    pub amount: i16,
}

// The five numbers of a line that its file's trailer has.
#[derive(Clone, Copy, PartialEq, Eq, Debug)]
pub struct Numbers {
    pub places: u64,
    pub moves: u64,
    pub top: u64,
    pub draw: u64,
    // kept as it is: the number in a file may be of no kind, and reading refuses it
    pub kind: u64,
}

// The spots at which a refusal of each of these numbers is reported.
#[derive(Clone, Copy, PartialEq, Eq, Debug)]
pub struct Spots {
    pub places: u64,
    pub moves: u64,
    pub top: u64,
    pub draw: u64,
    pub kind: u64,
}

impl Kind {
    // The number by which a line file names the kind.
    // kept as it is: no plainer, `u8::from` would not say which number.
    pub fn number(self) -> u8
        ensures { result ≡ kind_number self }
    {
        self as u8
    }
}

// The kind that a line file names by a number.
impl TryFrom<u8> for Kind {
    type Error = UnknownKind;

    ghost try_from_gives = { NamesKind };

    fn try_from(number: u8) -> Result<Self, UnknownKind> {
        match number {
            0 => Ok(Kind::Lip),
            1 => Ok(Kind::Closed),
            2 => Ok(Kind::Drawn),
            _ => Err(UnknownKind(number)),
        }
    }
}
