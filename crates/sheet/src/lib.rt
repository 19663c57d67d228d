// The rows of a plan sheet: what they say of a place, and their text.
#![tactic(auto)]

ghost use Rattle.std.specs.Prelude.{◌≡◌, Some};
ghost use Rattle.solver.specs.Entries.{as_entry};
ghost use Rattle.sheet.specs.Texts.{number_or, row_text};

use game::Owner;
use solver::NEVER;
use std::fmt;

pub mod closed;

// A number, or a word where there is none.
#[derive(Clone, Copy)]
pub struct NumberOr<'a> {
    pub number: Option<u32>,
    pub word: &'a str,
}

impl<'a> fmt::Display for NumberOr<'a> {
    ghost output = { λ x. Some (number_or x.number x.word.now) };

    fn fmt<W: fmt::Write>(&self, f: &mut fmt::Formatter<W>) -> fmt::Result {
        let word = self.word;
        match self.number {
            Some(n) => write!(f, "{n}"),
            None => write!(f, "{word}"),
        }
    }
}

// What a plan sheet says of one place: its least good fill, the height of that fill on the gauge, and our move from it.
#[derive(Clone, Copy)]
pub struct SheetRow<'a> {
    pub place: u32,
    pub owner: Owner,
    pub fill: Option<u32>,
    pub height: Option<u32>,
    pub mv: Option<u32>,
    pub name: &'a str,
}

impl<'a> fmt::Display for SheetRow<'a> {
    ghost output = { λ r. Some (row_text r) };

    fn fmt<W: fmt::Write>(&self, f: &mut fmt::Formatter<W>) -> fmt::Result {
        let place = self.place;
        let owner = self.owner;
        let fill = NumberOr {
            number: self.fill,
            word: "none",
        };
        let height = NumberOr {
            number: self.height,
            word: "-",
        };
        let mv = NumberOr {
            number: self.mv,
            word: "-",
        };
        let name = self.name;
        write!(f, "{place} {owner} {fill} {height} {mv} {name}")
    }
}

// An entry of a row of fills as a fill, or none where it is never.
pub fn entry_fill(entry: u32) -> Option<u32>
    ensures { result ≡ as_entry entry }
{
    (entry != NEVER).then_some(entry)
}
