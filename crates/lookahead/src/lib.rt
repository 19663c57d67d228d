// Looking ahead: whether a fill holds for the next few moves of a line over its own vessel.
#![tactic(auto)]

ghost use Rattle.std.specs.Prelude.{◌≤◌};
ghost use Rattle.lookahead.specs.Inner.Remembering.{AllRight};

use hopper::AnyVessel;
use linefile::FileLine;

mod asking;
pub mod looking;
mod remembering;

pub use looking::look_ahead;

// The most moves that are looked ahead.
pub const MOST_AHEAD: u32 = 6;

// A line and its vessel, and how answers are laid out in memory: how many slots there are for each number of moves, a power of two, and how far apart those of two places lie.
#[derive(Drop)]
pub(crate) struct Outlook<'x> {
    line: &'x FileLine<'x>,
    vessel: AnyVessel,
    slots: u32,
    apart: u32,
}

// A question: whether the fill at the place holds for so many moves.
#[derive(Clone, Copy)]
pub(crate) struct Question {
    moves: u8,
    place: u32,
    level: u32,
}

// A question about one move or more.
#[derive(Clone, Copy)]
pub(crate) struct Turn {
    question: Question,
    ghost some_move: { 1 ≤ question.moves },
}

// An answer to a question that was asked.
// kept as it is: with a question inside, an answer takes 16 bytes in place of 12, and the memory of all of them a third more.
#[derive(Clone, Copy)]
pub(crate) struct Remembered {
    place: u32,
    level: u32,
    moves: u8,
    // kept as it is: no flag for another value, but what was answered
    held: bool,
}

// An outlook, and what is remembered of it: slots for answers, or none where the heap had no room for them.
// kept as it is: no plainer, that the outlook stays is said by each of the five functions that write the memory, since no type says it.
// kept as it is: memory is bounded, and a map in place of the slots would grow with the questions.
#[derive(Drop)]
pub(crate) struct Memory<'x> {
    outlook: Outlook<'x>,
    known: Vec<Remembered>,
    ghost right: { AllRight outlook known.items },
}
