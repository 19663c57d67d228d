// The look-ahead: its checks, the memory that it takes, and its answer.
ghost use Rattle.std.specs.Prelude.{◌≡◌, ◌<◌, ◌≤◌, Ok, Decides, IfOk};
ghost use Rattle.game.specs.Fill.{Holds};
ghost use Rattle.hopper.specs.Refusing.{verdict};
ghost use Rattle.lineformat.specs.Games.{game_of, hopper_of};
ghost use Rattle.linefile.specs.Held.{line_held};
ghost use Rattle.lookahead.specs.Ahead.{look_checks, LookAnswers, TellsWhoPrevails};
ghost use Rattle.lookahead.specs.Inner.Remembering.{hopper_in, OnBoard, Held};

use super::remembering::{NOTHING_ASKED, is_ordered};
use super::{MOST_AHEAD, Memory, Outlook, Question};
use hopper::{Board, Fault, Layer, Refusal, check, pass};
use linefile::FileLine;
use std::alloc::Global;

// The most answers that are remembered for each number of moves.
const MOST_SLOTS: u32 = 524_288;

// How many numbers of moves there are, from 0 to the most.
const MOVE_NUMBERS: usize = MOST_AHEAD as usize + 1;

fn check_question(line: &FileLine, place: u32, fill: u32, k: u32) -> Result<(), Fault>
    ensures { result ≡ verdict (look_checks (line_held line.now) place fill k) }
{
    pass(&[
        check(
            place >= line.places(),
            Refusal::NoSuchPlace,
            Layer::Rest,
            place as u64,
        ),
        check(
            fill > line.top(),
            Refusal::FillAboveTop,
            Layer::Rest,
            fill as u64,
        ),
        check(k > MOST_AHEAD, Refusal::LookTooFar, Layer::Rest, k as u64),
    ])
}

impl<'x> Outlook<'x> {
    // A line with its vessel, and memory for two answers about each place where the levels are ordered, else for one about each fill, up to a limit.
    fn new(line: &'x FileLine<'x>) -> Outlook<'x>
        ensures line { result.line.now ≡ line.now }
        ensures hopper { hopper_in result ≡ hopper_of (line_held line.now) }
        ensures top { (hopper_in result).top ≡ (line_held line.now).top }
    {
        let vessel = line.vessel();
        let places = line.places();
        let apart = if is_ordered(vessel) {
            2
        } else {
            line.top().saturating_add(1).min(MOST_SLOTS / places.max(1))
        };
        Outlook {
            line,
            vessel,
            slots: places
                .saturating_mul(apart)
                .min(MOST_SLOTS)
                .next_power_of_two(),
            apart,
        }
    }
}

impl<'x> Memory<'x> {
    // The memory of an outlook before anything was asked, from the heap, or none where it has no room.
    fn new(heap: Global, outlook: Outlook<'x>) -> Memory<'x>
        ensures { result.outlook ≡ outlook.entry }
    {
        let slots = outlook.slots as usize * MOVE_NUMBERS;
        // kept as it is: tried, with `unwrap_or_else` nothing is known of the slots
        let Ok(known) = vec![in heap; NOTHING_ASKED; slots] else {
            return Memory {
                outlook,
                known: Vec::new(heap),
            };
        };
        Memory { outlook, known }
    }
}

// The answer to a question that passes the checks.
fn looked<'x>(heap: Global, line: &'x FileLine<'x>, place: u32, fill: u32, k: u32) -> bool
    requires { Ok tt ≡ verdict (look_checks (line_held line.now) place fill k) }
    ensures holds { Decides result (Holds (game_of (line_held line.now)) (hopper_of (line_held line.now)).table k place fill) }
    ensures prevails { TellsWhoPrevails (line_held line.now) place fill k result }
{
    Memory::new(heap, Outlook::new(line)).holds(Question {
        moves: k as u8,
        place,
        level: fill,
    })
}

// Whether the fill holds for the next k moves of the line, over its own vessel.
pub fn look_ahead(
    heap: Global,
    line: &FileLine,
    place: u32,
    fill: u32,
    k: u32,
) -> Result<bool, Fault>
    ensures answer { LookAnswers (line_held line.now) place fill k result }
    ensures prevails { IfOk result (TellsWhoPrevails (line_held line.now) place fill k) }
{
    check_question(line, place, fill, k)?;
    Ok(looked(heap, line, place, fill, k))
}
