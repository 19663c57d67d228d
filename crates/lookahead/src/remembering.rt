// Answers that are remembered, so that no question has to be asked again.
ghost use Rattle.std.specs.Prelude.{◌≡◌, ◌≤◌, true, IfSome, Decides};
ghost use Rattle.lookahead.specs.Inner.Remembering.{is_ordered, hopper_in, Held, HoldsHigher, Right, Settles, AllRight};

use super::{Memory, Outlook, Question, Remembered};
use hopper::AnyVessel;

// What is remembered before anything was asked: any fill holds for no moves.
pub(crate) const NOTHING_ASKED: Remembered = Remembered {
    place: 0,
    level: 0,
    moves: 0,
    held: true,
};

// Whether the vessel pours no less from a higher level.
pub(crate) fn is_ordered(vessel: AnyVessel) -> bool
    ensures { result ≡ is_ordered vessel }
{
    !matches!(vessel, AnyVessel::OfClosed(_))
}

impl<'x> Outlook<'x> {
    // Whether a fill at the level `high` is known to hold wherever one at `low` does.
    fn holds_higher(&self, low: u32, high: u32) -> bool
        ensures { result ≡ true → HoldsHigher self.now low high }
    {
        if is_ordered(self.vessel) {
            low <= high
        } else {
            low == high
        }
    }

    // Whether an answer settles a question too: at the same place, for no more moves if it held and no fewer if it did not.
    fn settles(&self, known: Remembered, question: Question) -> bool
        requires { question.level ≤ (hopper_in self.now).top }
        ensures { result ≡ true → Settles self.now known question }
    {
        if known.place != question.place {
            false
        } else if known.held {
            question.moves <= known.moves && self.holds_higher(known.level, question.level)
        } else {
            known.moves <= question.moves && self.holds_higher(question.level, known.level)
        }
    }

    // Where the answer to a question is remembered: for each number of moves, over ordered levels a slot of either answer for each place, else a slot for each fill.
    fn slot(&self, question: Question, held: bool) -> usize {
        let part = if is_ordered(self.vessel) {
            held as u32
        } else {
            question.level
        };
        let at = question.place.wrapping_mul(self.apart).wrapping_add(part)
            & self.slots.wrapping_sub(1);
        u32::from(question.moves)
            .wrapping_mul(self.slots)
            .wrapping_add(at) as usize
    }
}

impl<'x> Memory<'x> {
    // kept as it is: no plainer, the level of a question is in range of the memory that is asked, so its struct would hold that memory.
    // What the slot of a question and an answer says of the question.
    fn read_slot(&self, question: Question, held: bool) -> Option<bool>
        requires { question.level ≤ (hopper_in self.now.outlook).top }
        ensures { IfSome result (λ b. Decides b (Held self.now.outlook question)) }
    {
        let known = *self.known.get(self.outlook.slot(question, held))?;
        self.outlook.settles(known, question).then_some(known.held)
    }

    // What is remembered of a question.
    #[inline(always)]
    pub(crate) fn recall(&self, question: Question) -> Option<bool>
        requires { question.level ≤ (hopper_in self.now.outlook).top }
        ensures { IfSome result (λ b. Decides b (Held self.now.outlook question)) }
    {
        // kept as it is: tried, `or` reads both slots and took 40 % longer over closed lines, and a closure for `or_else` is not proved without this contract once more
        match self.read_slot(question, true) {
            Some(held) => Some(held),
            None => self.read_slot(question, false),
        }
    }

    // Remembers an answer, where there is room for it.
    pub(crate) fn remember(&mut self, question: Question, held: bool)
        requires level { question.level ≤ (hopper_in self.old.outlook).top }
        requires answer { Decides held (Held self.old.outlook question) }
        ensures { self.new.outlook ≡ self.old.outlook }
    {
        let Question {
            moves,
            place,
            level,
        } = question;
        if let Some(slot) = self.known.get_mut(self.outlook.slot(question, held)) {
            *slot = Remembered {
                place,
                level,
                moves,
                held,
            };
        }
    }
}
