// The two questions of a look-ahead, one for places of ours and one for theirs, put in turn with ever fewer moves.
ghost use Rattle.std.specs.Prelude.{◌≡◌, ◌<◌, ◌≤◌, ◌⊎◌, true, Some, Decides, MatchOption};
ghost use Rattle.game.specs.declared.Owner.TheVariants.{Ours, Theirs};
ghost use Rattle.hopper.specs.Boards.{owner_at, is_owner, count_at};
ghost use Rattle.lookahead.specs.Inner.Remembering.{game_in, OnBoard, Held};
ghost use Rattle.lookahead.specs.Inner.Asking.{IsNext, Refused, AllLed, LeadsOn};

use super::remembering::is_ordered;
use super::{Memory, Outlook, Question, Turn};
use game::Owner;
use hopper::{AnyVessel, Board, Vessel};
use lineformat::{MOST_AMOUNT, MOST_PLACES};

// The questions with one for each place that a line can have.
const FIRSTS_SIZE: usize = MOST_PLACES as usize;

// Whether we choose. Then a move that leads on settles a question, and otherwise one that does not.
fn we_choose(owner: Owner) -> bool
    ensures { result ≡ is_owner Ours (Some owner) }
{
    owner == Owner::Ours
}

impl Question {
    // Of this question and the first one about its place so far the one to ask first:
    // that of the higher level where we choose, of the lower where they do.
    fn or_sooner(self, first: Option<Question>, owner: Owner) -> Question
        ensures { (result ≡ self) ⊎ (first ≡ Some result) }
    {
        match first {
            Some(first) if (first.level > self.level) == we_choose(owner) => first,
            _ => self,
        }
    }
}

impl<'x> Outlook<'x> {
    // How many moves the place has.
    fn count(&self, place: u32) -> u32
        ensures { result ≡ count_at ((game_in self.now).at place) }
    {
        self.line.moves(place).unwrap_or(0)
    }

    // The question that a move leads to, with one move fewer, or nothing where the vessel refuses it.
    #[inline(always)]
    fn lead(&self, turn: Turn, mv: u32) -> Option<Question>
        requires { mv < count_at ((game_in self.now).at turn.question.place) }
        ensures { MatchOption result (Refused self.now turn.question mv) (λ next. IsNext self.now turn.question mv next) }
    {
        let question = turn.question;
        let edge = self.line.step(question.place, mv).unwrap();
        let level = self.vessel.pour(question.level, edge.amount)?;
        Some(Question {
            moves: question.moves - 1,
            place: edge.target,
            level,
        })
    }

    // Whether so many moves cannot reach the bottom or the top of a closed vessel from the level.
    fn is_far_from_edges(&self, question: Question) -> bool
        requires { OnBoard self.now question }
        ensures { result ≡ true → Held self.now question }
    {
        let AnyVessel::OfClosed(closed) = self.vessel else {
            return false;
        };
        let reach = u32::from(question.moves) * MOST_AMOUNT as u32;
        reach <= question.level && question.level <= closed.top().saturating_sub(reach)
    }

    // For each place that the moves of the question's place lead to, which question to ask first:
    // that of the highest level where we choose, of the lowest where they do.
    // The array is lent, since one that is answered would be copied twice for each question.
    fn first_questions(
        &self,
        turn: Turn,
        owner: Owner,
        firsts: &mut [Option<Question>; FIRSTS_SIZE],
    )
        ensures { AllLed self.now turn.question firsts.old → AllLed self.now turn.question firsts.new }
    {
        // kept as it is: no plainer, a closure for `filter_map` would have to state what `lead` asks and answers
        for mv in 0..self.count(turn.question.place) {
            if let Some(next) = self.lead(turn, mv) {
                let i = next.place as usize;
                firsts[i] = Some(next.or_sooner(firsts[i], owner));
            }
        }
    }
}

impl<'x> Memory<'x> {
    // Asks about one move to each place, and says whether one of them settles the question.
    // It is a function of its own, since one pays at entry for the size of an array that it lends.
    #[cycle(asking)]
    #[inline(never)]
    fn is_settled_by_one(&mut self, turn: Turn, owner: Owner) -> bool
        requires { owner_at ((game_in self.old.outlook).at turn.question.place) ≡ Some owner }
        ensures answer { result ≡ true → Decides (is_owner Ours (Some owner)) (Held self.old.outlook turn.question) }
        ensures same { self.new.outlook ≡ self.old.outlook }
    {
        let mut firsts: [Option<Question>; FIRSTS_SIZE] = [None; FIRSTS_SIZE];
        self.outlook.first_questions(turn, owner, &mut firsts);
        for place in 0..self.outlook.line.places() {
            if let Some(next) = firsts[place as usize]
                && self.holds(next) == we_choose(owner)
            {
                return true;
            }
        }
        false
    }

    // Asks first about one move to each place, where that serves, and says whether one of them settles the question.
    // Over ordered levels what is then remembered answers for all other moves to the same places.
    #[cycle(asking)]
    #[inline(always)]
    fn is_settled_first(&mut self, turn: Turn, owner: Owner) -> bool
        requires { owner_at ((game_in self.old.outlook).at turn.question.place) ≡ Some owner }
        ensures answer { result ≡ true → Decides (is_owner Ours (Some owner)) (Held self.old.outlook turn.question) }
        ensures same { self.new.outlook ≡ self.old.outlook }
    {
        if turn.question.moves < 2 || self.known.is_empty() || !is_ordered(self.outlook.vessel) {
            return false;
        }
        self.is_settled_by_one(turn, owner)
    }

    // Whether a move of the question's place leads to a fill that holds for one move fewer.
    #[cycle(asking)]
    #[inline(always)]
    fn leads_on(&mut self, turn: Turn, mv: u32) -> bool
        requires { mv < count_at ((game_in self.old.outlook).at turn.question.place) }
        ensures answer { Decides result (LeadsOn self.old.outlook turn.question mv) }
        ensures same { self.new.outlook ≡ self.old.outlook }
    {
        // kept as it is: no plainer, a closure for `is_some_and` would have to state the contract of `holds` again
        match self.outlook.lead(turn, mv) {
            Some(next) => self.holds(next),
            None => false,
        }
    }

    // Whether some move of a place of ours leads to a fill that holds for one move fewer.
    #[cycle(asking)]
    fn some_move(&mut self, turn: Turn) -> bool
        requires { owner_at ((game_in self.old.outlook).at turn.question.place) ≡ Some Ours }
        ensures answer { Decides result (Held self.old.outlook turn.question) }
        ensures same { self.new.outlook ≡ self.old.outlook }
    {
        let count = self.outlook.count(turn.question.place);
        if self.is_settled_first(turn, Owner::Ours) {
            return true;
        }
        // kept as it is: no plainer, each move is asked about in the memory that the others wrote, and a closure for `any` would have to state that
        for mv in 0..count {
            if self.leads_on(turn, mv) {
                return true;
            }
        }
        false
    }

    // Whether every move of a place of theirs leads to a fill that holds for one move fewer.
    #[cycle(asking)]
    fn every_move(&mut self, turn: Turn) -> bool
        requires { owner_at ((game_in self.old.outlook).at turn.question.place) ≡ Some Theirs }
        ensures answer { Decides result (Held self.old.outlook turn.question) }
        ensures same { self.new.outlook ≡ self.old.outlook }
    {
        let count = self.outlook.count(turn.question.place);
        if self.is_settled_first(turn, Owner::Theirs) {
            return false;
        }
        // kept as it is: no plainer, for `all` as for `any` above
        for mv in 0..count {
            if !self.leads_on(turn, mv) {
                return false;
            }
        }
        true
    }

    // Whether the question's fill holds: from what is remembered, or else asked and then remembered.
    #[cycle(asking)]
    #[inline(always)]
    pub(crate) fn holds(&mut self, question: Question) -> bool
        requires { OnBoard self.old.outlook question }
        ensures answer { Decides result (Held self.old.outlook question) }
        ensures same { self.new.outlook ≡ self.old.outlook }
    {
        if question.moves == 0 || self.outlook.is_far_from_edges(question) {
            return true;
        }
        if let Some(held) = self.recall(question) {
            return held;
        }
        let turn = Turn { question };
        let held = match self.outlook.line.owner(question.place).unwrap() {
            Owner::Ours => self.some_move(turn),
            Owner::Theirs => self.every_move(turn),
        };
        self.remember(question, held);
        held
    }
}
