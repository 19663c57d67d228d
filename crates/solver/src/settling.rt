// Whether marks settle: one pass over a board that looks at each mark beside those that its place's moves lead to.
ghost use Rattle.std.specs.Prelude.{◌≡◌, ℕ, ◌<◌, ◌≤◌, List, length, true, IfSome};
ghost use Rattle.game.specs.Forced.{foe};
ghost use Rattle.hopper.specs.Boards.{count_at};
ghost use Rattle.solver.specs.Entries.{never, KeptFrom};
ghost use Rattle.solver.specs.Forcing.{ForcedMarks};
ghost use Rattle.solver.specs.Inner.Marks.{LeadsToMark, IsBest, IsDue};
ghost use Rattle.solver.specs.Inner.Rows.{Prefers};

use super::NEVER;
use super::buffer::Entries;
use super::preferring::preferred;
use game::Owner;
use hopper::Board;

// The other of the two who choose. Marks are preferred by it as other numbers are by the owner: we want marks high.
fn foe(owner: Owner) -> Owner
    ensures { result ≡ foe owner }
{
    match owner {
        Owner::Ours => Owner::Theirs,
        Owner::Theirs => Owner::Ours,
    }
}

// The number that nothing is preferred to: never where it is to be high, 0 where it is to be low.
fn last(chooser: Owner) -> u32
    ensures { (n : ℕ) → n ≤ never → Prefers chooser result n }
{
    match chooser {
        Owner::Ours => 0,
        Owner::Theirs => NEVER,
    }
}

impl<B: Board> Entries<'_, B> {
    // The mark that the place's move m leads to.
    #[inline(always)]
    fn mark_led(&self, place: u32, m: u32) -> u32
        requires { m < count_at ((B.Board.game self.now.board.now).at place) }
        ensures { LeadsToMark (B.Board.game self.now.board.now) self.now.entries.now place m result }
    {
        self.entries[self.move_at(place, m).target as usize]
    }

    // Whether a move of the place is found that leads to this mark.
    fn finds(&self, place: u32, mark: u32) -> bool
        requires { place < (B.Board.game self.now.board.now).places }
        ensures { result ≡ true → (m : ℕ) × LeadsToMark (B.Board.game self.now.board.now) self.now.entries.now place m mark }
    {
        (0..self.move_count(place)).any(
            |m|
                requires { m < count_at ((B.Board.game self.now.board.now).at place) }
            { self.mark_led(place, m) == mark },
        )
    }

    // The highest of the marks that the moves of a place lead to where the place is ours, the lowest where it is theirs.
    // Where the place's own mark says that it is the very highest, or the very lowest, the moves are looked at up to one that leads there.
    fn best(&self, place: u32) -> u32
        requires { place < (B.Board.game self.now.board.now).places }
        ensures { IsBest (B.Board.game self.now.board.now) self.now.entries.now place result }
    {
        let marks = self.entries;
        let chooser = foe(self.owner(place));
        let end = last(chooser);
        if marks[place as usize] == end.saturating_add(1) && self.finds(place, end) {
            return end;
        }
        preferred(
            chooser,
            self.move_count(place),
            |m|
                requires { m < count_at ((B.Board.game self.now.board.now).at place) }
            { self.mark_led(place, m) },
        )
    }

    // The mark that is due at a place.
    fn due(&self, target: u32, place: u32) -> u32
        requires { place < (B.Board.game self.now.board.now).places }
        ensures { IsDue (B.Board.game self.now.board.now) self.now.entries.now target place result }
    {
        if place == target {
            0
        } else {
            self.best(place).saturating_add(1)
        }
    }

    // The largest mark that is a number, if the marks settle: they are the forced marks then.
    pub(crate) fn settled(&self, target: u32) -> Option<u32>
        requires { target < (B.Board.game self.now.board.now).places }
        ensures { (old : List ℕ) → KeptFrom (B.Board.game self.now.board.now).places old self.now.entries.now → IfSome result (ForcedMarks (B.Board.game self.now.board.now) target old self.now.entries.now) }
    {
        let places = self.board.places();
        let mut rounds = 0;
        for place in 0..places {
            let mark = self.entries[place as usize];
            if mark != self.due(target, place) {
                return None;
            }
            if mark != NEVER {
                rounds = rounds.max(mark);
            }
        }
        (rounds < places).then_some(rounds)
    }
}

// Has the marks of all places guessed, and answers the number of rounds if they were guessed and settle.
pub(crate) fn guessed<B: Board, F: FnOnce(&mut [u32]) -> Option<()>>(
    board: &B,
    target: u32,
    marks: &mut [u32],
    guess: F,
) -> Option<u32>
    requires target { target < (B.Board.game board.now).places }
    requires room { (B.Board.game board.now).places ≤ length marks.old }
    requires callable { F.IsAlwaysCallable guess }
    ensures marked { IfSome result (ForcedMarks (B.Board.game board.now) target marks.old marks.new) }
    ensures kept { KeptFrom (B.Board.game board.now).places marks.old marks.new }
{
    let places = board.places() as usize;
    guess(&mut marks[..places])?;
    let entries = Entries {
        board,
        entries: marks,
    };
    entries.settled(target)
}
