// Boards: whatever answers for the places and moves of a game.
ghost use Rattle.std.specs.Prelude.{◌≡◌};
ghost use Rattle.game.specs.Game.{Game, WellFormed};
ghost use Rattle.hopper.specs.Boards.{owner_at, moves_at, step_at};

use game::{Edge, Owner};

// A board means one game within the limits. Asking alters nothing.
pub trait Board {
    ghost game: { Self → Game };

    ghost formed: { (b : Self) → WellFormed (game b) };

    // How many places there are. Their numbers begin at 0.
    fn places(&self) -> u32
        ensures { result ≡ (game self.now).places };

    // Who chooses at the place.
    fn owner(&self, place: u32) -> Option<Owner>
        ensures { result ≡ owner_at ((game self.now).at place) };

    // How many moves the place has. Their numbers begin at 0.
    fn moves(&self, place: u32) -> Option<u32>
        ensures { result ≡ moves_at ((game self.now).at place) };

    // One move of the place.
    fn step(&self, place: u32, mv: u32) -> Option<Edge>
        ensures { result ≡ step_at ((game self.now).at place) mv };
}
