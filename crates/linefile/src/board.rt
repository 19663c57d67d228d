// The line of a file as a board, and its own vessel.
ghost use Rattle.std.specs.Prelude.{◌≡◌};
ghost use Rattle.hopper.specs.Any.{any_hopper};
ghost use Rattle.lineformat.specs.Games.{game_of, hopper_of};
ghost use Rattle.lineformat.proofs.Formed.{file_formed};
ghost use Rattle.linefile.specs.Held.{file_of, line_held, OwnVessel};

use super::FileLine;
use game::{Edge, Owner};
use hopper::{AnyVessel, Board, Closed, Drawn, Lip};
use lineformat::Kind;

// The line that was read, as a game.
impl<'a> Board for FileLine<'a> {
    ghost game = { λ b. game_of (line_held b) };

    ghost formed = { λ b. file_formed (file_of b) b.accepted };

    fn places(&self) -> u32 {
        self.place_count() as u32
    }

    #[tactic(auto, using(lineformat::proofs::Formed::owner_is))]
    fn owner(&self, place: u32) -> Option<Owner> {
        Owner::try_from(self.place_record(place as usize)?.owner).ok()
    }

    #[tactic(auto, using(lineformat::proofs::Formed::moves_is))]
    fn moves(&self, place: u32) -> Option<u32> {
        Some(u32::from(self.place_record(place as usize)?.moves))
    }

    #[tactic(auto, using(lineformat::proofs::Formed::step_is))]
    fn step(&self, place: u32, mv: u32) -> Option<Edge> {
        let step = self.move_record_of(place as usize, mv as usize)?;
        Some(Edge {
            target: u32::from(step.target),
            amount: i32::from(step.amount),
        })
    }
}

impl<'a> FileLine<'a> {
    // The vessel of the line: whichever of the three its file names.
    pub fn vessel(&self) -> AnyVessel
        ensures own { OwnVessel (line_held self.now) result }
        ensures hopper { any_hopper result ≡ hopper_of (line_held self.now) }
        ensures top { (any_hopper result).top ≡ (line_held self.now).top }
    {
        let top = self.top();
        match self.kind() {
            Kind::Lip => AnyVessel::OfLip(Lip::new(top).unwrap()),
            Kind::Closed => AnyVessel::OfClosed(Closed::new(top).unwrap()),
            Kind::Drawn => AnyVessel::OfDrawn(Drawn::new(top, u32::from(self.draw())).unwrap()),
        }
    }
}
