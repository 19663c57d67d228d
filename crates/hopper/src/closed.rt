// The closed vessel.
ghost use Rattle.std.specs.Prelude.{◌≡◌};
ghost use Rattle.game.specs.Vessel.{closed};
ghost use Rattle.game.proofs.Vessels.{vessels_keep_rules};
ghost use Rattle.hopper.specs.Making.{top_checks};
ghost use Rattle.hopper.specs.Refusing.{Answers};

use super::Fault;
use super::top::Top;
use super::vessel::Vessel;

// A closed vessel: it refuses what would come above the top.
#[derive(Clone, Copy)]
pub struct Closed {
    top: Top,
}

impl Closed {
    // The closed vessel with this top.
    pub fn new(top: u32) -> Result<Closed, Fault>
        ensures { Answers (top_checks top) (λ v. v.top.litres ≡ top) (Unit {0}) result }
    {
        let top = Top::new(top)?;
        Ok(Closed { top })
    }
}

impl Vessel for Closed {
    ghost hopper = { λ v. closed v.top.litres };

    ghost keeps = { λ v. (vessels_keep_rules v.top.litres 0 v.top.fits).closed_keeps };

    fn top(&self) -> u32 {
        self.top.litres
    }

    fn pour(&self, level: u32, amount: i32) -> Option<u32> {
        let sum = self.top.added(level, amount)?;
        (sum <= self.top.litres).then_some(sum)
    }
}
