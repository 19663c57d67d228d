// The vessel with a lip.
ghost use Rattle.std.specs.Prelude.{◌≡◌};
ghost use Rattle.game.specs.Vessel.{lip};
ghost use Rattle.game.specs.Rows.{need_lip};
ghost use Rattle.game.proofs.Vessels.{vessels_keep_rules};
ghost use Rattle.hopper.specs.Making.{top_checks};
ghost use Rattle.hopper.specs.Refusing.{Answers};

use super::Fault;
use super::top::Top;
use super::vessel::{Graded, Vessel};

// A vessel with a lip: what is above the top runs over.
#[derive(Clone, Copy)]
pub struct Lip {
    top: Top,
}

impl Lip {
    // kept as it is: no plainer, `Top` has the check and the fact that both vessels share, and each names its own type.
    // The lip with this top.
    pub fn new(top: u32) -> Result<Lip, Fault>
        ensures { Answers (top_checks top) (λ v. v.top.litres ≡ top) (Unit {0}) result }
    {
        let top = Top::new(top)?;
        Ok(Lip { top })
    }
}

impl Vessel for Lip {
    ghost hopper = { λ v. lip v.top.litres };

    ghost keeps = { λ v. (vessels_keep_rules v.top.litres 0 v.top.fits).lip_keeps };

    fn top(&self) -> u32 {
        self.top.litres
    }

    fn pour(&self, level: u32, amount: i32) -> Option<u32> {
        let sum = self.top.added(level, amount)?;
        Some(sum.min(self.top.litres))
    }
}

impl Graded for Lip {
    ghost need = { λ v. need_lip v.top.litres };

    fn need(&self, wanted: u32, amount: i32) -> Option<u32> {
        self.top.lifted(wanted, amount)
    }

    ghost graded = { λ v. (vessels_keep_rules v.top.litres 0 v.top.fits).lip_graded };
}
