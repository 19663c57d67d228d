// The drawn vessel.
ghost use Rattle.std.specs.Prelude.{◌≡◌, ◌≤◌};
ghost use Rattle.game.specs.Limits.{most_draw};
ghost use Rattle.game.specs.Vessel.{drawn};
ghost use Rattle.game.specs.Rows.{need_drawn};
ghost use Rattle.game.proofs.Vessels.{vessels_keep_rules};
ghost use Rattle.hopper.specs.Making.{drawn_checks};
ghost use Rattle.hopper.specs.Refusing.{Answers};

use super::limits::MOST_DRAW;
use super::top::{Top, range_check};
use super::vessel::{Graded, Vessel};
use super::{Fault, pass};

// A drawn vessel: it has a lip, and after each pour it loses the draw, which it must hold.
#[derive(Clone, Copy)]
pub struct Drawn {
    top: Top,
    draw: u32,
    ghost draws: { (1 ≤ draw) × (draw ≤ most_draw) },
}

impl Drawn {
    // The drawn vessel with this top and draw.
    pub fn new(top: u32, draw: u32) -> Result<Drawn, Fault>
        ensures { Answers (drawn_checks top draw) (λ v. (v.top.litres ≡ top) × (v.draw ≡ draw)) (Unit {0}) result }
    {
        let top = Top::new(top)?;
        pass(&[range_check(draw < 1 || draw > MOST_DRAW, draw)])?;
        Ok(Drawn { top, draw })
    }

    // What is taken off after each pour.
    pub fn draw(&self) -> u32
        ensures { result ≡ self.now.draw }
    {
        self.draw
    }
}

impl Vessel for Drawn {
    ghost hopper = { λ v. drawn v.top.litres v.draw };

    ghost keeps = { λ v. (vessels_keep_rules v.top.litres v.draw v.top.fits).drawn_keeps };

    fn top(&self) -> u32 {
        self.top.litres
    }

    fn pour(&self, level: u32, amount: i32) -> Option<u32> {
        let sum = self.top.added(level, amount)?;
        let cut = sum.min(self.top.litres);
        cut.checked_sub(self.draw)
    }
}

impl Graded for Drawn {
    ghost need = { λ v. need_drawn v.top.litres v.draw };

    fn need(&self, wanted: u32, amount: i32) -> Option<u32> {
        if wanted > self.top.litres {
            return None;
        }
        self.top.lifted(wanted + self.draw, amount)
    }

    ghost graded = { λ v. (vessels_keep_rules v.top.litres v.draw v.top.fits).drawn_graded };
}
