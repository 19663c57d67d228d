// A vessel of any of the three kinds.
ghost use Rattle.hopper.specs.Any.{any_hopper, any_keeps};

use super::closed::Closed;
use super::drawn::Drawn;
use super::lip::Lip;
use super::vessel::Vessel;

// Whichever of the three a line names. It pours as that one does.
#[derive(Clone, Copy)]
pub enum AnyVessel {
    OfLip(Lip),
    OfClosed(Closed),
    OfDrawn(Drawn),
}

impl Vessel for AnyVessel {
    ghost hopper = { any_hopper };

    ghost keeps = { any_keeps };

    fn top(&self) -> u32 {
        match self {
            AnyVessel::OfLip(vessel) => vessel.top(),
            AnyVessel::OfClosed(vessel) => vessel.top(),
            AnyVessel::OfDrawn(vessel) => vessel.top(),
        }
    }

    fn pour(&self, level: u32, amount: i32) -> Option<u32> {
        match self {
            AnyVessel::OfLip(vessel) => vessel.pour(level, amount),
            AnyVessel::OfClosed(vessel) => vessel.pour(level, amount),
            AnyVessel::OfDrawn(vessel) => vessel.pour(level, amount),
        }
    }
}
