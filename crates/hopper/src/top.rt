// The top of a vessel, and what the three kinds of vessel share below it.
ghost use Rattle.std.specs.Prelude.{◌≡◌, ◌≤◌};
ghost use Rattle.game.specs.Limits.{most_top};
ghost use Rattle.game.specs.Vessel.{unlimited, up_to};
ghost use Rattle.game.specs.Rows.{need_lip};
ghost use Rattle.hopper.specs.Faults.{check};
ghost use Rattle.hopper.specs.Making.{top_checks};
ghost use Rattle.hopper.specs.Refusing.{Answers};

use super::limits::{MOST_AMOUNT, MOST_TOP};
use super::{Check, Fault, Layer, Refusal, check, pass};

// A top, which is within the limits.
#[derive(Clone, Copy)]
pub(crate) struct Top {
    pub(crate) litres: u32,
    ghost fits: { litres ≤ most_top },
}

// The check that refuses where a number of a vessel is out of range.
pub(crate) fn range_check(out: bool, number: u32) -> Check
    ensures { result ≡ check out Refusal.VesselOutOfRange Layer.File number }
{
    check(out, Refusal::VesselOutOfRange, Layer::File, number as u64)
}

impl Top {
    pub(crate) fn new(litres: u32) -> Result<Top, Fault>
        ensures { Answers (top_checks litres) (λ t. t.litres ≡ litres) (Unit {0}) result }
    {
        pass(&[range_check(litres > MOST_TOP, litres)])?;
        Ok(Top { litres })
    }

    // The level and the amount added up, where both are within the limits and the sum is not below 0.
    pub(crate) fn added(self, level: u32, amount: i32) -> Option<u32>
        ensures { result ≡ up_to self.litres unlimited level amount }
    {
        if level > self.litres || amount < -MOST_AMOUNT || amount > MOST_AMOUNT {
            return None;
        }
        u32::try_from(level as i32 + amount).ok()
    }

    // The lowest level up to the top from which the sum, cut at the top, comes to the wanted level.
    pub(crate) fn lifted(self, wanted: u32, amount: i32) -> Option<u32>
        ensures { result ≡ need_lip self.litres wanted amount }
    {
        if wanted > self.litres || amount < -MOST_AMOUNT || amount > MOST_AMOUNT {
            return None;
        }
        let from = (wanted as i32 - amount).max(0) as u32;
        (from <= self.litres).then_some(from)
    }
}
