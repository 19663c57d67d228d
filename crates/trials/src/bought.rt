// A board and a vessel that are not of the planner: it is enough that they keep the rules of boards and vessels.
ghost use Rattle.std.specs.Prelude.{◌≡◌, ◌≤◌};
ghost use Rattle.game.specs.Limits.{most_top};
ghost use Rattle.trials.specs.Bought.{leak_game, leak_formed, sieve, sieve_keeps};

use game::{Edge, Owner};
use hopper::limits::MOST_AMOUNT;
use hopper::{Board, Vessel};

// One place, where the other side takes out a litre at each move.
#[derive(Clone, Copy)]
pub struct Leak;

impl Board for Leak {
    ghost game = { λ _. leak_game };

    ghost formed = { λ _. leak_formed };

    fn places(&self) -> u32 {
        1
    }

    fn owner(&self, place: u32) -> Option<Owner> {
        (place == 0).then_some(Owner::Theirs)
    }

    fn moves(&self, place: u32) -> Option<u32> {
        (place == 0).then_some(1)
    }

    fn step(&self, place: u32, mv: u32) -> Option<Edge> {
        (place == 0 && mv == 0).then_some(Edge {
            target: 0,
            amount: -1,
        })
    }
}

// A sieve: whatever is poured, nothing is left in it.
#[derive(Clone, Copy)]
pub struct Sieve {
    top: u32,
    ghost fits: { top ≤ most_top },
}

impl Sieve {
    // A sieve of three litres.
    pub fn small() -> Sieve
        ensures { result.top ≡ 3 }
    {
        Sieve { top: 3 }
    }
}

impl Vessel for Sieve {
    ghost hopper = { λ v. sieve v.top };

    ghost keeps = { λ v. sieve_keeps v.top v.fits };

    fn top(&self) -> u32 {
        self.top
    }

    fn pour(&self, level: u32, amount: i32) -> Option<u32> {
        if level > self.top || amount < -MOST_AMOUNT || amount > MOST_AMOUNT {
            None
        } else {
            Some(0)
        }
    }
}
