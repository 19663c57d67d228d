// Vessels: whatever answers which level a pour leads to.
ghost use Rattle.std.specs.Prelude.{◌≡◌};
ghost use Rattle.game.specs.Vessel.{Hopper, Keeps};
ghost use Rattle.game.specs.Rows.{Need, Graded};

// A vessel means a hopper, which keeps the rules. Pouring alters nothing: the level is the caller's.
pub trait Vessel {
    ghost hopper: { Self → Hopper };

    ghost keeps: { (v : Self) → Keeps (hopper v) };

    // The highest level.
    fn top(&self) -> u32
        ensures { result ≡ (hopper self.now).top };

    // The level after the amount is poured in, or taken out, at this level; None where the vessel refuses.
    fn pour(&self, level: u32, amount: i32) -> Option<u32>
        ensures { result ≡ (hopper self.now).table level amount };
}

// A graded vessel pours no less from a higher level, so it can say how high is high enough.
pub trait Graded: Vessel {
    ghost need: { Self → Need };

    // The lowest level from which the amount leads to the wanted level or above; None where no level is high enough.
    fn need(&self, wanted: u32, amount: i32) -> Option<u32>
        ensures { result ≡ need self.now wanted amount };

    ghost graded: { (v : Self) → Graded (Self.Vessel.hopper v) (need v) };
}
