// How many looks at the moves of places may be taken before marks are made in another way.
use std::convert::Infallible;

// What is asked whether there may be more looks.
pub(crate) trait Budget: Drop {
    // What is answered where there may be no more.
    type Exhausted: Drop;

    // Takes so many looks off.
    fn spend(&mut self, looks: u32) -> Result<(), Self::Exhausted>;
}

// There may be as many as it takes.
#[derive(Clone, Copy)]
pub(crate) struct Unlimited;

impl Budget for Unlimited {
    type Exhausted = Infallible;

    fn spend(&mut self, _looks: u32) -> Result<(), Infallible> {
        Ok(())
    }
}

// There may be no more than are left.
#[derive(Clone, Copy)]
pub(crate) struct Looks {
    left: u64,
}

impl Looks {
    // So few that of all looks at so many moves they are a small part.
    pub(crate) fn few(moves: u64) -> Looks {
        Looks { left: moves / 16 }
    }
}

// No looks are left.
#[derive(Clone, Copy)]
pub(crate) struct NoneLeft;

impl Budget for Looks {
    type Exhausted = NoneLeft;

    fn spend(&mut self, looks: u32) -> Result<(), NoneLeft> {
        self.left = self.left.checked_sub(looks as u64).ok_or(NoneLeft)?;
        Ok(())
    }
}
