// Shifts and orders as plain numbers, for a crate that hands them over to other languages, which hold no linear value.
// By these calls an order can be named that no shift gave out, named twice, or let go without a report. So each of them is unsafe, and
// whoever calls it answers for the orders of the shift.
ghost use Rattle.std.specs.Prelude.{◌≡◌};

use super::{Order, Shift};

impl Shift {
    // The shift with these numbers.
    pub unsafe fn from_numbers(number: u32, place: u32, level: u32, opened: Option<u32>) -> Shift
        ensures { result ≡ record { number = number; place = place; level = level; opened = opened } }
    {
        Shift {
            number,
            place,
            level,
            opened,
        }
    }
}

impl Order {
    // The order for a move of the place where the shift of this number stands.
    pub unsafe fn from_numbers(shift: u32, place: u32, mv: u32) -> Order
        ensures { result ≡ record { shift = shift; place = place; mv = mv } }
    {
        Order { shift, place, mv }
    }

    // The move of the order, which is then gone without a report.
    pub unsafe fn into_number(self) -> u32
        ensures { result ≡ self.mv }
    {
        let mv = self.mv;
        self.spend();
        mv
    }
}
