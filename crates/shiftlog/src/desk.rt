// What lies on the desk between two calls, the shift and the order that it gave out, and what each call makes of it.
ghost use Rattle.std.specs.Prelude.{◌≡◌, true};
ghost use Rattle.shift.specs.Checks.{is_open_order};

use crate::call::ShiftCall;
use crate::said::{Answer, Position, Refused, Said};
use hopper::AnyVessel;
use linefile::FileLine;
use shift::{Order, Returned, Shift, StillOpen};

// What the calls are made on: a line, its vessel, and the marks of its fills.
#[derive(Clone, Copy)]
pub(crate) struct Bench<'x, 'f, 'm> {
    pub(crate) line: &'x FileLine<'f>,
    pub(crate) vessel: &'x AnyVessel,
    pub(crate) marks: &'m [u32],
}

// A shift and its open order.
pub(crate) struct Pair {
    shift: Shift,
    order: Order,
    ghost open: { is_open_order shift order ≡ true },
}

// No shift, or a shift without an order, or a shift with its open order.
// kept as it is: no plainer, which of the three holds decides which refusal is impossible, and an order cannot be dropped.
pub(crate) enum Desk {
    Closed,
    Standing(Shift),
    Ordered(Pair),
}

// How a desk was cleared: whether its order was withdrawn, and where its shift was closed.
#[derive(Clone, Copy)]
pub(crate) struct Ended {
    pub(crate) withdrawn: bool,
    pub(crate) at: Position,
}

impl<'x, 'f, 'm> Bench<'x, 'f, 'm> {
    fn open(self, number: u32, place: u32, fill: u32) -> (Desk, Answer) {
        match Shift::open(number, self.line, self.vessel, self.marks, place, fill) {
            Ok(shift) => standing(shift, Ok(Said::Opened)),
            Err(fault) => (Desk::Closed, Answer::unmade(Err(fault.into()))),
        }
    }

    fn order(self, mut shift: Shift) -> (Desk, Answer) {
        match shift.order(self.line, self.vessel, self.marks) {
            Ok(order) => {
                let said = Said::Ordered { mv: order.mv() };
                Pair { shift, order }.ordered(Ok(said))
            }
            Err(fault) => standing(shift, Err(fault.into())),
        }
    }

    fn arrived(self, mut shift: Shift, mv: u32) -> (Desk, Answer) {
        let answer = shift.arrived(self.line, self.vessel, mv);
        standing(shift, answer.map(|()| Said::Arrived).map_err(Refused::from))
    }
}

// A call that leaves this shift without an order.
fn standing(shift: Shift, said: Result<Said, Refused>) -> (Desk, Answer) {
    let answer = Answer::made(&shift, said);
    (Desk::Standing(shift), answer)
}

fn close(shift: Shift) -> (Desk, Answer) {
    match shift.close() {
        Ok(at) => (
            Desk::Closed,
            Answer {
                said: Ok(Said::Closed),
                at: Some(at.into()),
            },
        ),
        Err(StillOpen { fault, shift }) => standing(shift, Err(fault.into())),
    }
}

impl Pair {
    // A call that leaves this shift with its order.
    fn ordered(self, said: Result<Said, Refused>) -> (Desk, Answer) {
        let answer = Answer::made(&self.shift, said);
        (Desk::Ordered(self), answer)
    }

    fn done(self, bench: Bench) -> (Desk, Answer) {
        let Pair { mut shift, order } = self;
        match shift.done(bench.line, bench.vessel, order) {
            Ok(()) => standing(shift, Ok(Said::Done)),
            Err(Returned { fault, order }) => Pair { shift, order }.ordered(Err(fault.into())),
        }
    }

    // Takes the order back. It is the open one, so it cannot be refused.
    fn withdraw(self) -> Shift {
        let Pair { mut shift, order } = self;
        shift.withdrawn(order).unwrap();
        shift
    }

    // Another order, while this one is open: refused.
    fn order(self, bench: Bench) -> (Desk, Answer) {
        let Pair { mut shift, order } = self;
        let fault = shift
            .order(bench.line, bench.vessel, bench.marks)
            .unwrap_err();
        Pair { shift, order }.ordered(Err(fault.into()))
    }

    // A move of the other side, while an order is open: refused.
    fn arrived(self, bench: Bench, mv: u32) -> (Desk, Answer) {
        let Pair { mut shift, order } = self;
        let fault = shift.arrived(bench.line, bench.vessel, mv).unwrap_err();
        Pair { shift, order }.ordered(Err(fault.into()))
    }

    // The close of a shift whose order is open: refused.
    fn close(self) -> (Desk, Answer) {
        let Pair { shift, order } = self;
        let StillOpen { fault, shift } = shift.close().unwrap_err();
        Pair { shift, order }.ordered(Err(fault.into()))
    }
}

impl Desk {
    // Makes a call.
    pub(crate) fn step(self, bench: Bench, call: ShiftCall) -> (Desk, Answer) {
        match (self, call) {
            (
                Desk::Closed,
                ShiftCall::Open {
                    number,
                    place,
                    fill,
                },
            ) => bench.open(number, place, fill),
            (Desk::Closed, _) => (Desk::Closed, Answer::unmade(Err(Refused::NoShift))),
            (desk, ShiftCall::Open { .. }) => (desk, Answer::unmade(Err(Refused::ShiftIsOpen))),
            (Desk::Standing(shift), ShiftCall::Order) => bench.order(shift),
            (Desk::Standing(shift), ShiftCall::Arrived { mv }) => bench.arrived(shift, mv),
            (Desk::Standing(shift), ShiftCall::Close) => close(shift),
            (Desk::Standing(shift), ShiftCall::Done | ShiftCall::Withdrawn) => (
                Desk::Standing(shift),
                Answer::unmade(Err(Refused::NoOrder)),
            ),
            (Desk::Ordered(pair), ShiftCall::Order) => pair.order(bench),
            (Desk::Ordered(pair), ShiftCall::Done) => pair.done(bench),
            (Desk::Ordered(pair), ShiftCall::Withdrawn) => {
                standing(pair.withdraw(), Ok(Said::Withdrawn))
            }
            (Desk::Ordered(pair), ShiftCall::Arrived { mv }) => pair.arrived(bench, mv),
            (Desk::Ordered(pair), ShiftCall::Close) => pair.close(),
        }
    }

    // Withdraws the order that is still open and closes the shift.
    pub(crate) fn end(self) -> Option<Ended> {
        let (withdrawn, shift) = match self {
            Desk::Closed => return None,
            Desk::Standing(shift) => (false, shift),
            Desk::Ordered(pair) => (true, pair.withdraw()),
        };
        let at = shift.close().ok()?.into();
        Some(Ended { withdrawn, at })
    }
}
