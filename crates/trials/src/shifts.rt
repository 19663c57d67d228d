// Shifts: every refusal of every call with its spot, in the order of the checks, and orders done, withdrawn and given out again.
ghost use Rattle.std.specs.Prelude.{◌≡◌, true};
ghost use Rattle.shift.specs.Checks.{is_open_order};

use crate::bought::Leak;
use crate::lines::{ACCEPTED, Told, refused, told_whether};
use hopper::{Board, Closed, Fault, Lip, Vessel};
use linefile::FileLine;
use shift::{Order, Returned, Shift, StillOpen};
use solver::{NEVER, mark};
use std::test::Fail;

// At place 0 we take 3 out and go to 1, or pour 2 in and stay; at 1 they pour 4 in or take 2 out, and go to 0. A lip of 10.
const QUAY: [u8; 40] =
    *b"\x01\0\xfd\xff\0\0\x02\0\0\0\x04\0\0\0\xfe\xff\0\0\x02\0\x01\0\x02\0\x02\0\x04\0\x0a\0\0\0\0\0\0\x01\x18\0\0\0";

// 5 litres in from place 0 to 1, 5 litres out from 1 to 0; both ours. A lip of 10.
const PIT: [u8; 32] =
    *b"\x01\0\x05\0\0\0\xfb\xff\0\0\x01\0\0\0\x01\0\x02\0\x02\0\x0a\0\0\0\0\0\0\x01\x10\0\0\0";

// Marks for two places and a top of 10 that call every fill good.
const ALL_GOOD: [u32; 23] = [NEVER; 23];

// A shift and its open order.
struct Held {
    shift: Shift,
    order: Order,
    ghost open: { is_open_order shift order ≡ true },
}

// kept as it is: no plainer, the tests show one shift boards, vessels and marks that do not go together.
// Orders on a shift.
fn ordered<B: Board, V: Vessel>(
    mut shift: Shift,
    board: &B,
    vessel: &V,
    marks: &[u32],
) -> Result<Held, Fault> {
    let order = shift.order(board, vessel, marks)?;
    Ok(Held { shift, order })
}

// Opens a shift and orders.
fn opened_and_ordered<B: Board, V: Vessel>(
    number: u32,
    board: &B,
    vessel: &V,
    marks: &[u32],
    place: u32,
    fill: u32,
) -> Result<Held, Fault> {
    let shift = Shift::open(number, board, vessel, marks, place, fill)?;
    ordered(shift, board, vessel, marks)
}

impl Held {
    // kept as it is: no plainer, the log of shifts has a pair of its own, and a program is no library.
    // Takes the order back. It is the open one, so it cannot be refused.
    fn withdraw(self) -> Shift {
        let Held { mut shift, order } = self;
        shift.withdrawn(order).unwrap();
        shift
    }

    // The move that was ordered; then the order is withdrawn.
    fn mv(self) -> u32 {
        let mv = self.order.mv();
        let _shift = self.withdraw();
        mv
    }

    // Reports the order done on this board and vessel; then place and level.
    fn done<B: Board, V: Vessel>(self, board: &B, vessel: &V) -> (Told, u32, u32) {
        let Held { mut shift, order } = self;
        let said = match shift.done(board, vessel, order) {
            Ok(()) => ACCEPTED,
            Err(Returned { fault, order }) => {
                let back = Held { shift, order }.withdraw();
                return (refused(fault), back.place(), back.level());
            }
        };
        (said, shift.place(), shift.level())
    }

    // Reports the order done to another shift.
    fn done_to<B: Board, V: Vessel>(self, mut other: Shift, board: &B, vessel: &V) -> Told {
        let Held { shift, order } = self;
        match other.done(board, vessel, order) {
            Ok(()) => ACCEPTED,
            Err(Returned { fault, order }) => {
                let _back = Held { shift, order }.withdraw();
                refused(fault)
            }
        }
    }

    // Reports the order withdrawn to another shift.
    fn withdrawn_to(self, mut other: Shift) -> Told {
        let Held { shift, order } = self;
        match other.withdrawn(order) {
            Ok(()) => ACCEPTED,
            Err(Returned { fault, order }) => {
                let _back = Held { shift, order }.withdraw();
                refused(fault)
            }
        }
    }

    // Orders once more, while the order is open.
    fn order_more<B: Board, V: Vessel>(self, board: &B, vessel: &V, marks: &[u32]) -> Told {
        let Held { mut shift, order } = self;
        let fault = shift.order(board, vessel, marks).unwrap_err();
        let _back = Held { shift, order }.withdraw();
        refused(fault)
    }

    // kept as it is: no plainer, beside `order_more` the call is another and the rest three lines.
    // Reports a move of the other side, while the order is open.
    fn arrived<B: Board, V: Vessel>(self, board: &B, vessel: &V, mv: u32) -> Told {
        let Held { mut shift, order } = self;
        let fault = shift.arrived(board, vessel, mv).unwrap_err();
        let _back = Held { shift, order }.withdraw();
        refused(fault)
    }

    // Closes the shift, while the order is open.
    fn close(self) -> Told {
        let Held { shift, order } = self;
        let StillOpen { fault, shift } = shift.close().unwrap_err();
        let _back = Held { shift, order }.withdraw();
        refused(fault)
    }
}

// The line of a file, or the built-in one where it is refused.
fn line<'a>(file: &'a [u8]) -> FileLine<'a> {
    FileLine::try_from(file).unwrap_or(FileLine::built_in())
}

// Opens a shift.
fn open_told<B: Board, V: Vessel>(
    board: &B,
    vessel: &V,
    marks: &[u32],
    place: u32,
    fill: u32,
) -> Told {
    told_whether(Shift::open(7, board, vessel, marks, place, fill))
}

// Orders on a shift, and withdraws: the move, and what was told.
fn order_told<B: Board, V: Vessel>(
    shift: Shift,
    board: &B,
    vessel: &V,
    marks: &[u32],
) -> (Told, u32) {
    match ordered(shift, board, vessel, marks) {
        Ok(held) => (ACCEPTED, held.mv()),
        Err(fault) => (refused(fault), 0),
    }
}

// Reports a move of the other side, then place and level.
fn arrived_told<B: Board, V: Vessel>(
    mut shift: Shift,
    board: &B,
    vessel: &V,
    mv: u32,
) -> (Told, u32, u32) {
    let said = told_whether(shift.arrived(board, vessel, mv));
    (said, shift.place(), shift.level())
}

// Orders, withdraws, and orders again: both moves.
fn ordered_again<B: Board, V: Vessel>(
    shift: Shift,
    board: &B,
    vessel: &V,
    marks: &[u32],
) -> Result<(u32, u32), Fault> {
    let held = ordered(shift, board, vessel, marks)?;
    let first = held.order.mv();
    let again = ordered(held.withdraw(), board, vessel, marks)?;
    Ok((first, again.mv()))
}

#[test]
fn opens(rt: HostRuntime) -> Result<(), Fail> {
    let quay = line(&QUAY);
    let lip = Lip::new(10)?;
    let mut marks = [0; 23];
    let _rounds = mark(rt.alloc(), &quay, &lip, &mut marks)?;
    assert_eq!(rt; open_told(&quay, &lip, &marks, 0, 0), ACCEPTED);
    assert_eq!(rt; open_told(&quay, &lip, &marks, 1, 2), ACCEPTED);
    assert_eq!(rt; open_told(&quay, &lip, &marks, 1, 1), (27, 4, 1));
    assert_eq!(rt; open_told(&quay, &lip, &marks, 1, 11), (23, 4, 11));
    assert_eq!(rt; open_told(&quay, &lip, &marks, 2, 0), (18, 4, 2));
    // no such place, and a fill above the top
    assert_eq!(rt; open_told(&quay, &lip, &marks, 2, 11), (18, 4, 2));
    assert_eq!(rt; open_told(&quay, &lip, &marks[0..22], 0, 0), (17, 4, 23));
    // marks too short, and no such place
    assert_eq!(rt; open_told(&quay, &lip, &marks[0..22], 2, 0), (17, 4, 23));
    Ok(())
}

#[test]
fn opens_on_too_many_fills(rt: HostRuntime) -> Result<(), Fail> {
    let one = FileLine::built_in();
    assert_eq!(rt;
        open_told(&one, &Lip::new(65_535)?, &[], 0, 0),
        (17, 4, 65_537)
    );
    // too many fills, and marks too short
    assert_eq!(rt;
        open_told(&one, &Lip::new(65_536)?, &[], 0, 0),
        (16, 4, 65_536)
    );
    Ok(())
}

#[test]
fn orders_refused(rt: HostRuntime) -> Result<(), Fail> {
    let (quay, pit, one) = (line(&QUAY), line(&PIT), FileLine::built_in());
    let (lip, low) = (Lip::new(10)?, Lip::new(6)?);
    let good = ALL_GOOD;
    // an order is open; and the level is not on the vessel
    let held = opened_and_ordered(7, &quay, &lip, &good, 0, 8)?;
    assert_eq!(rt; held.order_more(&quay, &lip, &good), (28, 4, 0));
    let held = opened_and_ordered(7, &pit, &lip, &good, 1, 8)?;
    assert_eq!(rt; held.order_more(&pit, &low, &good), (28, 4, 1));
    // the board lacks the place; the vessel lacks the level, and the marks are too short
    let shift = Shift::open(7, &pit, &lip, &good, 1, 8)?;
    assert_eq!(rt; order_told(shift, &one, &lip, &good), ((29, 4, 1), 0));
    let shift = Shift::open(7, &pit, &lip, &good, 1, 8)?;
    assert_eq!(rt; order_told(shift, &pit, &low, &[]), ((29, 4, 1), 0));
    // the marks are too short; and the place is theirs
    let shift = Shift::open(7, &quay, &lip, &good, 0, 8)?;
    assert_eq!(rt;
        order_told(shift, &quay, &lip, &good[0..22]),
        ((17, 4, 23), 0)
    );
    let shift = Shift::open(7, &quay, &lip, &good, 1, 8)?;
    assert_eq!(rt;
        order_told(shift, &quay, &lip, &good[0..22]),
        ((17, 4, 23), 0)
    );
    // the place is theirs; and no move is good
    let shift = Shift::open(7, &quay, &lip, &good, 1, 8)?;
    assert_eq!(rt; order_told(shift, &quay, &lip, &good), ((30, 4, 1), 0));
    let shift = Shift::open(7, &quay, &lip, &good, 1, 8)?;
    assert_eq!(rt; order_told(shift, &quay, &lip, &[0; 23]), ((30, 4, 1), 0));
    // no move is good, by marks that are made up
    let shift = Shift::open(7, &pit, &lip, &good, 1, 8)?;
    assert_eq!(rt; order_told(shift, &pit, &lip, &[0; 23]), ((31, 4, 1), 0));
    Ok(())
}

#[test]
fn orders_by_the_marks(rt: HostRuntime) -> Result<(), Fail> {
    let quay = line(&QUAY);
    let lip = Lip::new(10)?;
    let mut marks = [0; 23];
    let _rounds = mark(rt.alloc(), &quay, &lip, &mut marks)?;
    // 3 litres would leave none at their place; 5 leave 2
    let shift = Shift::open(7, &quay, &lip, &marks, 0, 3)?;
    assert_eq!(rt; order_told(shift, &quay, &lip, &marks), (ACCEPTED, 1));
    let shift = Shift::open(7, &quay, &lip, &marks, 0, 5)?;
    assert_eq!(rt; order_told(shift, &quay, &lip, &marks), (ACCEPTED, 0));
    // marks that are made up are believed
    let shift = Shift::open(7, &quay, &lip, &marks, 0, 3)?;
    assert_eq!(rt; order_told(shift, &quay, &lip, &ALL_GOOD), (ACCEPTED, 0));
    let shift = Shift::open(7, &quay, &lip, &marks, 0, 3)?;
    assert_eq!(rt; ordered_again(shift, &quay, &lip, &marks)?, (1, 1));
    Ok(())
}

#[test]
fn dones(rt: HostRuntime) -> Result<(), Fail> {
    let (quay, pit, one) = (line(&QUAY), line(&PIT), FileLine::built_in());
    let (lip, low) = (Lip::new(10)?, Closed::new(6)?);
    let mut marks = [0; 23];
    let _rounds = mark(rt.alloc(), &quay, &lip, &mut marks)?;
    let good = ALL_GOOD;
    let held = opened_and_ordered(7, &quay, &lip, &marks, 0, 3)?;
    assert_eq!(rt; held.done(&quay, &lip), (ACCEPTED, 0, 5));
    let held = opened_and_ordered(7, &quay, &lip, &marks, 0, 5)?;
    assert_eq!(rt; held.done(&quay, &lip), (ACCEPTED, 1, 2));
    // the board lacks the place
    let held = opened_and_ordered(7, &pit, &lip, &good, 1, 5)?;
    assert_eq!(rt; held.done(&one, &lip), ((29, 4, 1), 1, 5));
    // the vessel lacks the level, and the place is theirs
    let held = opened_and_ordered(7, &quay, &lip, &good, 0, 7)?;
    assert_eq!(rt; held.done(&quay, &low), ((29, 4, 0), 0, 7));
    let held = opened_and_ordered(7, &quay, &lip, &good, 0, 7)?;
    assert_eq!(rt; held.done(&Leak, &low), ((29, 4, 0), 0, 7));
    // the place is theirs; and it has no such move
    let held = opened_and_ordered(7, &quay, &lip, &good, 0, 5)?;
    assert_eq!(rt; held.done(&Leak, &lip), ((30, 4, 0), 0, 5));
    let held = opened_and_ordered(7, &quay, &lip, &marks, 0, 3)?;
    assert_eq!(rt; held.done(&Leak, &lip), ((30, 4, 0), 0, 3));
    // the place has no such move
    let held = opened_and_ordered(7, &quay, &lip, &marks, 0, 3)?;
    assert_eq!(rt; held.done(&one, &lip), ((35, 4, 1), 0, 3));
    // the vessel refuses
    let held = opened_and_ordered(7, &pit, &lip, &good, 0, 3)?;
    assert_eq!(rt; held.done(&pit, &low), ((33, 4, 0), 0, 3));
    Ok(())
}

#[test]
fn orders_of_another_shift(rt: HostRuntime) -> Result<(), Fail> {
    let (quay, pit, one) = (line(&QUAY), line(&PIT), FileLine::built_in());
    let lip = Lip::new(10)?;
    let good = ALL_GOOD;
    // no order is open
    let other = Shift::open(8, &pit, &lip, &good, 1, 5)?;
    let held = opened_and_ordered(7, &pit, &lip, &good, 1, 5)?;
    assert_eq!(rt; held.done_to(other, &pit, &lip), (32, 4, 1));
    // and the board lacks the place
    let other = Shift::open(8, &pit, &lip, &good, 1, 5)?;
    let held = opened_and_ordered(7, &pit, &lip, &good, 1, 5)?;
    assert_eq!(rt; held.done_to(other, &one, &lip), (32, 4, 1));
    let other = Shift::open(8, &quay, &lip, &good, 1, 5)?;
    let held = opened_and_ordered(7, &pit, &lip, &good, 0, 5)?;
    assert_eq!(rt; held.withdrawn_to(other), (32, 4, 1));
    Ok(())
}

#[test]
fn arrivals(rt: HostRuntime) -> Result<(), Fail> {
    let (quay, one) = (line(&QUAY), FileLine::built_in());
    let (lip, low) = (Lip::new(10)?, Lip::new(6)?);
    let good = ALL_GOOD;
    let shift = Shift::open(7, &quay, &lip, &good, 1, 8)?;
    assert_eq!(rt; arrived_told(shift, &quay, &lip, 0), (ACCEPTED, 0, 10));
    let shift = Shift::open(7, &quay, &lip, &good, 1, 8)?;
    assert_eq!(rt; arrived_told(shift, &quay, &lip, 1), (ACCEPTED, 0, 6));
    // an order is open; and the level is not on the vessel
    let held = opened_and_ordered(7, &quay, &lip, &good, 0, 8)?;
    assert_eq!(rt; held.arrived(&quay, &lip, 0), (28, 4, 0));
    let held = opened_and_ordered(7, &quay, &lip, &good, 0, 8)?;
    assert_eq!(rt; held.arrived(&quay, &low, 0), (28, 4, 0));
    // the board lacks the place; the vessel lacks the level, and the place is ours
    let shift = Shift::open(7, &quay, &lip, &good, 1, 8)?;
    assert_eq!(rt; arrived_told(shift, &one, &lip, 0), ((29, 4, 1), 1, 8));
    let shift = Shift::open(7, &quay, &lip, &good, 0, 8)?;
    assert_eq!(rt; arrived_told(shift, &quay, &low, 0), ((29, 4, 0), 0, 8));
    // the place is ours; and it has no such move
    let shift = Shift::open(7, &quay, &lip, &good, 0, 8)?;
    assert_eq!(rt; arrived_told(shift, &quay, &lip, 0), ((34, 4, 0), 0, 8));
    let shift = Shift::open(7, &quay, &lip, &good, 0, 8)?;
    assert_eq!(rt; arrived_told(shift, &quay, &lip, 2), ((34, 4, 0), 0, 8));
    // the place has no such move
    let shift = Shift::open(7, &quay, &lip, &good, 1, 1)?;
    assert_eq!(rt; arrived_told(shift, &quay, &lip, 2), ((35, 4, 2), 1, 1));
    // the vessel refuses
    let shift = Shift::open(7, &quay, &lip, &good, 1, 1)?;
    assert_eq!(rt; arrived_told(shift, &quay, &lip, 1), ((33, 4, 1), 1, 1));
    Ok(())
}

#[test]
fn closes(rt: HostRuntime) -> Result<(), Fail> {
    let pit = line(&PIT);
    let lip = Lip::new(10)?;
    let held = opened_and_ordered(7, &pit, &lip, &ALL_GOOD, 1, 5)?;
    assert_eq!(rt; held.close(), (28, 4, 1));
    let shift = Shift::open(7, &pit, &lip, &ALL_GOOD, 1, 5)?;
    match shift.close() {
        Ok(at) => {
            assert_eq!(rt; at, (1, 5));
            Ok(())
        },
        Err(_still_open) => Err(Fail::new("still open")),
    }
}
