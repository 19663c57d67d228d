// Shifts by their numbers.
ghost use Rattle.std.specs.Prelude.{◌≡◌};
ghost use Rattle.std.specs.Result.{result_map_both};
ghost use Rattle.hopper.specs.Refusing.{if_accepted};
ghost use Rattle.shift.specs.StartingFill.{StartingFillsDecide};
ghost use Rattle.panel.specs.Told.{Says, Writes};
ghost use Rattle.panel.specs.Shifts.{shift_named, shift_numbers, order_named, FileOpened, FileOrdered, FileDone, NumbersWithdrawn, FileArrived, NumbersClosed};

use super::numbers::{FaultNumbers, tell, told};
use hopper::Fault;
use linefile::FileLine;
use shift::{Order, Returned, Shift, StillOpen};

// A shift as C keeps it: an order is open where `ordered` is not 0, and `mv` is its move.
#[repr(C)]
#[derive(Clone, Copy)]
pub struct ShiftNumbers {
    pub number: u32,
    pub place: u32,
    pub level: u32,
    pub ordered: u32,
    pub mv: u32,
}

impl From<Shift> for ShiftNumbers {
    ghost from_gives = { λ s n. n ≡ shift_numbers s };

    fn from(shift: Shift) -> ShiftNumbers {
        ShiftNumbers {
            number: shift.number(),
            place: shift.place(),
            level: shift.level(),
            ordered: u32::from(shift.opened().is_some()),
            mv: shift.opened().unwrap_or(0),
        }
    }
}

impl ShiftNumbers {
    // The shift that the numbers name. C answers for it: no call of this library keeps a shift or an order.
    fn shift(self) -> Shift
        ensures { result ≡ shift_named self }
    {
        let opened = (self.ordered != 0).then_some(self.mv);
        unsafe { Shift::from_numbers(self.number, self.place, self.level, opened) }
    }

    // Writes the shift after a call down, where the call accepts, and hands its answer on.
    fn keep<T: Copy>(&mut self, answer: Result<T, Fault>, after: Shift) -> Result<T, Fault>
        ensures answer { result ≡ answer }
        ensures kept { self.new ≡ if_accepted answer (shift_numbers after) self.old }
    {
        if answer.is_ok() {
            *self = after.into();
        }
        answer
    }
}

// The order that three numbers name.
fn order_named(number: u32, place: u32, mv: u32) -> Order
    ensures { result ≡ order_named number place mv }
{
    unsafe { Order::from_numbers(number, place, mv) }
}

// The number of the move that was ordered, for the order itself.
fn by_number(answer: Result<Order, Fault>) -> Result<u32, Fault>
    ensures { result ≡ result_map_both (λ o. o.mv) (λ f. f) answer }
{
    match answer {
        Ok(order) => Ok(unsafe { order.into_number() }),
        Err(fault) => Err(fault),
    }
}

// The fault alone, for the fault with the order.
fn without_order(answer: Result<(), Returned>) -> Result<(), Fault>
    ensures { result ≡ result_map_both (λ u. u) (λ x. x.fault) answer }
{
    match answer {
        Ok(()) => Ok(()),
        Err(Returned { fault, order }) => {
            let _mv = unsafe { order.into_number() };
            Err(fault)
        }
    }
}

fn open_file(
    file: &[u8],
    marks: &[u32],
    number: u32,
    place: u32,
    fill: u32,
    out: &mut ShiftNumbers,
) -> Result<(), Fault>
    ensures { FileOpened file.now marks.now number place fill out.old out.new result }
{
    let line = FileLine::try_from(file)?;
    let shift = Shift::open(number, &line, &line.vessel(), marks, place, fill)?;
    *out = shift.into();
    Ok(())
}

#[unsafe(no_mangle)]
#[tactic(auto, using(shift::proofs::StartingFill::starting_fills_decide))]
pub extern "C" fn hopper_open(
    file: &[u8],
    marks: &[u32],
    number: u32,
    place: u32,
    fill: u32,
    out: &mut ShiftNumbers,
) -> FaultNumbers
    ensures answer { Says result (FileOpened file.now marks.now number place fill out.old out.new) }
    ensures decides { StartingFillsDecide }
{
    told(open_file(file, marks, number, place, fill, out))
}

fn order_file(file: &[u8], marks: &[u32], shift: &mut ShiftNumbers) -> Result<u32, Fault>
    ensures { FileOrdered file.now marks.now shift.old shift.new result }
{
    let line = FileLine::try_from(file)?;
    let mut after = shift.shift();
    let answer = by_number(after.order(&line, &line.vessel(), marks));
    shift.keep(answer, after)
}

#[unsafe(no_mangle)]
pub extern "C" fn hopper_order(
    file: &[u8],
    marks: &[u32],
    shift: &mut ShiftNumbers,
    mv: &mut u32,
) -> FaultNumbers
    ensures { Writes result mv.old mv.new (FileOrdered file.now marks.now shift.old shift.new) }
{
    tell(order_file(file, marks, shift), mv)
}

fn done_file(
    file: &[u8],
    shift: &mut ShiftNumbers,
    number: u32,
    place: u32,
    mv: u32,
) -> Result<(), Fault>
    ensures { FileDone file.now number place mv shift.old shift.new result }
{
    let line = FileLine::try_from(file)?;
    let mut after = shift.shift();
    let order = order_named(number, place, mv);
    let answer = without_order(after.done(&line, &line.vessel(), order));
    shift.keep(answer, after)
}

#[unsafe(no_mangle)]
pub extern "C" fn hopper_done(
    file: &[u8],
    shift: &mut ShiftNumbers,
    number: u32,
    place: u32,
    mv: u32,
) -> FaultNumbers
    ensures { Says result (FileDone file.now number place mv shift.old shift.new) }
{
    told(done_file(file, shift, number, place, mv))
}

fn withdraw(shift: &mut ShiftNumbers, number: u32, place: u32, mv: u32) -> Result<(), Fault>
    ensures { NumbersWithdrawn number place mv shift.old shift.new result }
{
    let mut after = shift.shift();
    let answer = without_order(after.withdrawn(order_named(number, place, mv)));
    shift.keep(answer, after)
}

#[unsafe(no_mangle)]
pub extern "C" fn hopper_withdrawn(
    shift: &mut ShiftNumbers,
    number: u32,
    place: u32,
    mv: u32,
) -> FaultNumbers
    ensures { Says result (NumbersWithdrawn number place mv shift.old shift.new) }
{
    told(withdraw(shift, number, place, mv))
}

fn arrive_file(file: &[u8], shift: &mut ShiftNumbers, mv: u32) -> Result<(), Fault>
    ensures { FileArrived file.now mv shift.old shift.new result }
{
    let line = FileLine::try_from(file)?;
    let mut after = shift.shift();
    let answer = after.arrived(&line, &line.vessel(), mv);
    shift.keep(answer, after)
}

#[unsafe(no_mangle)]
pub extern "C" fn hopper_arrived(file: &[u8], shift: &mut ShiftNumbers, mv: u32) -> FaultNumbers
    ensures { Says result (FileArrived file.now mv shift.old shift.new) }
{
    told(arrive_file(file, shift, mv))
}

// Gives the shift that the numbers name up for its place and level, or for the fault that it is refused with.
fn close(shift: &ShiftNumbers) -> Result<(u32, u32), Fault>
    ensures { NumbersClosed shift.now result }
{
    match shift.shift().close() {
        Ok(at) => Ok(at),
        Err(StillOpen { fault, shift: _ }) => Err(fault),
    }
}

#[unsafe(no_mangle)]
pub extern "C" fn hopper_close(
    shift: &ShiftNumbers,
    place: &mut u32,
    level: &mut u32,
) -> FaultNumbers
    ensures { Writes result (place.old, level.old) (place.new, level.new) (NumbersClosed shift.now) }
{
    let mut at = (*place, *level);
    let answer = tell(close(shift), &mut at);
    (*place, *level) = at;
    answer
}
