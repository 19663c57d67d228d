// Marks: the two small lines over closed vessels, the edges of what is marked, and boards and vessels of a buyer's own.
use crate::bought::{Leak, Sieve};
use crate::lines::{OURS, Told, file_of, line_p, line_q, told, told_whether};
use hopper::{Closed, Drawn, Fault, Lip};
use linefile::FileLine;
use lineformat::{Kind, MoveRecord};
use solver::{NEVER, forced, mark};
use std::alloc::Global;
use std::test::Fail;

// A number that stands in a buffer before a call.
const OLD: u32 = 77;

// Reads a file and marks its line with its own vessel.
fn marked(heap: Global, file: &[u8], marks: &mut [u32]) -> Result<u32, Fault> {
    let line = FileLine::try_from(file)?;
    mark(heap, &line, &line.vessel(), marks)
}

pub(crate) fn mark_file(heap: Global, file: &[u8], marks: &mut [u32]) -> Told {
    told(marked(heap, file, marks))
}

#[test]
fn p_over_closed_six(rt: HostRuntime) -> Result<(), Fail> {
    let file = line_p(rt.alloc(), Kind::Closed, 6, 0)?;
    let mut marks = [OLD; 17];
    assert_eq!(rt; mark_file(rt.alloc(), &file, &mut marks), (0, 0, 1));
    assert!(rt;
        marks
            == [
                NEVER, NEVER, 1, 1, 1, 1, 1, 1, 1, 1, 1, 1, NEVER, NEVER, 0, OLD, OLD,
            ]
    );
    Ok(())
}

#[test]
fn q_over_closed_five(rt: HostRuntime) -> Result<(), Fail> {
    let file = line_q(rt.alloc(), Kind::Closed, 5)?;
    let mut marks = [OLD; 13];
    assert_eq!(rt; mark_file(rt.alloc(), &file, &mut marks), (0, 0, 4));
    assert!(rt; marks == [4, 4, 3, 3, 2, 2, 1, 1, 1, 1, 1, 1, 0]);
    Ok(())
}

#[test]
fn marks_one_entry_short(rt: HostRuntime) -> Result<(), Fail> {
    let file = line_q(rt.alloc(), Kind::Closed, 5)?;
    let mut marks = [OLD; 12];
    assert_eq!(rt; mark_file(rt.alloc(), &file, &mut marks), (17, 4, 13));
    assert!(rt; marks == [OLD; 12]);
    Ok(())
}

#[test]
fn as_many_fills_as_are_marked(rt: HostRuntime) -> Result<(), Fail> {
    let places = [OURS; 64];
    let moves = [MoveRecord {
        target: 63,
        amount: 0,
    }; 64];
    let mut marks = vec![in rt.alloc(); OLD; 65_538]?;
    let most = file_of(rt.alloc(), &places, &moves, Kind::Closed, 1_023, 0)?;
    assert_eq!(rt; mark_file(rt.alloc(), &most, &mut marks), (0, 0, 0));
    assert!(rt; marks.len() == 65_538);
    assert_eq!(rt;
        (marks[0], marks[65_535], marks[65_536], marks[65_537]),
        (NEVER, NEVER, 0, OLD)
    );
    let more = file_of(rt.alloc(), &places, &moves, Kind::Closed, 1_024, 0)?;
    assert_eq!(rt; mark_file(rt.alloc(), &more, &mut marks), (16, 4, 1_024));
    Ok(())
}

#[test]
fn the_built_in_line_is_all_good(rt: HostRuntime) -> Result<(), Fail> {
    let line = FileLine::built_in();
    let vessel = Closed::new(4)?;
    let mut marks = [OLD; 6];
    assert_eq!(rt;
        told(mark(rt.alloc(), &line, &vessel, &mut marks)),
        (0, 0, 0)
    );
    assert!(rt; marks == [NEVER, NEVER, NEVER, NEVER, NEVER, 0]);
    Ok(())
}

#[test]
fn a_leak_is_all_bad(rt: HostRuntime) -> Result<(), Fail> {
    let vessel = Lip::new(4)?;
    let mut marks = [OLD; 7];
    assert_eq!(rt;
        told(mark(rt.alloc(), &Leak, &vessel, &mut marks)),
        (0, 0, 5)
    );
    assert!(rt; marks == [1, 2, 3, 4, 5, 0, OLD]);
    Ok(())
}

#[test]
fn a_sieve_refuses_nothing(rt: HostRuntime) {
    let sieve = Sieve::small();
    let mut marks = [OLD; 5];
    assert_eq!(rt;
        told(mark(rt.alloc(), &Leak, &sieve, &mut marks)),
        (0, 0, 0)
    );
    assert!(rt; marks == [NEVER, NEVER, NEVER, NEVER, 0]);
}

// Reads a file and marks who can be forced to the target.
fn forced_on(heap: Global, file: &[u8], target: u32, marks: &mut [u32]) -> Result<u32, Fault> {
    let line = FileLine::try_from(file)?;
    forced(heap, &line, target, marks)
}

fn forced_file(heap: Global, file: &[u8], target: u32, marks: &mut [u32]) -> Told {
    told(forced_on(heap, file, target, marks))
}

#[test]
fn forced_on_a_line(rt: HostRuntime) -> Result<(), Fail> {
    let file = line_q(rt.alloc(), Kind::Lip, 10)?;
    let mut marks = [OLD; 3];
    // from place 0 we never have to go to 1; from 1 they go to 0 at once
    assert_eq!(rt; forced_file(rt.alloc(), &file, 1, &mut marks), (0, 0, 0));
    assert!(rt; marks == [NEVER, 0, OLD]);
    assert_eq!(rt; forced_file(rt.alloc(), &file, 0, &mut marks), (0, 0, 1));
    assert!(rt; marks == [0, 1, OLD]);
    assert_eq!(rt; forced_file(rt.alloc(), &file, 2, &mut marks), (18, 4, 2));
    assert!(rt; marks == [0, 1, OLD]);
    assert_eq!(rt;
        forced_file(rt.alloc(), &file, 0, &mut marks[0..1]),
        (17, 4, 2)
    );
    Ok(())
}

#[test]
fn vessels_out_of_range(rt: HostRuntime) {
    assert_eq!(rt; told_whether(Lip::new(2_560_001)), (7, 2, 2_560_001));
    assert_eq!(rt; told_whether(Drawn::new(6, 0)), (7, 2, 0));
}
