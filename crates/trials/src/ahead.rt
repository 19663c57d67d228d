// Look-ahead: its refusals, no moves at all, and agreement with the marks of all fills.
use crate::lines::{Told, file_of, line_p, line_q, line_q_drawn, told};
use crate::marks::mark_file;
use hopper::Fault;
use linefile::FileLine;
use lineformat::{Kind, MoveRecord, PlaceRecord};
use lookahead::look_ahead;
use std::alloc::{AllocError, Global};
use std::test::Fail;

// Looks ahead on the line of a file.
fn looked(heap: Global, file: &[u8], place: u32, fill: u32, k: u32) -> Result<bool, Fault> {
    let line = FileLine::try_from(file)?;
    look_ahead(heap, &line, place, fill, k)
}

// What a look-ahead answers: 1 or 0 for true or false, or number, layer and spot of its fault.
fn look(heap: Global, file: &[u8], place: u32, fill: u32, k: u32) -> Told {
    told(looked(heap, file, place, fill, k))
}

// Whether look-ahead and marks say the same of every fill and every number of moves: a fill holds for k moves just where its mark is more than k.
fn agrees(heap: Global, file: &[u8], places: u32, top: u32) -> Result<bool, AllocError> {
    let levels = top.saturating_add(1);
    let fills = places.saturating_mul(levels);
    let mut marks = vec![in heap; 0u32; fills.saturating_add(1) as usize]?;
    let (number, _, _) = mark_file(heap, file, &mut marks);
    if number != 0 {
        return Ok(false);
    }
    for (place, row) in (0..places).zip(marks.chunks_exact(levels.max(1) as usize)) {
        for (fill, mark) in (0..levels).zip(row) {
            // kept as it is: no plainer, each number of moves is a question of its own
            for k in 0..7 {
                if look(heap, file, place, fill, k) != (0, 0, (k < *mark) as u64) {
                    return Ok(false);
                }
            }
        }
    }
    Ok(true)
}

fn to(target: u16, amount: i16) -> MoveRecord {
    MoveRecord { target, amount }
}

// Three places, ours, theirs and ours, with more than one way between them: amounts that a full vessel loses, and amounts that an empty one lacks.
fn line_r(heap: Global, kind: Kind, top: u32, draw: u16) -> Result<Vec<u8>, AllocError> {
    let places = [
        PlaceRecord {
            owner: 0,
            letters: 0,
            moves: 3,
        },
        PlaceRecord {
            owner: 1,
            letters: 0,
            moves: 4,
        },
        PlaceRecord {
            owner: 0,
            letters: 0,
            moves: 2,
        },
    ];
    let moves = [
        to(1, -4),
        to(1, 3),
        to(2, -2),
        to(0, 5),
        to(0, -1),
        to(2, -3),
        to(2, 4),
        to(0, -5),
        to(1, 6),
    ];
    file_of(heap, &places, &moves, kind, top, draw)
}

#[test]
fn look_ahead_refuses_by_its_order(rt: HostRuntime) -> Result<(), Fail> {
    let file = line_q(rt.alloc(), Kind::Lip, 10)?;
    let cases = [
        (2, 11, 7, 18, 2),
        (4_294_967_295, 0, 0, 18, 4_294_967_295),
        (1, 11, 7, 23, 11),
        (0, 4_294_967_295, 6, 23, 4_294_967_295),
        (0, 10, 7, 24, 7),
        (1, 0, 4_294_967_295, 24, 4_294_967_295),
    ];
    for (place, fill, k, number, spot) in cases {
        assert_eq!(rt; look(rt.alloc(), &file, place, fill, k), (number, 4, spot));
    }
    Ok(())
}

#[test]
fn each_fill_holds_for_no_moves(rt: HostRuntime) -> Result<(), Fail> {
    let file = line_q(rt.alloc(), Kind::Closed, 5)?;
    // kept as it is: no plainer, a question is put by the numbers of a place and of a fill
    for place in 0..2 {
        for fill in 0..6 {
            assert_eq!(rt; look(rt.alloc(), &file, place, fill, 0), (0, 0, 1));
        }
    }
    assert_eq!(rt; look(rt.alloc(), &file, 0, 6, 0), (23, 4, 6));
    Ok(())
}

// A top at which there are far too many fills to mark.
#[test]
fn look_ahead_needs_no_marks(rt: HostRuntime) -> Result<(), Fail> {
    let top = 2_560_000;
    let cases = [
        (Kind::Lip, 0, 0, 6, 1),
        (Kind::Lip, 1, 1, 1, 0),
        (Kind::Lip, 1, 2, 6, 1),
        (Kind::Lip, 1, top, 6, 1),
        (Kind::Closed, 0, top, 1, 1),
        (Kind::Closed, 0, top, 2, 0),
        (Kind::Closed, 1, top, 1, 0),
        (Kind::Closed, 1, top - 4, 2, 1),
        (Kind::Closed, 1, top - 4, 3, 0),
        (Kind::Closed, 1, 1_280_000, 6, 1),
    ];
    for (kind, place, fill, k, held) in cases {
        let file = line_q(rt.alloc(), kind, top)?;
        assert_eq!(rt; look(rt.alloc(), &file, place, fill, k), (0, 0, held));
    }
    Ok(())
}

#[test]
fn look_ahead_agrees_with_all_marks(rt: HostRuntime) -> Result<(), Fail> {
    let heap = rt.alloc();
    for (kind, draw) in [(Kind::Lip, 0), (Kind::Closed, 0), (Kind::Drawn, 1)] {
        for top in [0, 4, 5, 6, 11, 20] {
            let p = line_p(heap, kind, top, draw)?;
            assert!(rt; agrees(heap, &p, 2, top)?);
            let q = line_q_drawn(heap, kind, top, draw)?;
            assert!(rt; agrees(heap, &q, 2, top)?);
            let r = line_r(heap, kind, top, draw)?;
            assert!(rt; agrees(heap, &r, 3, top)?);
        }
    }
    Ok(())
}
