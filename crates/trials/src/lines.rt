// The two small lines as files, and answers as plain numbers, for the tests.
use hopper::Fault;
use linefile::LineTables;
use lineformat::{Kind, MoveRecord, PlaceRecord};
use std::alloc::{AllocError, Global};

// A place of ours with one move and no name.
pub(crate) const OURS: PlaceRecord = PlaceRecord {
    owner: 0,
    letters: 0,
    moves: 1,
};

// What a call answers, as plain numbers: zeros and what it answered, or number, layer and spot of its fault.
pub(crate) type Told = (u8, u8, u64);

pub(crate) const ACCEPTED: Told = (0, 0, 0);

pub(crate) fn told<T: Into<u64>>(answer: Result<T, Fault>) -> Told {
    match answer {
        Ok(number) => (0, 0, number.into()),
        Err(fault) => refused(fault),
    }
}

pub(crate) fn refused(fault: Fault) -> Told {
    (fault.number(), fault.layer.number(), fault.spot)
}

// The same of a call that answers no number.
pub(crate) fn told_whether<T: Drop>(answer: Result<T, Fault>) -> Told {
    told(answer.map(|_| 0u64))
}

// The file of tables without names.
pub(crate) fn file_of<'x>(
    heap: Global,
    places: &'x [PlaceRecord],
    moves: &'x [MoveRecord],
    kind: Kind,
    top: u32,
    draw: u16,
) -> Result<Vec<u8>, AllocError> {
    let size = places
        .len()
        .saturating_add(moves.len())
        .saturating_mul(4)
        .saturating_add(16);
    let mut out = vec![in heap; 0u8; size]?;
    let _written = LineTables {
        places,
        moves,
        names: b"",
        kind: kind.number(),
        top,
        draw,
    }
    .write(&mut out);
    Ok(out)
}

// 5 litres in from place 0 to 1, 5 litres out from 1 to 0; both ours.
pub(crate) fn line_p(heap: Global, kind: Kind, top: u32, draw: u16) -> Result<Vec<u8>, AllocError> {
    file_of(
        heap,
        &[OURS, OURS],
        &[
            MoveRecord {
                target: 1,
                amount: 5,
            },
            MoveRecord {
                target: 0,
                amount: -5,
            },
        ],
        kind,
        top,
        draw,
    )
}

// At place 0 we take 3 out and go to 1, or pour 2 in and stay; at 1 they pour 4 in or take 2 out, and go to 0.
pub(crate) fn line_q(heap: Global, kind: Kind, top: u32) -> Result<Vec<u8>, AllocError> {
    line_q_drawn(heap, kind, top, 0)
}

// The same line, with the draw of a drawn vessel.
pub(crate) fn line_q_drawn(
    heap: Global,
    kind: Kind,
    top: u32,
    draw: u16,
) -> Result<Vec<u8>, AllocError> {
    let places = [
        PlaceRecord {
            owner: 0,
            letters: 0,
            moves: 2,
        },
        PlaceRecord {
            owner: 1,
            letters: 0,
            moves: 2,
        },
    ];
    let moves = [
        MoveRecord {
            target: 1,
            amount: -3,
        },
        MoveRecord {
            target: 0,
            amount: 2,
        },
        MoveRecord {
            target: 0,
            amount: 4,
        },
        MoveRecord {
            target: 0,
            amount: -2,
        },
    ];
    file_of(heap, &places, &moves, kind, top, draw)
}
