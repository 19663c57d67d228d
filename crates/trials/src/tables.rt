// Tables of records: filled from a line, written as a file again, and too short ones.
use crate::files::PIT;
use hopper::{Fault, Layer, Refusal};
use linefile::{FileLine, LineTables};
use lineformat::{MoveRecord, PlaceRecord};
use std::test::Fail;

// The tables of the pit, with other numbers in their place where a case says so.
pub(crate) fn pit_tables<'a>(
    places: &'a [PlaceRecord],
    moves: &'a [MoveRecord],
    names: &'a [u8],
) -> LineTables<'a> {
    LineTables {
        places,
        moves,
        names,
        kind: 0,
        top: 6,
        draw: 0,
    }
}

#[test]
fn unpacked_and_written_again(rt: HostRuntime) -> Result<(), Fail> {
    let mut line = FileLine::built_in();
    line.read(PIT)?;
    let other = PlaceRecord {
        owner: 9,
        letters: 9,
        moves: 9,
    };
    let mut places = [other; 3];
    let mut moves = [MoveRecord {
        target: 9,
        amount: 9,
    }; 2];
    line.unpack(&mut places, &mut moves)?;
    assert_eq!(rt;
        places[0],
        PlaceRecord {
            owner: 0,
            letters: 3,
            moves: 1,
        }
    );
    assert_eq!(rt; places[2], other);
    assert_eq!(rt;
        moves[1],
        MoveRecord {
            target: 0,
            amount: -5,
        }
    );
    let mut out = [7u8; 42];
    assert_eq!(rt;
        pit_tables(&places[0..2], &moves, b"pitpress").write(&mut out)?,
        40
    );
    let pit = *PIT;
    assert!(rt; out[0..40] == pit[0..40]);
    assert_eq!(rt; (out[40], out[41]), (7, 7));
    Ok(())
}

#[test]
fn short_tables_and_outputs(rt: HostRuntime) -> Result<(), Fail> {
    let mut line = FileLine::built_in();
    line.read(PIT)?;
    let blank = PlaceRecord {
        owner: 9,
        letters: 9,
        moves: 9,
    };
    let mut one = [blank; 1];
    let mut two = [blank; 2];
    let mut none: [MoveRecord; 0] = [];
    let mut few = [MoveRecord {
        target: 9,
        amount: 9,
    }; 1];
    let short = Fault {
        refusal: Refusal::TableTooShort,
        layer: Layer::Rest,
        spot: 2,
    };
    assert_eq!(rt; line.unpack(&mut one, &mut none), Err(short));
    assert_eq!(rt; line.unpack(&mut two, &mut few), Err(short));
    assert_eq!(rt; two[0], blank);
    assert_eq!(rt;
        few[0],
        MoveRecord {
            target: 9,
            amount: 9,
        }
    );
    let places = [
        PlaceRecord {
            owner: 0,
            letters: 3,
            moves: 1,
        },
        PlaceRecord {
            owner: 0,
            letters: 5,
            moves: 1,
        },
    ];
    let moves = [
        MoveRecord {
            target: 1,
            amount: 5,
        },
        MoveRecord {
            target: 0,
            amount: -5,
        },
    ];
    let mut out = [7u8; 39];
    let small = Fault {
        refusal: Refusal::OutputTooShort,
        layer: Layer::Rest,
        spot: 40,
    };
    assert_eq!(rt;
        pit_tables(&places, &moves, b"pitpress").write(&mut out),
        Err(small)
    );
    assert_eq!(rt; (out[0], out[38]), (7, 7));
    Ok(())
}
