// Writing line files: what each wrong line and each wrong record is refused by.
use crate::lines::{Told, told};
use crate::tables::pit_tables;
use linefile::LineTables;
use lineformat::{MoveRecord, PlaceRecord};

// What writing answers: number, layer and spot of the fault, or zeros and the length.
fn writing(tables: &LineTables) -> Told {
    let mut out = [7u8; 64];
    told(tables.write(&mut out).map(|n| n as u64))
}

#[test]
fn each_wrong_line_gets_its_refusal(rt: HostRuntime) {
    let pit = PlaceRecord {
        owner: 0,
        letters: 3,
        moves: 1,
    };
    let press = PlaceRecord {
        owner: 0,
        letters: 5,
        moves: 1,
    };
    let fill = MoveRecord {
        target: 1,
        amount: 5,
    };
    let drain = MoveRecord {
        target: 0,
        amount: -5,
    };
    let places = [pit, press];
    let moves = [fill, drain];
    let good = pit_tables(&places, &moves, b"pitpress");
    assert_eq!(rt; writing(&good), (0, 0, 40));
    assert_eq!(rt; writing(&LineTables { kind: 3, ..good }), (4, 2, 3));
    assert_eq!(rt;
        writing(&LineTables {
            places: &[],
            ..good
        },),
        (5, 2, 0)
    );
    assert_eq!(rt;
        writing(&LineTables {
            moves: &[fill],
            ..good
        },),
        (6, 2, 1)
    );
    assert_eq!(rt;
        writing(&LineTables {
            top: 2_560_000,
            ..good
        },),
        (0, 0, 40)
    );
    assert_eq!(rt;
        writing(&LineTables {
            top: 2_560_001,
            ..good
        },),
        (7, 2, 2_560_001)
    );
    assert_eq!(rt; writing(&LineTables { draw: 1, ..good }), (7, 2, 1));
    assert_eq!(rt; writing(&LineTables { kind: 2, ..good }), (7, 2, 0));
    assert_eq!(rt;
        writing(&LineTables {
            kind: 2,
            draw: 10_001,
            ..good
        },),
        (7, 2, 10_001)
    );
    assert_eq!(rt;
        writing(&LineTables {
            names: b"pitpres",
            ..good
        },),
        (11, 3, 2)
    );
    assert_eq!(rt;
        writing(&LineTables {
            names: b"pitpres\x7f",
            ..good
        },),
        (12, 2, 7)
    );
    assert_eq!(rt;
        writing(&LineTables {
            kind: 3,
            names: b"pitpres",
            ..good
        },),
        (4, 2, 3)
    );
}

#[test]
fn each_wrong_record_gets_its_refusal(rt: HostRuntime) {
    let pit = PlaceRecord {
        owner: 0,
        letters: 3,
        moves: 1,
    };
    let press = PlaceRecord {
        owner: 0,
        letters: 5,
        moves: 1,
    };
    let fill = MoveRecord {
        target: 1,
        amount: 5,
    };
    for (place, answer) in [
        (
            PlaceRecord {
                owner: 2,
                letters: 5,
                moves: 1,
            },
            (10, 3, 1),
        ),
        (
            PlaceRecord {
                owner: 1,
                letters: 33,
                moves: 1,
            },
            (10, 3, 1),
        ),
        (
            PlaceRecord {
                owner: 1,
                letters: 5,
                moves: 0,
            },
            (10, 3, 1),
        ),
        (
            PlaceRecord {
                owner: 1,
                letters: 5,
                moves: 65_535,
            },
            (11, 3, 2),
        ),
        (
            PlaceRecord {
                owner: 1,
                letters: 5,
                moves: 1,
            },
            (0, 0, 40),
        ),
    ] {
        assert_eq!(rt;
            writing(&pit_tables(&[pit, place], &[fill, fill], b"pitpress")),
            answer
        );
    }
    for (step, answer) in [
        (
            MoveRecord {
                target: 2,
                amount: 0,
            },
            (13, 3, 1),
        ),
        (
            MoveRecord {
                target: 65_535,
                amount: 0,
            },
            (13, 3, 1),
        ),
        (
            MoveRecord {
                target: 1,
                amount: 10_001,
            },
            (13, 3, 1),
        ),
        (
            MoveRecord {
                target: 1,
                amount: -32_768,
            },
            (13, 3, 1),
        ),
        (
            MoveRecord {
                target: 1,
                amount: -10_000,
            },
            (0, 0, 40),
        ),
    ] {
        assert_eq!(rt;
            writing(&pit_tables(&[pit, press], &[fill, step], b"pitpress")),
            answer
        );
    }
}
