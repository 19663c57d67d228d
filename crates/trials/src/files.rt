// Reading line files: the pit and the press, and what each damage to their file is refused by.
use crate::lines::{Told, told_whether};
use hopper::{Fault, Layer, Refusal};
use linefile::input::file_bytes;
use linefile::{FileLine, LineTables};
use lineformat::{Kind, MoveRecord, PlaceRecord};
use std::alloc::{AllocError, Global};
use std::test::Fail;

// Two places of ours: pit leads to press with 5 litres in, press back to pit with 5 litres out; lip 6.
pub(crate) const PIT: &[u8; 40] =
    b"pitpress\x01\0\x05\0\0\0\xFB\xFF\0\x03\x01\0\0\x05\x01\0\x02\0\x02\0\x06\0\0\0\0\0\0\x01\x10\0\0\0";

// What reading a file answers: number, layer and spot of the fault, or zeros where it is accepted.
fn reading(file: &[u8]) -> Told {
    told_whether(FileLine::built_in().read(file))
}

fn put(file: &mut [u8], at: usize, byte: u8) {
    if let Some(old) = file.get_mut(at) {
        *old = byte;
    }
}

// Up to three bytes of the file of the pit, put in place of what is there, and what reading then answers.
struct Damage(usize, u8, usize, u8, usize, u8, Told);

static DAMAGES: [Damage; 44] = [
    // the version, at offset 35
    Damage(35, 0, 35, 0, 35, 0, (3, 2, 35)),
    Damage(35, 2, 35, 2, 35, 2, (3, 2, 35)),
    // the kind, at 34; closed is sound, drawn wants a draw
    Damage(34, 1, 34, 1, 34, 1, (0, 0, 0)),
    Damage(34, 3, 34, 3, 34, 3, (4, 2, 34)),
    Damage(34, 2, 34, 2, 34, 2, (7, 2, 32)),
    Damage(34, 2, 32, 1, 32, 1, (0, 0, 0)),
    // the places, at 24
    Damage(24, 0, 24, 0, 24, 0, (5, 2, 24)),
    Damage(24, 1, 25, 1, 25, 1, (5, 2, 24)),
    Damage(24, 0, 25, 1, 25, 1, (6, 2, 26)),
    // the moves, at 26
    Damage(26, 1, 26, 1, 26, 1, (6, 2, 26)),
    Damage(26, 1, 27, 16, 27, 16, (6, 2, 26)),
    Damage(26, 0, 27, 16, 27, 16, (8, 2, 36)),
    // the top, at 28: 2,560,000 is 00 10 27
    Damage(28, 0, 29, 16, 30, 39, (0, 0, 0)),
    Damage(28, 1, 29, 16, 30, 39, (7, 2, 28)),
    Damage(31, 1, 31, 1, 31, 1, (7, 2, 28)),
    // the draw, at 32: 10,000 is 10 27
    Damage(32, 1, 32, 1, 32, 1, (7, 2, 32)),
    Damage(34, 2, 32, 16, 33, 39, (0, 0, 0)),
    Damage(34, 2, 32, 17, 33, 39, (7, 2, 32)),
    // the distance, at 36
    Damage(36, 15, 36, 15, 36, 15, (8, 2, 36)),
    Damage(36, 17, 36, 17, 36, 17, (8, 2, 36)),
    Damage(39, 1, 39, 1, 39, 1, (8, 2, 36)),
    // the distance is right, and leads past the start
    Damage(26, 8, 36, 40, 36, 40, (9, 1, 24)),
    // the places' owners, the lengths of their names, their move counts
    Damage(16, 1, 16, 1, 16, 1, (0, 0, 0)),
    Damage(16, 2, 16, 2, 16, 2, (10, 3, 0)),
    Damage(20, 2, 20, 2, 20, 2, (10, 3, 1)),
    Damage(21, 33, 21, 33, 21, 33, (10, 3, 1)),
    Damage(21, 32, 21, 32, 21, 32, (11, 3, 2)),
    Damage(22, 0, 22, 0, 22, 0, (10, 3, 1)),
    Damage(18, 2, 18, 2, 18, 2, (11, 3, 2)),
    Damage(19, 255, 23, 255, 23, 255, (11, 3, 2)),
    Damage(17, 4, 17, 4, 17, 4, (11, 3, 2)),
    Damage(17, 4, 21, 4, 21, 4, (0, 0, 0)),
    // the bytes of the names
    Damage(0, 31, 0, 31, 0, 31, (12, 2, 0)),
    Damage(0, 32, 7, 126, 7, 126, (0, 0, 0)),
    Damage(7, 127, 7, 127, 7, 127, (12, 2, 7)),
    // the moves' targets and amounts: 10,000 is 10 27, -10,000 is F0 D8
    Damage(8, 2, 8, 2, 8, 2, (13, 3, 0)),
    Damage(13, 1, 13, 1, 13, 1, (13, 3, 1)),
    Damage(10, 16, 11, 39, 11, 39, (0, 0, 0)),
    Damage(10, 17, 11, 39, 11, 39, (13, 3, 0)),
    Damage(14, 0xF0, 15, 0xD8, 15, 0xD8, (0, 0, 0)),
    Damage(14, 0xEF, 15, 0xD8, 15, 0xD8, (13, 3, 1)),
    // two at once: the check that comes first answers
    Damage(35, 0, 34, 3, 24, 0, (3, 2, 35)),
    Damage(28, 1, 30, 255, 32, 1, (7, 2, 28)),
    Damage(22, 0, 17, 4, 7, 127, (10, 3, 1)),
];

#[test]
fn each_damage_gets_its_refusal(rt: HostRuntime) {
    for damage in &DAMAGES {
        let mut file = *PIT;
        put(&mut file, damage.0, damage.1);
        put(&mut file, damage.2, damage.3);
        put(&mut file, damage.4, damage.5);
        assert_eq!(rt; reading(&file), damage.6);
    }
}

#[test]
fn order_of_the_checks_on_letters_and_moves(rt: HostRuntime) -> Result<(), Fail> {
    let mut file = PIT.to_vec(rt.alloc())?;
    assert!(rt; file.len() == 40);
    // a wrong letter before a wrong move, and totals before a wrong letter
    file[7] = 127;
    file[8] = 2;
    assert_eq!(rt; reading(&file), (12, 2, 7));
    file[17] = 4;
    assert_eq!(rt; reading(&file), (11, 3, 2));
    Ok(())
}

#[test]
fn too_short_and_too_long(rt: HostRuntime) -> Result<(), Fail> {
    let none: [u8; 0] = [];
    assert_eq!(rt; reading(&none), (2, 1, 0));
    let pit = *PIT;
    assert_eq!(rt; reading(&pit[0..15]), (2, 1, 15));
    assert_eq!(rt; reading(&pit[24..40]), (9, 1, 0));
    let long = vec![in rt.alloc(); 0u8; 25_616]?;
    assert_eq!(rt; reading(&long), (3, 2, 25_611));
    let longer = vec![in rt.alloc(); 0u8; 25_617]?;
    assert_eq!(rt; reading(&longer), (1, 1, 25_616));
    Ok(())
}

#[test]
fn a_file_from_a_reader(rt: HostRuntime) -> Result<(), Fail> {
    let pit = file_bytes(rt.alloc(), PIT.as_slice())?;
    assert!(rt; pit.as_slice() == PIT.as_slice());
    // of what is too long one byte more is read than a file may have
    let long = vec![in rt.alloc(); 7u8; 30_000]?;
    let read = file_bytes(rt.alloc(), long.as_slice())?;
    assert_eq!(rt; read.len(), 25_617);
    Ok(())
}

#[test]
fn what_the_pit_holds(rt: HostRuntime) -> Result<(), Fail> {
    let mut line = FileLine::built_in();
    assert_eq!(rt; line.place_count(), 1);
    assert_eq!(rt;
        line.place_record(0),
        Some(PlaceRecord {
            owner: 0,
            letters: 0,
            moves: 1,
        })
    );
    assert_eq!(rt;
        line.move_record(0),
        Some(MoveRecord {
            target: 0,
            amount: 0,
        })
    );
    line.read(PIT)?;
    assert_eq!(rt; line.place_count(), 2);
    assert_eq!(rt; line.move_count(), 2);
    assert_eq!(rt; line.kind(), Kind::Lip);
    assert_eq!(rt; line.top(), 6);
    assert_eq!(rt; line.draw(), 0);
    assert_eq!(rt;
        line.place_record(1),
        Some(PlaceRecord {
            owner: 0,
            letters: 5,
            moves: 1,
        })
    );
    assert_eq!(rt; line.place_record(2), None);
    assert_eq!(rt;
        line.move_record(1),
        Some(MoveRecord {
            target: 0,
            amount: -5,
        })
    );
    assert_eq!(rt; line.move_record(2), None);
    assert_eq!(rt;
        line.move_record_of(1, 0),
        Some(MoveRecord {
            target: 0,
            amount: -5,
        })
    );
    assert_eq!(rt; line.move_record_of(1, 1), None);
    assert_eq!(rt; line.move_record_of(2, 0), None);
    Ok(())
}

#[test]
fn names_are_parts_of_the_file(rt: HostRuntime) -> Result<(), Fail> {
    let mut line = FileLine::built_in();
    let first = line.name(0).ok_or("no place")?;
    assert_eq!(rt; first.offset, 0);
    assert!(rt; first.text.is_empty());
    line.read(PIT)?;
    let press = line.name(1).ok_or("no place")?;
    assert_eq!(rt; press.offset, 3);
    assert!(rt; press.text == "press");
    assert!(rt; line.names() == b"pitpress".as_slice());
    assert!(rt; line.name(2).is_none());
    Ok(())
}

#[test]
fn a_refused_file_leaves_the_line(rt: HostRuntime) -> Result<(), Fail> {
    let mut line = FileLine::built_in();
    line.read(PIT)?;
    let fault = Fault {
        refusal: Refusal::FileTooShort,
        layer: Layer::Bytes,
        spot: 3,
    };
    assert_eq!(rt; line.read(b"pit"), Err(fault));
    assert_eq!(rt; line.place_count(), 2);
    assert_eq!(rt; line.top(), 6);
    Ok(())
}

// The longest line: 256 places with names of 32 letters, and 4,096 moves.
fn longest(heap: Global) -> Result<Vec<u8>, AllocError> {
    let places = vec![in heap; PlaceRecord {
        owner: 1,
        letters: 32,
        moves: 16
    }; 256]?;
    let moves = vec![in heap; MoveRecord {
        target: 255,
        amount: -1
    }; 4_096]?;
    let names = vec![in heap; b'a'; 8_192]?;
    let mut out = vec![in heap; 0u8; 25_616]?;
    let line = LineTables {
        places: &places,
        moves: &moves,
        names: &names,
        kind: 1,
        top: 0,
        draw: 0,
    };
    let _written = line.write(&mut out);
    Ok(out)
}

#[test]
fn the_longest_line_is_taken(rt: HostRuntime) -> Result<(), Fail> {
    let mut file = longest(rt.alloc())?;
    assert_eq!(rt; reading(&file), (0, 0, 0));
    file.push(0)?;
    assert_eq!(rt; reading(&file), (1, 1, 25_616));
    Ok(())
}
