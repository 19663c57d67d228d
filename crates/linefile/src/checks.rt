// The checks of a line's numbers and of its records.
ghost use Rattle.std.specs.Prelude.{◌≡◌, ◌<◌, ◌≤◌, length};
ghost use Rattle.hopper.specs.Refusing.{verdict};
ghost use Rattle.lineformat.specs.Limits.{most_places};
ghost use Rattle.lineformat.specs.Checks.{bad_draw, bad_place, bad_letter, bad_move, kind_check, places_check, moves_check, top_check, draw_check, number_checks, place_records_check, move_total_check, letter_total_check, letters_check, move_records_check, record_checks};

use super::records::{Records, letters_before, moves_before};
use hopper::{Check, Fault, Layer, Refusal, check, found, pass};
use lineformat::{
    DRAWN_KIND, FIRST_LETTER, LAST_KIND, LAST_LETTER, LAST_OWNER, LONGEST_NAME, MOST_AMOUNT,
    MOST_DRAW, MOST_MOVES, MOST_PLACES, MOST_TOP, MoveRecord, Numbers, PlaceRecord, Spots,
};

fn kind_check(kind: u64, spot: u64) -> Check
    ensures { result ≡ kind_check kind spot }
{
    check(kind > LAST_KIND, Refusal::UnknownKind, Layer::File, spot)
}

fn places_check(places: u64, spot: u64) -> Check
    ensures { result ≡ places_check places spot }
{
    check(
        !(1..=MOST_PLACES).contains(&places),
        Refusal::PlacesOutOfRange,
        Layer::File,
        spot,
    )
}

fn moves_check(places: u64, moves: u64, spot: u64) -> Check
    ensures { result ≡ moves_check places moves spot }
{
    check(
        !(places..=MOST_MOVES).contains(&moves),
        Refusal::MovesOutOfRange,
        Layer::File,
        spot,
    )
}

fn top_check(top: u64, spot: u64) -> Check
    ensures { result ≡ top_check top spot }
{
    check(top > MOST_TOP, Refusal::VesselOutOfRange, Layer::File, spot)
}

// Only drawn has a draw.
// kept as it is: the number in a file may be of no kind.
fn bad_draw(kind: u64, draw: u64) -> bool
    ensures { result ≡ bad_draw kind draw }
{
    if kind == DRAWN_KIND {
        !(1..=MOST_DRAW).contains(&draw)
    } else {
        draw != 0
    }
}

fn draw_check(kind: u64, draw: u64, spot: u64) -> Check
    ensures { result ≡ draw_check kind draw spot }
{
    check(
        bad_draw(kind, draw),
        Refusal::VesselOutOfRange,
        Layer::File,
        spot,
    )
}

// Checks the numbers of a line, each with its spot.
#[tactic(auto, unfolding(lineformat::specs::Checks::number_checks))]
pub(crate) fn check_numbers(n: Numbers, spot: Spots) -> Result<(), Fault>
    ensures { result ≡ verdict (number_checks n spot) }
{
    pass(&[
        kind_check(n.kind, spot.kind),
        places_check(n.places, spot.places),
        moves_check(n.places, n.moves, spot.moves),
        top_check(n.top, spot.top),
        draw_check(n.kind, n.draw, spot.draw),
    ])
}

// kept as it is: a record may have a number of no owner.
fn bad_place(p: PlaceRecord) -> bool
    ensures { result ≡ bad_place p }
{
    p.owner > LAST_OWNER || p.letters > LONGEST_NAME || p.moves == 0
}

fn bad_letter(b: u8) -> bool
    ensures { result ≡ bad_letter b }
{
    !(FIRST_LETTER..=LAST_LETTER).contains(&b)
}

// A move of a line with so many places.
fn bad_move(places: usize, m: MoveRecord) -> bool
    ensures { result ≡ bad_move places m }
{
    m.target as usize >= places || m.amount.unsigned_abs() > MOST_AMOUNT
}

fn place_records_check<R: Records>(records: &R) -> Check
    ensures { result ≡ place_records_check (R.Records.line records.now) }
{
    let first = (0..records.place_count() as u64).find(
        |&p|
            requires { p < length (R.Records.line records.now).places }
        { bad_place(records.place_record(p as usize)) },
    );
    found(first, Refusal::BadPlaceRecord, Layer::Line)
}

fn move_total_check<R: Records>(records: &R) -> Check
    requires { length (R.Records.line records.now).places ≤ most_places }
    ensures { result ≡ move_total_check (R.Records.line records.now) }
{
    let places = records.place_count();
    check(
        moves_before(records, places) != records.move_count(),
        Refusal::TotalsDiffer,
        Layer::Line,
        places as u64,
    )
}

fn letter_total_check<R: Records>(records: &R) -> Check
    requires { length (R.Records.line records.now).places ≤ most_places }
    ensures { result ≡ letter_total_check (R.Records.line records.now) }
{
    let places = records.place_count();
    check(
        letters_before(records, places) != records.letter_count(),
        Refusal::TotalsDiffer,
        Layer::Line,
        places as u64,
    )
}

fn letters_check<R: Records>(records: &R) -> Check
    ensures { result ≡ letters_check (R.Records.line records.now) }
{
    let first = (0..records.letter_count() as u64).find(
        |&i|
            requires { i < length (R.Records.line records.now).names }
        { bad_letter(records.letter(i as usize)) },
    );
    found(first, Refusal::BadNameByte, Layer::File)
}

fn move_records_check<R: Records>(records: &R) -> Check
    ensures { result ≡ move_records_check (R.Records.line records.now) }
{
    let places = records.place_count();
    let first = (0..records.move_count() as u64).find(
        |&m|
            requires { m < length (R.Records.line records.now).moves }
        { bad_move(places, records.move_record(m as usize)) },
    );
    found(first, Refusal::BadMoveRecord, Layer::Line)
}

// Checks the records of a line.
#[tactic(auto, unfolding(lineformat::specs::Checks::record_checks))]
pub(crate) fn check_records<R: Records>(records: &R) -> Result<(), Fault>
    requires { length (R.Records.line records.now).places ≤ most_places }
    ensures { result ≡ verdict (record_checks (R.Records.line records.now)) }
{
    pass(&[
        place_records_check(records),
        move_total_check(records),
        letter_total_check(records),
        letters_check(records),
        move_records_check(records),
    ])
}
