// The calls that a line of input can name: a look-ahead, or a call of a shift.
#[derive(Clone, Copy)]
pub(crate) enum Call {
    Ahead { place: u32, fill: u32, k: u32 },
    OfShift(ShiftCall),
}

#[derive(Clone, Copy)]
pub(crate) enum ShiftCall {
    Open { number: u32, place: u32, fill: u32 },
    Order,
    Done,
    Withdrawn,
    Arrived { mv: u32 },
    Close,
}

// The number that a word is, where there is a word and it is one.
fn number(word: Option<&str>) -> Option<u32> {
    word?.parse().ok()
}

// The call that a line is, if it is one: its name, and as many numbers as it takes.
pub(crate) fn read(text: &str) -> Option<Call> {
    let mut words = text.split_whitespace();
    let call = match words.next()? {
        "ahead" => Call::Ahead {
            place: number(words.next())?,
            fill: number(words.next())?,
            k: number(words.next())?,
        },
        "open" => Call::OfShift(ShiftCall::Open {
            number: number(words.next())?,
            place: number(words.next())?,
            fill: number(words.next())?,
        }),
        "order" => Call::OfShift(ShiftCall::Order),
        "done" => Call::OfShift(ShiftCall::Done),
        "withdrawn" => Call::OfShift(ShiftCall::Withdrawn),
        "arrived" => Call::OfShift(ShiftCall::Arrived {
            mv: number(words.next())?,
        }),
        "close" => Call::OfShift(ShiftCall::Close),
        _ => return None,
    };
    words.next().is_none().then_some(call)
}
