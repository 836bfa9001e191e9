// The operations on UTF-16: `U16 dec` and `U16 enc`, in either byte order.
use crate::outcomes::{Refused, stored};
use common::Refusal;
use replay_words::answers::Answers;
use replay_words::buffers::Buffers;
use replay_words::places::blank;
use replay_words::stored::Stored;
use replay_words::why::Why;
use replay_words::words;
use replay_words::words::Words;
use std::fmt;
use std::fmt::Display;
use utf16::{ByteOrder, DecodeError};

// Why units are not read.
#[derive(Clone, Copy)]
struct Unread(DecodeError);

impl Display for Unread {
    fn fmt<W: fmt::Write>(&self, f: &mut fmt::Formatter<W>) -> fmt::Result {
        match self.0 {
            DecodeError::OddBytes => Refused(Refusal::OddBytes).fmt(f),
            DecodeError::NoRoom => Refused(Refusal::NoRoom).fmt(f),
            DecodeError::Unpaired(place) => {
                let refused = Refused(Refusal::UnpairedSurrogate);
                write!(f, "{refused} at={place:x}")
            }
        }
    }
}

fn byte_order(words: &mut Words) -> Result<ByteOrder, Why> {
    match words.next() {
        Some(b"le") => Ok(ByteOrder::Little),
        Some(b"be") => Ok(ByteOrder::Big),
        _ => Err(Why::Word),
    }
}

// `U16 dec le|be ROOM b b ..`, with the room in characters.
pub fn decode(mut words: Words, lent: Buffers, out: &mut Answers) -> Result<(), Why> {
    let order = byte_order(&mut words)?;
    let Buffers {
        numbers,
        places,
        bytes,
    } = lent;
    let [size, numbers @ ..] = words.numbers(numbers)? else {
        return Err(Why::Number);
    };
    let places = blank(places, *size)?;
    let bytes = words::bytes(numbers, bytes)?;
    let outcome = utf16::decode_utf16(order, bytes, places).map_err(Unread);
    out.line(Stored { places, outcome });
    Ok(())
}

// `U16 enc le|be ROOM c c ..`, with the room in bytes.
pub fn encode(mut words: Words, lent: Buffers, out: &mut Answers) -> Result<(), Why> {
    let order = byte_order(&mut words)?;
    let Buffers { numbers, bytes, .. } = lent;
    let [size, chars @ ..] = words.numbers(numbers)? else {
        return Err(Why::Number);
    };
    let places = blank(bytes, *size)?;
    let outcome = stored(utf16::encode_utf16(order, chars, places));
    out.line(Stored { places, outcome });
    Ok(())
}
