// The operations on bytes and on a run of characters: `L utf8` and `L isolate`.
use crate::outcomes::stored;
use replay_words::answers::Answers;
use replay_words::buffers::Buffers;
use replay_words::listed::List;
use replay_words::places::{blank, front};
use replay_words::stored::Stored;
use replay_words::why::Why;
use replay_words::words;
use replay_words::words::Words;

// `L utf8 b b ..`: how many bytes the longest valid prefix has, and its characters.
pub fn utf8(words: Words, lent: Buffers, out: &mut Answers) -> Result<(), Why> {
    let Buffers {
        numbers,
        places,
        bytes,
    } = lent;
    let given = words.numbers(numbers)?;
    let bytes = words::bytes(given, bytes)?;
    let prefix = scalars::decode_utf8(bytes, places);
    let list = List(front(places, prefix.chars));
    out.line(format_args!("ok used={:x} out={list}", prefix.bytes));
    Ok(())
}

// `L isolate ROOM c c ..`
pub fn isolate(words: Words, page: &[u32], lent: Buffers, out: &mut Answers) -> Result<(), Why> {
    let Buffers {
        numbers,
        places,
        ..
    } = lent;
    let [size, chars @ ..] = words.numbers(numbers)? else {
        return Err(Why::Number);
    };
    let places = blank(places, *size)?;
    let outcome = stored(isolate_unassigned::isolate(page, chars, places));
    out.line(Stored { places, outcome });
    Ok(())
}
