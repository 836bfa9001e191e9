// The operation `F`: a buffer of bytes, which holds a pattern beforehand, is filled from a queue.
use replay_leaves::Refused;
use replay_words::NUMBERS;
use replay_words::answers::Answers;
use replay_words::buffers::Buffers;
use replay_words::listed::Pairs;
use replay_words::places::room;
use replay_words::why::Why;
use replay_words::words::Words;

// Repeats the first n bytes of a buffer up to its end.
fn repeat(buffer: &mut [u8], n: usize) {
    for place in n..buffer.len() {
        buffer[place] = buffer[place - n];
    }
}

// `F LEN PATTERN c c ..`: what filling answers, and the whole buffer as it is then.
pub fn fill(mut words: Words, lent: Buffers, out: &mut Answers) -> Result<(), Why> {
    let len = room(words.number()?)?;
    let Buffers { numbers, bytes, .. } = lent;
    let buffer = &mut bytes[..len];
    let pattern = words.pairs(buffer)?;
    repeat(buffer, pattern);
    let queue = words.numbers(numbers)?;
    // LEN is one of the numbers that a line can have.
    if queue.len() == NUMBERS {
        return Err(Why::Many);
    }
    let found = text_input_fill::fill(queue, buffer);
    let bytes = Pairs(buffer);
    match found {
        Ok(filled) => {
            let (taken, n) = (filled.taken, filled.bytes);
            out.line(format_args!("ok taken={taken:x} n={n:x} bytes={bytes}"));
        }
        Err(why) => {
            let refused = Refused(why);
            out.line(format_args!("{refused} bytes={bytes}"));
        }
    }
    Ok(())
}
