// The operations on the generator of awkward text: `G fill` and `G back`.
use replay_words::answers::Answers;
use replay_words::buffers::Buffers;
use replay_words::listed::List;
use replay_words::places::blank;
use replay_words::why::Why;
use replay_words::words::Words;

// `G fill SEED N`: the state handed back, and every place.
pub fn fill(words: Words, lent: Buffers, out: &mut Answers) -> Result<(), Why> {
    let Buffers {
        numbers,
        places,
        ..
    } = lent;
    let [seed, count] = words.numbers(&mut numbers[..3])? else {
        return Err(Why::Number);
    };
    let places = blank(places, *count)?;
    let state = generator::fill(*seed, places);
    let list = List(places);
    out.line(format_args!("ok state={state:x} out={list}"));
    Ok(())
}

// `G back STATE`
pub fn back(words: Words, out: &mut Answers) -> Result<(), Why> {
    let state = generator::back(words.one_number()?);
    out.line(format_args!("ok {state:x}"));
    Ok(())
}
