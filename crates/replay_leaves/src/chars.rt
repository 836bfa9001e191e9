// The operations on one character: `L replace`, `L check`, `L start` and `L end`.
use crate::outcomes::Refused;
use crate::reason::Unwritable;
use check_char::CheckError;
use common::Refusal;
use replace::Replaced;
use replay_words::answers::Answers;
use replay_words::listed::List;
use replay_words::why::Why;
use replay_words::words::Words;

// `ok n=N out=LIST`
fn replaced_by(chars: &[u32], out: &mut Answers) {
    let list = List(chars);
    out.line(format_args!("ok n={:x} out={list}", chars.len()));
}

// `L replace c`, and with the option for units `L replace c 1`
pub fn replacement(words: Words, out: &mut Answers) -> Result<(), Why> {
    let (c, units) = words.number_and_option()?;
    match replace::replacement(units, c) {
        Err(why) => out.line(Refused(why)),
        Ok(Replaced::One(x)) => replaced_by(&[x], out),
        Ok(Replaced::Two(x, y)) => replaced_by(&[x, y], out),
        Ok(Replaced::Three(x, y, z)) => replaced_by(&[x, y, z], out),
    }
    Ok(())
}

// `L check c`, and with the option `L check c 1`
pub fn check(words: Words, out: &mut Answers) -> Result<(), Why> {
    let (c, units) = words.number_and_option()?;
    match check_char::check(units, c) {
        Ok(()) => out.line("ok"),
        Err(CheckError::NotAChar) => out.line(Refused(Refusal::NotAChar)),
        Err(CheckError::Unwritable(e)) => out.line(Unwritable(e)),
    }
    Ok(())
}

// `ok 0`, `ok 1`, or the refusal.
fn class(found: Result<bool, Refusal>, out: &mut Answers) {
    match found {
        Ok(is) => out.line(format_args!("ok {}", u8::from(is))),
        Err(why) => out.line(Refused(why)),
    }
}

// `L start c`
pub fn start(words: Words, page: &[u32], out: &mut Answers) -> Result<(), Why> {
    class(text_utils::start_class(page, words.one_number()?), out);
    Ok(())
}

// `L end c`
pub fn end(words: Words, out: &mut Answers) -> Result<(), Why> {
    class(text_utils::end_class(words.one_number()?), out);
    Ok(())
}
