// The operations `L ..`, `A ..`, `U16 ..` and `G ..` of the program `replay`: entries on one character, on bytes and on a run of
// characters, and the generator of awkward text.
//     chars.rt      those on one character
//     runs.rt       those on bytes and on a run
//     checks.rt     the check of a run
//     units.rt      UTF-16
//     load.rt       the generator
//     reason.rt     a refused character in an answer
//     outcomes.rt   what the library answers, as an answer tells it
#![tactic(auto)]

mod chars;
mod checks;
mod load;
mod outcomes;
mod reason;
mod runs;
mod units;

pub use outcomes::{Refused, stored};
pub use reason::Unwritable;
use replay_words::answers::Answers;
use replay_words::buffers::Buffers;
use replay_words::why::Why;
use replay_words::words::Words;

// Answers a line whose words are none of another crate's operations.
pub fn operate(
    mut words: Words,
    page: &[u32],
    lent: Buffers,
    out: &mut Answers,
) -> Result<(), Why> {
    match (words.next(), words.next()) {
        (Some(b"L"), Some(b"replace")) => chars::replacement(words, out),
        (Some(b"L"), Some(b"check")) => chars::check(words, out),
        (Some(b"L"), Some(b"start")) => chars::start(words, page, out),
        (Some(b"L"), Some(b"end")) => chars::end(words, out),
        (Some(b"L"), Some(b"utf8")) => runs::utf8(words, lent, out),
        (Some(b"L"), Some(b"isolate")) => runs::isolate(words, page, lent, out),
        (Some(b"A"), Some(b"check")) => checks::check(words, page, lent, out),
        (Some(b"U16"), Some(b"dec")) => units::decode(words, lent, out),
        (Some(b"U16"), Some(b"enc")) => units::encode(words, lent, out),
        (Some(b"G"), Some(b"fill")) => load::fill(words, lent, out),
        (Some(b"G"), Some(b"back")) => load::back(words, out),
        _ => Err(Why::Word),
    }
}
