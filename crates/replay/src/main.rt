// Replays operations of the library: reads them from standard input, one to a line, and writes an answer line for each to standard
// output.
//     input.rt     the lines of the input
//     session.rt   what lasts from line to line, and the way from a line to what answers it
#![tactic(auto)]

mod input;
mod session;

use input::{Input, Line};
use replay_words::answers::Answers;
use replay_words::buffers::Buffers;
use replay_words::{NUMBERS, PLACES};
use session::Session;

// A proved loop has to end, and nothing says that the input does: so the lines are counted, up to a number that no run reaches.
fn main() {
    let mut input = Input::new();
    let mut line = Line::new();
    let mut session = Session::new();
    let mut answers = Answers::new();
    let mut numbers = [0; NUMBERS];
    let mut places = [0; PLACES];
    let mut bytes = [0; PLACES];
    for _ in 0..u64::MAX {
        let more = input.read_line(&mut line);
        let lent = Buffers {
            numbers: &mut numbers,
            places: &mut places,
            bytes: &mut bytes,
        };
        session.answer(&line, lent, &mut answers);
        if !more {
            break;
        }
    }
    answers.flush();
}
