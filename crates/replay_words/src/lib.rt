// The language of the program `replay`: the words and the numbers of a line are read here, and the answers are written. It knows
// nothing of the operations.
//     words.rt     the words and the numbers of a line
//     why.rt       why a line is no operation
//     answers.rt   the answers that wait to be written
//     listed.rt    lists of numbers and of bytes in an answer
//     buffers.rt   the memory that an operation is lent
//     places.rt    the places that are lent to a call, and whether it left them as they were
//     stored.rt    the answer of a call that stores in them
#![tactic(auto)]

pub mod answers;
pub mod buffers;
pub mod listed;
pub mod places;
pub mod stored;
pub mod why;
pub mod words;

// How many numbers a line can have.
pub const NUMBERS: usize = 9000;

// How many places can be lent to a call.
pub const PLACES: usize = 16384;
