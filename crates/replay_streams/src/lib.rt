// The operations of the program `replay` on streams: `S ..` on a scanner and `F` on a queue that it
// filled. Each has a module, with a function that answers a line.
#![tactic(auto)]

pub mod filling;
pub mod scanner;
