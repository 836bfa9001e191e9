// What the command counts and reads in bytes: counts over them, the front of a buffer, and the numbers of a page's text.
#![tactic(auto)]

pub mod counts;
pub mod front;
pub mod numbers;
