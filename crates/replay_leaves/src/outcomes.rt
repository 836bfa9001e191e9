// What the library answers, as an answer tells it.
use common::Refusal;
use std::fmt;
use std::fmt::Display;

// A refusal by its number: `no NUMBER`.
#[derive(Clone, Copy, Debug, PartialEq, Eq)]
pub struct Refused(pub Refusal);

impl Display for Refused {
    fn fmt<W: fmt::Write>(&self, f: &mut fmt::Formatter<W>) -> fmt::Result {
        let number = self.0.number();
        write!(f, "no {number}")
    }
}

// How many places a call stored in, or its refusal.
pub fn stored(found: Result<usize, Refusal>) -> Result<usize, Refused> {
    found.map_err(|why| Refused(why))
}
