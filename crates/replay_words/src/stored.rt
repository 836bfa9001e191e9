// The answer of a call that stores in the places lent to it, without the line's end.
use crate::places::{Place, front, is_blank};
use std::fmt;
use std::fmt::Display;

// `clean`, or `dirty` where a call wrote a place that it was to leave as it was.
#[derive(Clone, Copy)]
pub struct Clean(pub bool);

impl Display for Clean {
    fn fmt<W: fmt::Write>(&self, f: &mut fmt::Formatter<W>) -> fmt::Result {
        let word = if self.0 { "clean" } else { "dirty" };
        write!(f, "{word}")
    }
}

// How many of the places lent, blank before, a call stored in, or why in none.
#[derive(Clone, Copy)]
pub struct Stored<'a, T, E> {
    pub places: &'a [T],
    pub outcome: Result<usize, E>,
}

// `ok n=N out=LIST`, or the refusal, and whether the other places are as they were.
impl<T: Place, E: Display> Display for Stored<'_, T, E> {
    fn fmt<W: fmt::Write>(&self, f: &mut fmt::Formatter<W>) -> fmt::Result {
        let mut from = 0;
        match &self.outcome {
            Ok(n) => {
                from = *n;
                write!(f, "ok n={n:x} out=")?;
                T::list(front(self.places, *n), f)?;
            }
            Err(refused) => write!(f, "{refused}")?,
        }
        let clean = Clean(is_blank(self.places, from));
        write!(f, " {clean}")
    }
}
