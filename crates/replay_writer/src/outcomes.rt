// What the calls on a writer answered.
use replay_leaves::{Refused, Unwritable};
use std::fmt;
use std::fmt::Display;
use text_output::{CloseError, WriteError};

// Why a call is refused.
#[derive(Clone, Copy)]
pub enum Failure {
    // Nothing changed.
    Refused(Refused),
    // The caller is to abandon the stream.
    Abandon(Refused),
    // The caller is to abandon the stream, for this character.
    Unwritable(Unwritable),
}

impl Failure {
    // The first place that a write is to leave as it was, where it keeps so many characters.
    pub fn first_left(self, kept: usize) -> usize {
        match self {
            Failure::Refused(_) => 0,
            Failure::Abandon(_) | Failure::Unwritable(_) => kept,
        }
    }
}

// The refusal, and ` abandon` where the caller is to.
impl Display for Failure {
    fn fmt<W: fmt::Write>(&self, f: &mut fmt::Formatter<W>) -> fmt::Result {
        match self {
            Failure::Refused(refused) => refused.fmt(f),
            Failure::Abandon(refused) => write!(f, "{refused} abandon"),
            Failure::Unwritable(unwritable) => write!(f, "{unwritable} abandon"),
        }
    }
}

// How many places a write hands out.
pub fn handed_out(found: Result<usize, WriteError>) -> Result<usize, Failure> {
    found.map_err(|why| match why {
        WriteError::Refused(why) => Failure::Refused(Refused(why)),
        WriteError::Abandon(why) => Failure::Abandon(Refused(why)),
        WriteError::Unwritable(e) => Failure::Unwritable(Unwritable(e)),
    })
}

// That a flush or a close is done.
pub fn done(found: Result<(), CloseError>) -> Result<(), Failure> {
    found.map_err(|why| match why {
        CloseError::Refused(why) => Failure::Refused(Refused(why)),
        CloseError::Abandon(why) => Failure::Abandon(Refused(why)),
    })
}
