// Why a line is no operation.
ghost use Rattle.std.specs.Prelude.{◌≡◌};
ghost use Rattle.replay_words.specs.declared.why.Why.TheVariants.{Memory};

use std::alloc::{AllocError, AllocFailed};
use std::error::Error;
use std::fmt;
use std::fmt::Display;

#[derive(Clone, Copy, Debug, PartialEq, Eq)]
pub enum Why {
    Word,
    Number,
    Byte,
    Many,
    Long,
    Room,
    Options,
    Pattern,
    Held,
    // A caller found no memory. The operations take none: they are lent theirs.
    Memory,
}

// The whole answer: `? ` and a word.
impl Display for Why {
    fn fmt<W: fmt::Write>(&self, f: &mut fmt::Formatter<W>) -> fmt::Result {
        let word = match self {
            Why::Word => "word",
            Why::Number => "number",
            Why::Byte => "byte",
            Why::Many => "many",
            Why::Long => "long",
            Why::Room => "room",
            Why::Options => "options",
            Why::Pattern => "pattern",
            Why::Held => "held",
            Why::Memory => "memory",
        };
        write!(f, "? {word}")
    }
}

impl Error for Why {}

// What `?` makes of a block, and of a store, that found no memory.
impl From<AllocError> for Why {
    ghost from_gives = { λ _ why. why ≡ Memory };

    fn from(_e: AllocError) -> Why {
        Why::Memory
    }
}

impl<T: Drop> From<AllocFailed<T>> for Why {
    ghost from_gives = { λ _ why. why ≡ Memory };

    fn from(_e: AllocFailed<T>) -> Why {
        Why::Memory
    }
}

#[cfg(test)]
mod tests {
    use super::*;
    use std::test::Fail;

    // Callers that find no memory for a block and for a store.
    fn of_block() -> Result<(), Why> {
        Err(AllocError)?;
        Ok(())
    }

    fn of_store() -> Result<(), Why> {
        Err(AllocFailed { value: 0 })?;
        Ok(())
    }

    #[test]
    fn no_memory(rt: HostRuntime) -> Result<(), Fail> {
        assert_eq!(rt; of_block(), Err(Why::Memory));
        assert_eq!(rt; of_store(), Err(Why::Memory));
        let answer = format!(in rt.alloc(); "{}", Why::Memory)?;
        assert_eq!(rt; answer.as_str(), "? memory");
        Ok(())
    }
}
