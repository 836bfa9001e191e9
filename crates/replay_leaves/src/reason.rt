// A refused character in an answer.
use crate::outcomes::Refused;
use check_char::{BasicTextError, Reason, reason_of};
use common::Refusal;
use replay_words::listed::List;
use replay_words::places::front;
use std::fmt;
use std::fmt::Display;

// The refusal of a character, for this reason.
#[derive(Clone, Copy)]
pub struct Unwritable(pub BasicTextError);

// `no 4 r=R`, and ` c=C` and ` y=LIST` where the reason names a character and replacements.
impl Display for Unwritable {
    fn fmt<W: fmt::Write>(&self, f: &mut fmt::Formatter<W>) -> fmt::Result {
        let refused = Refused(Refusal::Unwritable);
        let why = reason_of(self.0);
        write!(f, "{refused} r={}", why.number)?;
        if 2 <= why.size {
            write!(f, " c={:x}", why.character)?;
        }
        if 3 <= why.size {
            let chars = [why.first, why.second, why.third];
            let list = List(front(&chars, why.count as usize));
            write!(f, " y={list}")?;
        }
        Ok(())
    }
}
