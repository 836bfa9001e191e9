// What all crates share and none owns: the refusals by name.
// The definitions write the refusals' numbers, as the documents list them, and the code these names.
#![tactic(auto)]

ghost use Rattle.std.specs.Prelude.{◌≡◌};
ghost use Rattle.common.specs.Answers.{refusal_number};

use std::error::Error;
use std::fmt;

// Why an entry refuses.
#[derive(Clone, Copy, Debug, PartialEq, Eq, Hash)]
pub enum Refusal {
    // A value in D800..DFFF or above 10FFFF.
    NotAChar,
    // A wrong page.
    WrongPage,
    // A write of bytes, not empty, whose first byte begins no character.
    NotUtf8,
    // A character that the check or the writer's state refuses; it comes with a reason.
    Unwritable,
    // What is to be handed out, not empty, begins with no start while one is expected.
    NoStart,
    // An escape that holds 64 characters gets another.
    EscapeFull,
    // A byte buffer under 136.
    SmallBuffer,
    // Too few free places.
    NoRoom,
    // A writer record with a held count that its state can't have, or over 64.
    UnsoundWriter,
    // The count would pass 4,294,967,295.
    CountLimit,
    // A flush or a close after a non-end.
    AfterNonEnd,
    // A close after another character that is no newline.
    AfterNoNewline,
    // A flush or a close inside an escape.
    InEscape,
    // An odd number of bytes, to be read as units of two.
    OddBytes,
    // A surrogate in no pair; it comes with its place.
    UnpairedSurrogate,
}

impl Refusal {
    // Its number in the documents. Total.
    pub fn number(self) -> u32
        ensures { result ≡ refusal_number self }
    {
        match self {
            Refusal::NotAChar => 1,
            Refusal::WrongPage => 2,
            Refusal::NotUtf8 => 3,
            Refusal::Unwritable => 4,
            Refusal::NoStart => 5,
            Refusal::EscapeFull => 6,
            Refusal::SmallBuffer => 7,
            Refusal::NoRoom => 8,
            Refusal::UnsoundWriter => 9,
            Refusal::CountLimit => 10,
            Refusal::AfterNonEnd => 11,
            Refusal::AfterNoNewline => 12,
            Refusal::InEscape => 13,
            Refusal::OddBytes => 14,
            Refusal::UnpairedSurrogate => 15,
        }
    }
}

impl fmt::Display for Refusal {
    fn fmt<W: fmt::Write>(&self, f: &mut fmt::Formatter<W>) -> fmt::Result {
        f.write_str(match self {
            Refusal::NotAChar => "a number is no character",
            Refusal::WrongPage => "the page is wrong",
            Refusal::NotUtf8 => "the first byte begins no character",
            Refusal::Unwritable => "a character may not be written",
            Refusal::NoStart => "what is to be handed out begins with no start",
            Refusal::EscapeFull => "an escape is too long",
            Refusal::SmallBuffer => "the buffer has fewer than 136 bytes",
            Refusal::NoRoom => "too few places are lent",
            Refusal::UnsoundWriter =>
                "the writer's record claims a held count that its state can't have",
            Refusal::CountLimit => "the count would pass 4,294,967,295",
            Refusal::AfterNonEnd => "the last character is no end",
            Refusal::AfterNoNewline => "the last character is no newline",
            Refusal::InEscape => "an escape is open",
            Refusal::OddBytes => "the number of bytes is odd",
            Refusal::UnpairedSurrogate => "a surrogate has no partner",
        })
    }
}

impl Error for Refusal {}
