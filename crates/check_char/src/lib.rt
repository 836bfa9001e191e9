// Which characters Basic Text refuses, and why. Ports `check_basic_text_char` of internals/src/check.rs and `Categorize` of
// internals/src/categorize.rs. Beyond them, by the option for units, the reason for the signs of ohm, kelvin and angstrom names their
// letters. The crate is not called `check`: the toolchain has a library of that name.
//     numbers.rt   a reason as plain numbers
#![tactic(auto)]

mod numbers;

ghost use Rattle.std.specs.Prelude.{◌≡◌};
ghost use Rattle.check_char.specs.declared.CheckError.TheVariants.{Unwritable};
ghost use Rattle.check_char.specs.Check.{reason_of, three_and_count, reason_numbers, check_by, check_numbers, check_answer_numbers, check_answer, unrefused, categorized_numbers, categorize_of};

pub use numbers::{Reason, reason_of};
use replace::{Replaced, replace_by};
use scalars::{BOM, ORC, SUB, is_char};

// The replacements that a reason names, as the Rust's `Box<[char]>`: how many, and three characters, 0 past that many.
#[derive(Clone, Copy, Debug, PartialEq, Eq)]
pub struct Replacements {
    pub count: u32,
    pub first: u32,
    pub second: u32,
    pub third: u32,
}

// Why a character, or a sequence of characters, is refused. A reason's number is its place here, counted from 1.
#[derive(Clone, Copy, Debug, PartialEq, Eq)]
pub enum BasicTextError {
    ColorEscapeSequence,
    ControlCode(u32),
    DeprecatedFormatChar(u32),
    Escape,
    BidiFormatChar,
    Interlinear,
    LanguageTag,
    LineSeparation,
    NonChar,
    ParaSeparation,
    UnneededBOM,
    OutOfBand,
    Omit(u32),
    Beyyal,
    UnrecognizedEscape,
    Replacement { yes: Replacements, no: u32 },
}

// The number of the reason for which c is refused, and 0 where it is accepted.
fn reason(c: u32) -> u32
    ensures { result ≡ reason_of c }
{
    match c {
        // Newline and tab are allowed, and escape is handled specially.
        0x0..=0x8 | 0xb..=0x1a | 0x1c..=0x1f | 0x7f..=0x9f => 2,
        0x149
        | 0x673
        | 0xf77
        | 0xf79
        | 0x17a3
        | 0x17a4
        | 0x2329
        | 0x232a
        | 0x2126
        | 0x212a
        | 0x212b
        | 0x2df5
        | 0x111c4
        | 0xfb00..=0xfb06
        | 0x9e4
        | 0x9e5
        | 0xa64
        | 0xa65
        | 0xae4
        | 0xae5
        | 0xb64
        | 0xb65
        | 0xbe4
        | 0xbe5
        | 0xc64
        | 0xc65
        | 0xce4
        | 0xce5
        | 0xd64
        | 0xd65
        | 0x2072
        | 0x2073
        | 0x1d455
        | 0x1d49d
        | 0x1d4a0
        | 0x1d4a1
        | 0x1d4a3
        | 0x1d4a4
        | 0x1d4a7
        | 0x1d4a8
        | 0x1d4ad
        | 0x1d4ba
        | 0x1d4bc
        | 0x1d4c4
        | 0x1d506
        | 0x1d50b
        | 0x1d50c
        | 0x1d515
        | 0x1d51d
        | 0x1d53a
        | 0x1d53f
        | 0x1d545
        | 0x1d547
        | 0x1d548
        | 0x1d549
        | 0x1d551
        | 0xf900..=0xfa0d
        | 0xfa10
        | 0xfa12
        | 0xfa15..=0xfa1e
        | 0xfa20
        | 0xfa22
        | 0xfa25..=0xfa26
        | 0xfa2a..=0xfa6d
        | 0xfa70..=0xfad9
        | 0x2f800..=0x2fa1d => 16,
        0xe0001 => 7,
        0xfff9..=0xfffb => 6,
        0x17b4 | 0x17b5 => 13,
        0x17d8 => 14,
        0x206a..=0x206f => 3,
        0x2028 => 8,
        0x2029 => 10,
        0x202a | 0x202b | 0x202c | 0x202d | 0x202e | 0x2066 | 0x2067 | 0x2068 | 0x2069 => 5,
        0xfffe..=0xffff
        | 0x1fffe..=0x1ffff
        | 0x2fffe..=0x2ffff
        | 0x3fffe..=0x3ffff
        | 0x4fffe..=0x4ffff
        | 0x5fffe..=0x5ffff
        | 0x6fffe..=0x6ffff
        | 0x7fffe..=0x7ffff
        | 0x8fffe..=0x8ffff
        | 0x9fffe..=0x9ffff
        | 0xafffe..=0xaffff
        | 0xbfffe..=0xbffff
        | 0xcfffe..=0xcffff
        | 0xdfffe..=0xdffff
        | 0xefffe..=0xeffff
        | 0xffffe..=0xfffff
        | 0x10fffe..=0x10ffff
        | 0xfdd0..=0xfdef => 9,
        ORC => 12,
        BOM => 11,
        _ => 0,
    }
}

// Replacements as three numbers and a count.
fn listed(r: Replaced) -> Replacements
    ensures { result ≡ three_and_count r }
{
    match r {
        Replaced::One(a) => Replacements {
            count: 1,
            first: a,
            second: 0,
            third: 0,
        },
        Replaced::Two(a, b) => Replacements {
            count: 2,
            first: a,
            second: b,
            third: 0,
        },
        Replaced::Three(a, b, c) => Replacements {
            count: 3,
            first: a,
            second: b,
            third: c,
        },
    }
}

// Whether c is accepted, and why not, with the option for units on or off. Inner: it does not ask whether c is a character.
fn check_by(units: bool, c: u32) -> Result<(), BasicTextError>
    ensures { reason_numbers result ≡ check_by units c }
{
    let number = reason(c);
    match number {
        0 => Ok(()),
        2 => Err(BasicTextError::ControlCode(c)),
        3 => Err(BasicTextError::DeprecatedFormatChar(c)),
        5 => Err(BasicTextError::BidiFormatChar),
        6 => Err(BasicTextError::Interlinear),
        7 => Err(BasicTextError::LanguageTag),
        8 => Err(BasicTextError::LineSeparation),
        9 => Err(BasicTextError::NonChar),
        10 => Err(BasicTextError::ParaSeparation),
        11 => Err(BasicTextError::UnneededBOM),
        12 => Err(BasicTextError::OutOfBand),
        13 => Err(BasicTextError::Omit(c)),
        14 => Err(BasicTextError::Beyyal),
        _ => {
            let yes = listed(replace_by(units, c));
            Err(BasicTextError::Replacement { yes, no: c })
        }
    }
}

// The same with the option off, for a write and the check of a run. Inner, as `check_by`.
#[tactic(auto, unfolding(crate::specs::Check::check_numbers))]
pub fn check_basic_text_char(c: u32) -> Result<(), BasicTextError>
    ensures { reason_numbers result ≡ check_numbers c }
{
    check_by(false, c)
}

// Why the entry refuses a number.
#[derive(Clone, Copy, Debug, PartialEq, Eq)]
pub enum CheckError {
    // It is no character: 1.
    NotAChar,
    // The check refuses it, for this reason: 4.
    Unwritable(BasicTextError),
}

impl From<BasicTextError> for CheckError {
    ghost from_gives = { λ e r. r ≡ Unwritable e };

    fn from(e: BasicTextError) -> Self {
        CheckError::Unwritable(e)
    }
}

// Whether the character c is accepted, with the option on or off. Total: refuses 1, then 4 with the reason.
pub fn check(units: bool, c: u32) -> Result<(), CheckError>
    ensures { check_answer_numbers result ≡ check_answer units c }
{
    if !is_char(c) {
        return Err(CheckError::NotAChar);
    }
    check_by(units, c)?;
    Ok(())
}

// The record of `Categorize`: the reason for which a character was last refused, the Rust's shared cell.
#[derive(Clone, Copy, Debug, PartialEq, Eq)]
pub struct Categorize {
    pub error: Result<(), BasicTextError>,
}

// The character that is handed on, as it came or SUB, 1A, in its place; with the record after, which keeps the reason.
// "The iterator chain with `Rc<RefCell>`: records by value whose step answers an enum."
#[derive(Clone, Copy, Debug, PartialEq, Eq)]
pub enum Categorized {
    Char(u32, Categorize),
    Sub(u32, Categorize),
}

impl Categorize {
    // No character was refused yet.
    pub fn new() -> Self
        ensures { result ≡ unrefused }
    {
        Categorize { error: Ok(()) }
    }

    // One character. Inner: it does not ask whether c is a character.
    pub fn step(self, c: u32) -> Categorized
        ensures { categorized_numbers result ≡ categorize_of self c }
    {
        let checked = check_basic_text_char(c);
        match checked {
            Ok(()) => Categorized::Char(c, self),
            Err(e) => Categorized::Sub(SUB, Categorize { error: Err(e) }),
        }
    }
}
