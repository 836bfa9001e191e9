// Why a character is refused, as numbers.
ghost use Rattle.std.specs.Prelude.{◌≡◌, [], ◌∷◌};
ghost use Rattle.check_char.specs.Check.{error_numbers};
ghost use Rattle.check_char.specs.Numbers.{reason_by};

use super::BasicTextError;

// How many numbers the reason has, 1, 2 or 6, and these: its own, the character that it names, and how many replacements and which;
// each 0 where there is none.
#[derive(Clone, Copy, Debug, PartialEq, Eq)]
pub struct Reason {
    pub size: usize,
    pub number: u32,
    pub character: u32,
    pub count: u32,
    pub first: u32,
    pub second: u32,
    pub third: u32,
}

// A reason that carries no value.
fn bare(number: u32) -> Reason
    ensures { result ≡ reason_by (number ∷ []) }
{
    Reason {
        size: 1,
        number,
        character: 0,
        count: 0,
        first: 0,
        second: 0,
        third: 0,
    }
}

// A reason that names a character.
fn naming(number: u32, character: u32) -> Reason
    ensures { result ≡ reason_by (number ∷ character ∷ []) }
{
    Reason {
        size: 2,
        number,
        character,
        count: 0,
        first: 0,
        second: 0,
        third: 0,
    }
}

pub fn reason_of(e: BasicTextError) -> Reason
    ensures { result ≡ reason_by (error_numbers e) }
{
    match e {
        BasicTextError::ColorEscapeSequence => bare(1),
        BasicTextError::ControlCode(c) => naming(2, c),
        BasicTextError::DeprecatedFormatChar(c) => naming(3, c),
        BasicTextError::Escape => bare(4),
        BasicTextError::BidiFormatChar => bare(5),
        BasicTextError::Interlinear => bare(6),
        BasicTextError::LanguageTag => bare(7),
        BasicTextError::LineSeparation => bare(8),
        BasicTextError::NonChar => bare(9),
        BasicTextError::ParaSeparation => bare(10),
        BasicTextError::UnneededBOM => bare(11),
        BasicTextError::OutOfBand => bare(12),
        BasicTextError::Omit(c) => naming(13, c),
        BasicTextError::Beyyal => bare(14),
        BasicTextError::UnrecognizedEscape => bare(15),
        BasicTextError::Replacement { yes, no } => Reason {
            size: 6,
            number: 16,
            character: no,
            count: yes.count,
            first: yes.first,
            second: yes.second,
            third: yes.third,
        },
    }
}
