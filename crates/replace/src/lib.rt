// What a character is replaced by on input, so that text that holds it can still be read. Ports `replace` of
// internals/src/replace.rs, arm by arm; what the Rust pushes to a queue is the answer here. Beyond it, by the option for units, the
// signs of ohm, kelvin and angstrom are replaced by their letters.
#![tactic(auto)]

ghost use Rattle.std.specs.Prelude.{◌≡◌, false};
ghost use Rattle.replace.specs.Replace.{replace_of, replacement_numbers, replacement_of};

use common::Refusal;
use scalars::{BOM, FF, LS, NEL, ORC, PS, REPL, WJ, is_char};

// One to three characters.
#[derive(Clone, Copy, Debug, PartialEq, Eq)]
pub enum Replaced {
    One(u32),
    Two(u32, u32),
    Three(u32, u32, u32),
}

// What replaces c with the option for units off; any other number is itself. Inner: it does not ask whether c is a character.
// "'Replacement is one decision over all characters': A match on the character with single values and ranges, arms for ligatures,
// controls and noncharacters."
pub fn replace(c: u32) -> Replaced
    ensures { result ≡ replace_of false c }
{
    match c {
        BOM => Replaced::One(WJ),
        0x149 => Replaced::Two(0x2bc, 0x6e),
        0x673 => Replaced::Two(0x627, 0x65f),
        0xf77 => Replaced::Two(0xfb2, 0xf81),
        0xf79 => Replaced::Two(0xfb3, 0xf81),
        0x17a3 => Replaced::One(0x17a2),
        0x17a4 => Replaced::Two(0x17a2, 0x17b6),
        // Discouraged characters
        0x2df5 => Replaced::Two(0x2ded, 0x2dee),
        0x111c4 => Replaced::Two(0x1118f, 0x11180),
        LS | PS => Replaced::One(0x20),
        // Latin Ligatures
        0xfb00 => Replaced::Two(0x66, 0x66),
        0xfb01 => Replaced::Two(0x66, 0x69),
        0xfb02 => Replaced::Two(0x66, 0x6c),
        0xfb03 => Replaced::Three(0x66, 0x66, 0x69),
        0xfb04 => Replaced::Three(0x66, 0x66, 0x6c),
        0xfb05 => Replaced::Two(0x17f, 0x74),
        0xfb06 => Replaced::Two(0x73, 0x74),
        FF | NEL => Replaced::One(0x20),
        // Control codes: C0 (except LF, tab, FF, and ESC), DEL, C1 (except NEL)
        0x0..=0x8
        | 0xb
        | 0xd..=0x1a
        | 0x1c..=0x1f
        | 0x7f..=0x84
        | 0x86..=0x9f
        |
        // Angle brackets
        0x2329
        | 0x232a
        |
        // Interlinear Annotations
        0xfff9..=0xfffb
        |
        // Unassigned characters with replacements.
        0x9e4
        | 0x9e5
        | 0xa64
        | 0xa65
        | 0xae4
        | 0xae5
        | 0xb64
        | 0xb65
        | 0xbe4
        | 0xbe5
        | 0xc64
        | 0xc65
        | 0xce4
        | 0xce5
        | 0xd64
        | 0xd65
        | 0x2072
        | 0x2073
        | 0x1d455
        | 0x1d49d
        | 0x1d4a0
        | 0x1d4a1
        | 0x1d4a3
        | 0x1d4a4
        | 0x1d4a7
        | 0x1d4a8
        | 0x1d4ad
        | 0x1d4ba
        | 0x1d4bc
        | 0x1d4c4
        | 0x1d506
        | 0x1d50b
        | 0x1d50c
        | 0x1d515
        | 0x1d51d
        | 0x1d53a
        | 0x1d53f
        | 0x1d545
        | 0x1d547
        | 0x1d548
        | 0x1d549
        | 0x1d551
        |
        // Object Replacement Character
        ORC
        |
        // Khmer characters erroneously invented by Unicode.
        0x17b4
        | 0x17b5
        | 0x17d8
        |
        // Deprecated Format Characters
        0x206a..=0x206f
        |
        // Bidirectional Format Characters
        0x202a
        | 0x202b
        | 0x202c
        | 0x202d
        | 0x202e
        | 0x2066
        | 0x2067
        | 0x2068
        | 0x2069
        |
        // Language Tag
        0xe0001
        |
        // Noncharacters
        0xfffe..=0xffff
        | 0x1fffe..=0x1ffff
        | 0x2fffe..=0x2ffff
        | 0x3fffe..=0x3ffff
        | 0x4fffe..=0x4ffff
        | 0x5fffe..=0x5ffff
        | 0x6fffe..=0x6ffff
        | 0x7fffe..=0x7ffff
        | 0x8fffe..=0x8ffff
        | 0x9fffe..=0x9ffff
        | 0xafffe..=0xaffff
        | 0xbfffe..=0xbffff
        | 0xcfffe..=0xcffff
        | 0xdfffe..=0xdffff
        | 0xefffe..=0xeffff
        | 0xffffe..=0xfffff
        | 0x10fffe..=0x10ffff
        | 0xfdd0..=0xfdef => Replaced::One(REPL),
        _ => Replaced::One(c),
    }
}

// What replaces c with the option for units on or off. Inner, as `replace`.
pub fn replace_by(units: bool, c: u32) -> Replaced
    ensures { result ≡ replace_of units c }
{
    if units {
        match c {
            0x2126 => return Replaced::One(0x3a9),
            0x212a => return Replaced::One(0x4b),
            0x212b => return Replaced::One(0xc5),
            _ => {}
        }
    }
    replace(c)
}

// What replaces the character c, with the option on or off. Total: a number that is no character is refused by 1.
pub fn replacement(units: bool, c: u32) -> Result<Replaced, Refusal>
    ensures { replacement_numbers result ≡ replacement_of units c }
{
    if is_char(c) {
        return Ok(replace_by(units, c));
    }
    Err(Refusal::NotAChar)
}
