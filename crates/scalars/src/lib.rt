// The named characters of `internals/src/unicode.rs`, the test for a character, and UTF-8 (`utf8.rt`).
// A character is lent as a 32-bit number. `is_normalization_form_starter` reads the property page: see the crate `page`.
#![tactic(auto)]

mod utf8;

ghost use Rattle.std.specs.Prelude.{◌≡◌};
ghost use Rattle.scalars.specs.Chars.{is_char, are_chars};

pub use utf8::{Prefix, decode_utf8, encode_utf8, utf8_step, valid_prefix, write_utf8};

// The bytes of the longest UTF-8 encoding of a character.
pub const MAX_UTF8_SIZE: usize = 4;

// From unicode-normalization.
const MAX_NONSTARTERS: usize = 30;

// Enough for a composed start, a long run of nonstarters, and a composed end.
pub const NORMALIZATION_BUFFER_LEN: usize = 2 + MAX_NONSTARTERS + 2;

// The least size of a byte buffer to fill: 136.
pub const NORMALIZATION_BUFFER_SIZE: usize = MAX_UTF8_SIZE * NORMALIZATION_BUFFER_LEN;

// ASCII FF, form feed.
pub const FF: u32 = 0xc;

// ASCII BEL.
pub const BEL: u32 = 0x7;

// ASCII CAN.
pub const CAN: u32 = 0x18;

// ASCII ESC.
pub const ESC: u32 = 0x1b;

// ASCII SUB.
pub const SUB: u32 = 0x1a;

// ASCII DEL.
pub const DEL: u32 = 0x7f;

// NEXT LINE, of EBCDIC.
pub const NEL: u32 = 0x85;

// COMBINING GRAPHEME JOINER
pub const CGJ: u32 = 0x34f;

// ZERO WIDTH NO-BREAK SPACE, the byte-order mark
pub const BOM: u32 = 0xfeff;

// WORD JOINER
pub const WJ: u32 = 0x2060;

// ZERO WIDTH JOINER
pub const ZWJ: u32 = 0x200d;

// REPLACEMENT CHARACTER
pub const REPL: u32 = 0xfffd;

// OBJECT REPLACEMENT CHARACTER
pub const ORC: u32 = 0xfffc;

// LINE SEPARATOR
pub const LS: u32 = 0x2028;

// PARAGRAPH SEPARATOR
pub const PS: u32 = 0x2029;

// Whether the number c is a character, which refusal 1 asks. Total.
#[tactic(auto, unfolding(crate::specs::Chars::is_char))]
pub fn is_char(c: u32) -> bool
    ensures { result ≡ is_char c }
{
    !((0xd800 <= c) & (c <= 0xdfff) | (0x10ffff < c))
}

// Whether every value is a character. Total. The loop has no early exit, so that it can be vectorised.
pub fn are_chars(chars: &[u32]) -> bool
    ensures { result ≡ are_chars chars.now }
{
    chars.iter().fold(true, |good, &c| good & is_char(c))
}
