// The packed lists of tables.rt, by which a start is told. Each is by its contract the packed ranges of its category in Unicode's data.
// All are total.
ghost use Rattle.std.specs.Prelude.{◌≡◌};
ghost use Rattle.ranges.specs.Ranges.{minus};
ghost use Rattle.ranges.specs.Packed.{packed};
ghost use Rattle.text_utils.specs.Tables.{grapheme_extend, emoji_modifier, spacing_mark, spacing_mark_exceptions};

use super::tables;

// "However the grapheme and spacing-mark ranges are stored now, store each range as one 32-bit number .. with a list for each
// category": Grapheme_Extend without CGJ, 34F.
pub fn grapheme_extend_not_cgj() -> [u32; 377]
    ensures { result ≡ packed (minus 0x34f 0x34f grapheme_extend) }
{
    tables::GRAPHEME_EXTEND_NOT_CGJ
}

// Emoji_Modifier.
pub fn emoji_modifier() -> [u32; 1]
    ensures { result ≡ packed emoji_modifier }
{
    tables::EMOJI_MODIFIER
}

// General_Category = Spacing_Mark.
pub fn spacing_mark() -> [u32; 182]
    ensures { result ≡ packed spacing_mark }
{
    tables::SPACING_MARK
}

// Those of the last that UAX #29 excepts.
pub fn spacing_mark_exception() -> [u32; 16]
    ensures { result ≡ packed spacing_mark_exceptions }
{
    tables::SPACING_MARK_EXCEPTION
}
