// The boundary classes: which characters may start and end a text, and private use. Ports `is_basic_text_start`,
// `is_basic_text_end` and what they call in internals/src/text_utils.rs. The Rust's `matches!` are lists here (tables.rt),
// searched by halves.
//     lists.rt    the packed lists, each with what it holds
//     tables.rt   the numbers of all lists
#![tactic(auto)]

mod lists;
mod tables;

ghost use Rattle.std.specs.Prelude.{◌≡◌, true, not, ◌&&◌, List, ℕ, eqb};
ghost use Rattle.page.specs.Page.{accepted};
ghost use Rattle.text_utils.specs.Tables.{emoji_modifier, spacing_mark, spacing_mark_exceptions, consonant_preceding_repha, consonant_prefixed, prepended_concatenation_mark};
ghost use Rattle.text_utils.specs.Classes.{listed, starter, grapheme_extend_not_cgj, spacing_mark_plus, basic_text_start, lacked_by_rust, basic_text_end, is_private_use, class_numbers, start_class, end_class};

use common::Refusal;
use page::{is_accepted, is_nonstarter};
use ranges::{in_packed, in_ranges};
use scalars::{ZWJ, is_char};

// "Hundreds of grapheme and spacing-mark range ends in constant arrays": tables.rt, and a function like this for each list.
fn is_grapheme_extend_not_cgj(c: u32) -> bool
    ensures { result ≡ grapheme_extend_not_cgj c }
{
    in_packed(&lists::grapheme_extend_not_cgj(), c)
}

fn is_emoji_modifier(c: u32) -> bool
    ensures { result ≡ listed emoji_modifier c }
{
    in_packed(&lists::emoji_modifier(), c)
}

fn is_general_category_spacing_mark(c: u32) -> bool
    ensures { result ≡ listed spacing_mark c }
{
    in_packed(&lists::spacing_mark(), c)
}

fn is_spacing_mark_exception(c: u32) -> bool
    ensures { result ≡ listed spacing_mark_exceptions c }
{
    in_packed(&lists::spacing_mark_exception(), c)
}

fn is_grapheme_cluster_break_spacing_mark_plus(c: u32) -> bool
    ensures { result ≡ spacing_mark_plus c }
{
    (c == 0xe33)
        | (c == 0xeb3)
        | (is_general_category_spacing_mark(c) & !is_spacing_mark_exception(c))
}

// Every ASCII character is a starter, whatever the page says. Inner: it asks for an accepted page.
fn is_starter(page: &[u32], c: u32) -> bool
    requires { accepted page.now ≡ true }
    ensures { result ≡ starter page.now c }
{
    if c < 0x80 {
        return true;
    }
    !is_nonstarter(page, c)
}

// Whether c, if it is a starter, may start a text: what the lists say of it. Total: any number.
fn is_start_by_lists(c: u32) -> bool
    ensures { (p : List ℕ) → starter p c ≡ true → result ≡ basic_text_start p c }
{
    (c != ZWJ)
        & !is_grapheme_extend_not_cgj(c)
        & !is_emoji_modifier(c)
        & !is_grapheme_cluster_break_spacing_mark_plus(c)
}

// Whether c may start a text. No table has a character below 300, nor from 309B to A66E, so these are starts where they are starters.
// The lists are asked from two places, so that the compiler leaves them a function of their own, and the tests before them put no list on
// the stack. Inner: it asks for an accepted page.
pub fn is_basic_text_start(page: &[u32], c: u32) -> bool
    requires { accepted page.now ≡ true }
    ensures { result ≡ basic_text_start page.now c }
{
    if !is_starter(page, c) {
        return false;
    }
    if c < 0x300 {
        return true;
    }
    if c < 0x309b {
        return is_start_by_lists(c);
    }
    if c < 0xa66f {
        return true;
    }
    is_start_by_lists(c)
}

fn indic_syllabic_category_consonant_preceding_repha(c: u32) -> bool
    ensures { result ≡ listed consonant_preceding_repha c }
{
    in_ranges(
        &tables::CONSONANT_PRECEDING_REPHA_FIRST,
        &tables::CONSONANT_PRECEDING_REPHA_LAST,
        c,
    )
}

fn indic_syllabic_category_consonant_prefixed(c: u32) -> bool
    ensures { result ≡ listed consonant_prefixed c }
{
    in_ranges(
        &tables::CONSONANT_PREFIXED_FIRST,
        &tables::CONSONANT_PREFIXED_LAST,
        c,
    )
}

fn prepended_concatenation_mark(c: u32) -> bool
    ensures { result ≡ listed prepended_concatenation_mark c && not (lacked_by_rust c) }
{
    in_ranges(
        &tables::PREPENDED_CONCATENATION_MARK_FIRST,
        &tables::PREPENDED_CONCATENATION_MARK_LAST,
        c,
    )
}

// `is_basic_text_end` by the tables. Total: any number.
fn is_end_by_tables(c: u32) -> bool
    ensures { result ≡ basic_text_end c }
{
    (c != ZWJ)
        & !indic_syllabic_category_consonant_preceding_repha(c)
        & !indic_syllabic_category_consonant_prefixed(c)
        & !prepended_concatenation_mark(c)
}

// Whether c lies in one of three spans from 8E3 on where no table of the ends has a character: most characters do.
fn is_apart_from_end_tables(c: u32) -> bool
    ensures { result ≡ true → basic_text_end c ≡ not (eqb c 0x200d) }
{
    (0x8e3 <= c) & (c <= 0xd4d) | (0xd4f <= c) & (c <= 0x110bc) | (0x11f03 <= c)
}

// Whether c may end a text. Below 600 no table has a character, nor in the spans of 8E3 on, where only ZWJ is no end: for these no
// list is copied to the stack. The lists are asked from two places, so that what is before them is compiled into each caller without
// them. Total: any number.
pub fn is_basic_text_end(c: u32) -> bool
    ensures { result ≡ basic_text_end c }
{
    if c < 0x600 {
        return true;
    }
    if c < 0x8e3 {
        return is_end_by_tables(c);
    }
    if is_apart_from_end_tables(c) {
        return c != ZWJ;
    }
    is_end_by_tables(c)
}

// Whether c lies in a private-use area. Total: any number.
pub fn is_private_use_area(c: u32) -> bool
    ensures { result ≡ is_private_use c }
{
    in_ranges(
        &tables::PRIVATE_USE_AREA_FIRST,
        &tables::PRIVATE_USE_AREA_LAST,
        c,
    )
}

// Whether the character c may start a text. Total: refuses 2, then 1.
pub fn start_class(page: &[u32], c: u32) -> Result<bool, Refusal>
    ensures { class_numbers result ≡ start_class page.now c }
{
    if is_accepted(page) {
        if is_char(c) {
            return Ok(is_basic_text_start(page, c));
        }
        return Err(Refusal::NotAChar);
    }
    Err(Refusal::WrongPage)
}

// Whether the character c may end a text. Total: refuses 1.
pub fn end_class(c: u32) -> Result<bool, Refusal>
    ensures { class_numbers result ≡ end_class c }
{
    if is_char(c) {
        return Ok(is_basic_text_end(c));
    }
    Err(Refusal::NotAChar)
}
