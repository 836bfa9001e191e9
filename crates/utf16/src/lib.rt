// UTF-16 in either byte order: a whole run of bytes read as characters, and characters written as bytes. Document 02, A.3. Stands for
// `char::decode_utf16` and `char::encode_utf16`, which go by units of 16 bits, and this by the bytes of each; and where the former goes
// on behind an unpaired surrogate, this refuses the run, so that nothing is read in part.
#![tactic(auto)]

ghost use Rattle.std.specs.Prelude.{◌≡◌, true, ◌||◌, [], ◌∷◌, ◌+◌, ◌-◌, ◌*◌, ◌/◌, ◌≤◌, ◌<◌, length, get_or, take, drop};
ghost use Rattle.std.proofs.lemmas.List.Edits.{sets};
ghost use Rattle.common.specs.Answers.{written_numbers};
ghost use Rattle.scalars.specs.Chars.{are_chars};
ghost use Rattle.utf16.specs.Utf16.{units_of, first_byte, second_byte, serialised, utf16_of};
ghost use Rattle.utf16.specs.Reading.{unit_of, units_in, is_high, is_low, char_of, chars_in};
ghost use Rattle.utf16.specs.Entries.{decoded_numbers, decode_answer, decode_places, encode_answer, encode_places};
ghost use Rattle.utf16.specs.Inner.{found_in, PlainBytes, PlainTo, OneUnit, OneUnitTo};

use common::Refusal;
use scalars::are_chars;

// Which byte of a unit stands first: the low one, or the high one. "one little-endian and one big-endian"
#[derive(Clone, Copy, Debug, PartialEq, Eq)]
pub enum ByteOrder {
    Little,
    Big,
}

// Why reading is refused.
#[derive(Clone, Copy, Debug, PartialEq, Eq)]
pub enum DecodeError {
    // By 14: the number of bytes is odd.
    OddBytes,
    // By 15: a surrogate is unpaired; the place of the first, in units from 0.
    Unpaired(usize),
    // By 8: there are more characters than places.
    NoRoom,
}

// The unit of two bytes, as they stand.
fn unit_of(order: ByteOrder, a: u8, b: u8) -> u32
    ensures { (result ≡ unit_of order a b) × (result < 0x10000) }
{
    let unit = match order {
        ByteOrder::Little => u16::from_le_bytes([a, b]),
        ByteOrder::Big => u16::from_be_bytes([a, b]),
    };
    u32::from(unit)
}

// The unit at place i, which has two bytes.
fn unit_at(order: ByteOrder, bytes: &[u8], i: usize) -> u32
    requires { i < length bytes.now / 2 }
    ensures { (result ≡ get_or (units_in order bytes.now) i 0) × (result < 0x10000) }
{
    unit_of(order, bytes[2 * i], bytes[2 * i + 1])
}

// The same for any place: 0 where there is no unit.
fn unit_or_zero(order: ByteOrder, bytes: &[u8], i: usize) -> u32
    ensures { (result ≡ get_or (units_in order bytes.now) i 0) × (result < 0x10000) }
{
    if i < bytes.len() / 2 {
        return unit_at(order, bytes, i);
    }
    0
}

// Whether a unit is a surrogate, a high one, a low one. Total.
#[tactic(auto, using(crate::proofs::Pairs::surrogate_range))]
fn is_surrogate(u: u32) -> bool
    ensures { result ≡ is_high u || is_low u }
{
    (0xd800 <= u) & (u <= 0xdfff)
}

#[tactic(auto, unfolding(crate::specs::Reading::is_high))]
fn is_high(u: u32) -> bool
    ensures { result ≡ is_high u }
{
    (0xd800 <= u) & (u <= 0xdbff)
}

#[tactic(auto, unfolding(crate::specs::Reading::is_low))]
fn is_low(u: u32) -> bool
    ensures { result ≡ is_low u }
{
    (0xdc00 <= u) & (u <= 0xdfff)
}

// True only if none of a block's bytes is one of D8..DF: every surrogate has one. The fold has no early exit, so that it can be vectorised.
fn is_plain_block(block: &[u8]) -> bool
    ensures { result ≡ true → PlainBytes block.now 0 (length block.now) }
{
    block
        .iter()
        .fold(true, |good, &b| good & !((0xd8 <= b) & (b <= 0xdf)))
}

// A place up to which no unit from `from` on is a surrogate, in whole blocks of 16; it need not be the last such place. The size of a
// block is a constant, so that the compiler can unroll the fold of `is_plain_block`.
fn plain_end(bytes: &[u8], from: usize) -> usize
    requires { from ≤ length bytes.now / 2 }
    ensures { PlainTo bytes.now from result }
{
    let mut end = from;
    for block in bytes[2 * from..].chunks_exact(32) {
        if !is_plain_block(block) {
            return end;
        }
        end += 16;
    }
    end
}

// How many pairs there are, if no surrogate is unpaired. Looks over the units: a stretch without surrogates at once, then up to 16 one by
// one, a pair at once. Total. The loops stay `while`: a turn of the outer one takes as many units as `plain_end` answers, one of the inner
// one or two.
fn look_over(order: ByteOrder, bytes: &[u8]) -> Result<usize, DecodeError>
    ensures { result ≡ found_in (units_in order bytes.now) }
{
    let n = bytes.len() / 2;
    let mut pairs = 0;
    let mut i = 0;
    while i < n {
        i = plain_end(bytes, i);
        let stop = n.min(i + 16);
        while i < stop {
            let u = unit_at(order, bytes, i);
            if is_surrogate(u) {
                if !(is_high(u) & is_low(unit_or_zero(order, bytes, i + 1))) {
                    return Err(DecodeError::Unpaired(i));
                }
                pairs += 1;
                i += 2;
            } else {
                i += 1;
            }
        }
    }
    Ok(pairs)
}

// The character that the unit u gives with the unit at place i, which is behind it.
fn char_at(order: ByteOrder, bytes: &[u8], u: u32, i: usize) -> u32
    ensures { result ≡ char_of u (get_or (units_in order bytes.now) i 0) }
{
    if is_high(u) {
        let after = unit_or_zero(order, bytes, i);
        return 0x10000 + u % 0x400 * 0x400 + after % 0x400;
    }
    u
}

// Stores the units from `from` up to `end` as they are, from place k on: of a stretch they are the characters.
fn widen(order: ByteOrder, bytes: &[u8], from: usize, end: usize, out: &mut [u32], k: usize)
    requires from_le_end { (from ≤ end) × (end ≤ length bytes.now / 2) }
    requires from_in_bounds { k + (end - from) ≤ length out.old }
    ensures { out.new ≡ sets out.old k (take (end - from) (drop from (units_in order bytes.now))) }
{
    for j in 0..end - from {
        out[k + j] = unit_at(order, bytes, from + j);
    }
}

// Stores the characters of all units in the first places: those of a stretch without surrogates at once, then up to 16 units one by one.
// The outer loop stays a `while`: a turn takes as many units as `plain_end` answers.
fn store(order: ByteOrder, bytes: &[u8], out: &mut [u32])
    requires { length (chars_in (units_in order bytes.now)) ≤ length out.old }
    ensures { out.new ≡ sets out.old 0 (chars_in (units_in order bytes.now)) }
{
    let n = bytes.len() / 2;
    let mut k = 0;
    let mut i = 0;
    while i < n {
        let end = plain_end(bytes, i);
        widen(order, bytes, i, end, out, k);
        k += end - i;
        let stop = n.min(end + 16);
        for j in end..stop {
            let u = unit_at(order, bytes, j);
            if !is_low(u) {
                out[k] = char_at(order, bytes, u, j + 1);
                k += 1;
            }
        }
        i = stop;
    }
}

// Reads a whole run of bytes as UTF-16: the characters into the first places of out, and answers how many. "Read and write both, from a whole lent run of
// bytes, with the order given by the caller." Total: refuses 14, 15, 8, in this order, and then leaves every place.
pub fn decode_utf16(order: ByteOrder, bytes: &[u8], out: &mut [u32]) -> Result<usize, DecodeError>
    ensures answer { decoded_numbers result ≡ decode_answer order bytes.now out.old }
    ensures places { out.new ≡ decode_places order bytes.now out.old }
{
    if bytes.len() % 2 == 1 {
        return Err(DecodeError::OddBytes);
    }
    let pairs = look_over(order, bytes)?;
    let n = bytes.len() / 2 - pairs;
    if out.len() < n {
        return Err(DecodeError::NoRoom);
    }
    store(order, bytes, out);
    Ok(n)
}

// Writes a unit's two bytes at a place. By `to_le_bytes` and `to_be_bytes` characters above FFFF would take 30 to 60 % longer.
fn put_unit(order: ByteOrder, u: u32, out: &mut [u8], at: usize)
    requires { (u < 0x10000) × (at + 2 ≤ length out.old) }
    ensures { out.new ≡ sets out.old at (first_byte order u ∷ second_byte order u ∷ []) }
{
    let high = (u / 256) as u8;
    let low = (u % 256) as u8;
    match order {
        ByteOrder::Little => {
            out[at] = low;
            out[at + 1] = high;
        }
        ByteOrder::Big => {
            out[at] = high;
            out[at + 1] = low;
        }
    }
}

// Writes a character's units at a place, and answers the place after them.
fn put_char(order: ByteOrder, c: u32, out: &mut [u8], at: usize) -> usize
    requires { (c < 0x110000) × (at + 4 ≤ length out.old) }
    ensures { (result ≡ at + length (serialised order (units_of c))) × (out.new ≡ sets out.old at (serialised order (units_of c))) }
{
    if c < 0x10000 {
        put_unit(order, c, out, at);
        return at + 2;
    }
    let v = c - 0x10000;
    put_unit(order, 0xd800 + v / 0x400, out, at);
    put_unit(order, 0xdc00 + v % 0x400, out, at + 2);
    at + 4
}

// True only if all of a block's characters are below 10000, and so have one unit. The fold has no early exit, so that it can be
// vectorised.
fn is_short_block(block: &[u32]) -> bool
    ensures { result ≡ true → OneUnit block.now 0 (length block.now) }
{
    block.iter().fold(true, |good, &c| good & (c < 0x10000))
}

// A place up to which every character from `from` on has one unit, in blocks as those of `plain_end`.
fn short_end(chars: &[u32], from: usize) -> usize
    requires { from ≤ length chars.now }
    ensures { OneUnitTo chars.now from result }
{
    let mut end = from;
    for block in chars[from..].chunks_exact(16) {
        if !is_short_block(block) {
            return end;
        }
        end += 16;
    }
    end
}

// Writes the characters from `from` up to `end`, each of which has one unit, at a place.
fn put_short(order: ByteOrder, chars: &[u32], from: usize, end: usize, out: &mut [u8], at: usize)
    requires one_unit_to { OneUnitTo chars.now from end }
    requires from_in_bounds { at + 2 * (end - from) ≤ length out.old }
    ensures { out.new ≡ sets out.old at (serialised order (take (end - from) (drop from chars.now))) }
{
    for (j, &c) in chars[from..end].iter().enumerate() {
        put_unit(order, c, out, at + 2 * j);
    }
}

// Writes all characters from the first byte on, and answers how many bytes they took: those of one unit in stretches, then up to 16 one by
// one. The outer loop stays a `while`: a turn takes as many characters as `short_end` answers.
fn put_chars(order: ByteOrder, chars: &[u32], out: &mut [u8]) -> usize
    requires { (are_chars chars.now ≡ true) × (4 * length chars.now ≤ length out.old) }
    ensures { (result ≡ length (utf16_of order chars.now)) × (out.new ≡ sets out.old 0 (utf16_of order chars.now)) }
{
    let mut at = 0;
    let mut i = 0;
    while i < chars.len() {
        let end = short_end(chars, i);
        put_short(order, chars, i, end, out, at);
        at += 2 * (end - i);
        let stop = chars.len().min(end + 16);
        for &c in &chars[end..stop] {
            at = put_char(order, c, out, at);
        }
        i = stop;
    }
    at
}

// Writes characters as UTF-16: their bytes from the first place of out on. Total: refuses 1, then 8 where fewer than 4 bytes are lent for
// each character, and then leaves every byte.
#[tactic(auto, unfolding(crate::specs::Entries::encode_answer, crate::specs::Entries::encode_places))]
pub fn encode_utf16(order: ByteOrder, chars: &[u32], out: &mut [u8]) -> Result<usize, Refusal>
    ensures answer { written_numbers result ≡ encode_answer order chars.now out.old }
    ensures places { out.new ≡ encode_places order chars.now out.old }
{
    if !are_chars(chars) {
        return Err(Refusal::NotAChar);
    }
    if chars.len() <= out.len() / 4 {
        return Ok(put_chars(order, chars, out));
    }
    Err(Refusal::NoRoom)
}
