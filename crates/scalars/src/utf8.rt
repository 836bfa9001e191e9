// UTF-8 (RFC 3629): one step of decoding, the longest valid prefix, and encoding. Stands for `str::from_utf8` with
// `valid_up_to`, and `char::encode_utf8`, on which the Rust leans.
ghost use Rattle.std.specs.Prelude.{◌≡◌, true, ◌+◌, ◌≤◌, ◌<◌, length};
ghost use Rattle.std.proofs.lemmas.List.Edits.{sets};
ghost use Rattle.common.specs.Answers.{written_numbers};
ghost use Rattle.scalars.specs.Chars.{is_char};
ghost use Rattle.scalars.specs.Utf8.{encode_of, utf8_step_of, chars_of, counts_of, decode_of, decode_places, encode_answer, encode_bytes};
ghost use Rattle.scalars.specs.Inner.{more_of, kept_of, two_of, three_of, four_of, Ascii, AsciiTo, AsciiIn};

use super::is_char;
use common::Refusal;

// The bits with the six of the continuation byte at i behind them; none where that byte does not go on with the encoding.
fn more(bytes: &[u8], i: usize, bits: u32) -> Option<u32>
    requires { bits < 0x8000 }
    ensures { result ≡ more_of bytes.now i bits }
{
    if bytes.len() <= i {
        return None;
    }
    let b = u32::from(bytes[i]);
    if (0x80 <= b) & (b <= 0xbf) {
        Some(bits * 64 + (b - 0x80))
    } else {
        None
    }
}

// The value c and the place after it, if it is a character that needs as many bytes as were read: c is `least` or more.
#[tactic(auto, unfolding(crate::specs::Inner::kept_of))]
fn kept(least: u32, c: u32, next: usize) -> Option<(u32, usize)>
    ensures { result ≡ kept_of least c next }
{
    let fits = (least <= c) & is_char(c);
    if fits { Some((c, next)) } else { None }
}

// The character of two, of three and of four bytes at `at`, by the bits of its lead byte.
fn two(bytes: &[u8], at: usize, lead: u32) -> Option<(u32, usize)>
    requires { (at < length bytes.now) × (lead < 0x20) }
    ensures { result ≡ two_of bytes.now at lead }
{
    let v = more(bytes, at + 1, lead)?;
    kept(0x80, v, at + 2)
}

fn three(bytes: &[u8], at: usize, lead: u32) -> Option<(u32, usize)>
    requires { (at < length bytes.now) × (lead < 0x10) }
    ensures { result ≡ three_of bytes.now at lead }
{
    let v = more(bytes, at + 1, lead)?;
    let w = more(bytes, at + 2, v)?;
    kept(0x800, w, at + 3)
}

fn four(bytes: &[u8], at: usize, lead: u32) -> Option<(u32, usize)>
    requires { (at < length bytes.now) × (lead < 8) }
    ensures { result ≡ four_of bytes.now at lead }
{
    let v = more(bytes, at + 1, lead)?;
    let w = more(bytes, at + 2, v)?;
    let x = more(bytes, at + 3, w)?;
    kept(0x10000, x, at + 4)
}

// The character whose encoding stands at a place, with the place after it. "The UTF-8 step answers an enum" Total: any bytes, any place.
// Five tests lead to `four`: behind a sixth the compiler would leave it a call, through whose memory every answer would go.
pub fn utf8_step(bytes: &[u8], at: usize) -> Option<(u32, usize)>
    ensures { result ≡ utf8_step_of bytes.now at }
{
    if bytes.len() <= at {
        return None;
    }
    let b = u32::from(bytes[at]);
    if b < 0x80 {
        return Some((b, at + 1));
    }
    if b < 0xe0 {
        if b < 0xc0 {
            return None;
        }
        return two(bytes, at, b - 0xc0);
    }
    if b < 0xf0 {
        return three(bytes, at, b - 0xe0);
    }
    if b < 0xf8 {
        return four(bytes, at, b - 0xf0);
    }
    None
}

// How many characters, and how many bytes they take.
#[derive(Clone, Copy, Debug, PartialEq, Eq)]
pub struct Prefix {
    pub chars: usize,
    pub bytes: usize,
}

// Whether all bytes of a block are below 80. The fold has no early exit, so that it can be vectorised.
fn ascii_block(block: &[u8]) -> bool
    ensures { result ≡ true → Ascii block.now 0 (length block.now) }
{
    block.iter().fold(true, |good, &b| good & (b < 0x80))
}

// A place up to which all bytes from `from` on are below 80, and not past `stop`: by blocks of one size. A chain that counts the blocks
// would take 14 % longer where each word of a text is in Cyrillic.
fn ascii_blocks(bytes: &[u8], from: usize, stop: usize, size: usize) -> usize
    requires from_le_stop { (from ≤ stop) × (stop ≤ length bytes.now) }
    requires size_nonzero { 0 < size }
    ensures { AsciiTo bytes.now from stop result }
{
    let mut end = from;
    for block in bytes[from..stop].chunks_exact(size) {
        if !ascii_block(block) {
            return end;
        }
        end += size;
    }
    end
}

// The same by blocks of 64, of 16, and one by one. Each size is a number here, by which the fold of `ascii_block` is unrolled.
fn ascii_end(bytes: &[u8], from: usize, stop: usize) -> usize
    requires { (from ≤ stop) × (stop ≤ length bytes.now) }
    ensures { AsciiTo bytes.now from stop result }
{
    let a = ascii_blocks(bytes, from, stop, 64);
    let b = ascii_blocks(bytes, a, stop, 16);
    ascii_blocks(bytes, b, stop, 1)
}

// The longest valid prefix. Total. The ASCII after an ASCII character is stepped over at once. The loop ends where the step
// finds no character: "let .. else takes character and next place, or ends the prefix." It stays a `loop`: a turn takes as many bytes as the
// step answers.
pub fn valid_prefix(bytes: &[u8]) -> Prefix
    ensures { result ≡ counts_of (chars_of bytes.now) }
{
    let mut chars = 0;
    let mut at = 0;
    loop {
        let Some((c, next)) = utf8_step(bytes, at) else {
            return Prefix { chars, bytes: at };
        };
        chars += 1;
        at = next;
        if c < 0x80 {
            at = ascii_end(bytes, next, bytes.len());
            chars = chars + (at - next);
        }
    }
}

// Stores the ASCII from `from` on in the places of out from `at` on, as much as they take, and answers the place after it.
fn decode_ascii(bytes: &[u8], from: usize, out: &mut [u32], at: usize) -> usize
    requires { (from ≤ length bytes.now) × (at ≤ length out.old) }
    ensures { AsciiIn bytes.now from out.old at result out.new }
{
    let stop = from + (bytes.len() - from).min(out.len() - at);
    let end = ascii_end(bytes, from, stop);
    let run = &bytes[from..end];
    for (j, &b) in run.iter().enumerate() {
        out[at + j] = u32::from(b);
    }
    end
}

// The characters of the longest valid prefix into out, as many as it has places for. Total: the places after them stay as
// they were. The ASCII after an ASCII character is stored at once. The loop stays a `while`, since a turn takes as many as its step answers.
pub fn decode_utf8(bytes: &[u8], out: &mut [u32]) -> Prefix
    ensures counts { result ≡ counts_of (decode_of bytes.now out.old) }
    ensures places { out.new ≡ decode_places bytes.now out.old }
{
    let mut chars = 0;
    let mut at = 0;
    while chars < out.len() {
        let Some((c, next)) = utf8_step(bytes, at) else {
            break;
        };
        out[chars] = c;
        chars += 1;
        at = next;
        if c < 0x80 {
            at = decode_ascii(bytes, next, out, chars);
            chars = chars + (at - next);
        }
    }
    Prefix { chars, bytes: at }
}

// How many bytes encode c.
#[tactic(auto, unfolding(crate::specs::Utf8::encode_of))]
fn len_utf8(c: u32) -> usize
    ensures { result ≡ length (encode_of c) }
{
    if c < 0x80 {
        1
    } else if c < 0x800 {
        2
    } else if c < 0x10000 {
        3
    } else {
        4
    }
}

// Writes a character's bytes at `at`, and answers the place after them. Inner: it asks for a character and for room.
pub fn write_utf8(c: u32, buf: &mut [u8], at: usize) -> usize
    requires { (is_char c ≡ true) × (at + length (encode_of c) ≤ length buf.old) }
    ensures { (result ≡ at + length (encode_of c)) × (buf.new ≡ sets buf.old at (encode_of c)) }
{
    if c < 0x80 {
        buf[at] = c as u8;
        return at + 1;
    }
    if c < 0x800 {
        buf[at] = (0xc0 + c / 64) as u8;
        buf[at + 1] = (0x80 + c % 64) as u8;
        return at + 2;
    }
    if c < 0x10000 {
        buf[at] = (0xe0 + c / 4096) as u8;
        buf[at + 1] = (0x80 + c / 64 % 64) as u8;
        buf[at + 2] = (0x80 + c % 64) as u8;
        return at + 3;
    }
    buf[at] = (0xf0 + c / 262144) as u8;
    buf[at + 1] = (0x80 + c / 4096 % 64) as u8;
    buf[at + 2] = (0x80 + c / 64 % 64) as u8;
    buf[at + 3] = (0x80 + c % 64) as u8;
    at + 4
}

// Writes the encoding of c at `at`, and answers the place after it. Total: refuses 1, then 8 where fewer bytes are free from there on than c needs, and
// then leaves every byte.
pub fn encode_utf8(c: u32, buf: &mut [u8], at: usize) -> Result<usize, Refusal>
    ensures answer { written_numbers result ≡ encode_answer c buf.old at }
    ensures bytes { buf.new ≡ encode_bytes c buf.old at }
{
    if is_char(c) {
        if at <= buf.len() {
            if len_utf8(c) <= buf.len() - at {
                return Ok(write_utf8(c, buf, at));
            }
        }
        return Err(Refusal::NoRoom);
    }
    Err(Refusal::NotAChar)
}
