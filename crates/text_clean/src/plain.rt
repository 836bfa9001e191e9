// Runs of plain characters as bytes, most of any file: tab, 20 to 7E, and encodings of the characters of a gap (crate `stretch`); and line
// ends. The end of a run is found by blocks of 16, and all of it is copied at once. All of it is inner.
// No contract says that a run is the longest: where a block ends, and which gap a caller guesses, is a matter of time alone.
ghost use Rattle.std.specs.Prelude.{◌≡◌, ◌+◌, ◌≤◌, ◌<◌, length};
ghost use Rattle.std.specs.List.{list_all};
ghost use Rattle.std.proofs.lemmas.List.Edits.{sets};
ghost use Rattle.stretch.specs.Plain.{Gap};
ghost use Rattle.text_clean.specs.Inner.{plain_byte, PlainBytes, PlainTo, PlainRun, line_end_at};

use ranges::{Range, in_range};
use scalars::utf8_step;

// Where a run ends, how many characters it has, and the last of them.
#[derive(Clone, Copy, Debug, PartialEq, Eq)]
pub struct PlainEnd {
    pub at: usize,
    pub chars: usize,
    pub last: u32,
}

// Tab, and 20 to 7E.
#[tactic(auto, unfolding(crate::specs::Inner::plain_byte))]
fn is_plain(b: u8) -> bool
    ensures { result ≡ plain_byte b }
{
    matches!(b, b'\t' | 0x20..=0x7e)
}

// Whether all bytes of a block are plain. The loop has no early exit, so that it can be vectorised.
fn is_plain_block(block: &[u8]) -> bool
    ensures { result ≡ list_all plain_byte block.now }
{
    let mut good = true;
    for &b in block {
        good &= is_plain(b);
    }
    good
}

// A place up to which all bytes are plain: none where no ASCII stands, else by blocks and then one by one.
fn ascii_end(bytes: &[u8], from: usize) -> usize
    requires { from ≤ length bytes.now }
    ensures { PlainTo bytes.now from result }
{
    if from < bytes.len() && !bytes[from].is_ascii() {
        return from;
    }
    let mut at = from;
    for block in bytes[from..].chunks_exact(16) {
        if !is_plain_block(block) {
            break;
        }
        at += 16;
    }
    at + bytes[at..].iter().take_while(|&&b| is_plain(b)).count()
}

// A run of plain characters from a place on. Inner: asks for a place of the bytes, and for a gap.
pub fn plain_run(bytes: &[u8], from: usize, gap: Range) -> PlainEnd
    requires from_in_bounds { from ≤ length bytes.now }
    requires gap { Gap gap }
    ensures { PlainRun bytes.now from result }
{
    let mut at = from;
    let mut chars = 0;
    let mut last = 0;
    // No `for`: each turn takes as many bytes as its calls answer.
    loop {
        let end = ascii_end(bytes, at);
        if at < end {
            chars += end - at;
            last = u32::from(bytes[end - 1]);
            at = end;
        }
        let Some((c, next)) = utf8_step(bytes, at) else {
            return PlainEnd { at, chars, last };
        };
        if !(in_range(gap, c) & (c != 0x149) & (c != 0x673)) {
            return PlainEnd { at, chars, last };
        }
        chars += 1;
        last = c;
        at = next;
    }
}

// How many bytes the line end at a place has, 0A or 0D 0A: 0 for none. Inner: asks for a place with a byte.
pub fn line_end(bytes: &[u8], i: usize) -> usize
    requires { i < length bytes.now }
    ensures { result ≡ line_end_at bytes.now i }
{
    match &bytes[i..] {
        [b'\n', ..] => 1,
        [b'\r', b'\n', ..] => 2,
        _ => 0,
    }
}

// Stores bytes from a place on. Inner: asks for room.
pub fn copy_run(run: &[u8], out: &mut [u8], at: usize)
    requires { at + length run.now ≤ length out.old }
    ensures { out.new ≡ sets out.old at run.now }
{
    out[at..at + run.len()].copy_from_slice(run);
}
