// Filling bytes from the queue of the scanner: the part of `read_with_status` in text_input.rs that encodes the queue, and
// `clear_to_char_boundary`. It needs no record.
#![tactic(auto)]

ghost use Rattle.std.specs.Prelude.{◌≡◌, true, ◌++◌, ◌≤◌, length, take, drop};
ghost use Rattle.std.proofs.lemmas.List.Edits.{sets};
ghost use Rattle.scalars.specs.Chars.{are_chars};
ghost use Rattle.scalars.specs.Utf8.{continuation, encode_all};
ghost use Rattle.text_input_fill.specs.Fill.{taken_chars, zeroed, fill_outcome, fill_of};

use common::Refusal;
use scalars::{MAX_UTF8_SIZE, NORMALIZATION_BUFFER_SIZE, are_chars, write_utf8};

// The characters taken from the queue, and the bytes filled.
#[derive(Clone, Copy, Debug, PartialEq, Eq)]
pub struct Filled {
    pub taken: usize,
    pub bytes: usize,
}

// 80..BF: where `is_char_boundary` says no.
#[tactic(auto, unfolding(scalars::specs::Utf8::continuation))]
fn is_continuation(b: u8) -> bool
    ensures { result ≡ continuation b }
{
    matches!(b, 0x80..=0xbf)
}

// `clear_to_char_boundary`: zeroes continuation bytes from a place on, up to the first other byte.
// Inner: asks for a place inside.
fn clear_to_char_boundary(buf: &mut [u8], at: usize)
    requires { at ≤ length buf.old }
    ensures { buf.new ≡ take at buf.old ++ zeroed (drop at buf.old) }
{
    for b in &mut buf[at..] {
        if !is_continuation(*b) {
            return;
        }
        *b = 0;
    }
}

// Encodes characters of the queue while at least four bytes are free. Inner: asks for characters.
fn encode_queue(queue: &[u32], buf: &mut [u8]) -> Filled
    requires { are_chars queue.now ≡ true }
    ensures taken { result.taken ≡ length (taken_chars (length buf.old) queue.now) }
    ensures filled { result.bytes ≡ length (encode_all (taken_chars (length buf.old) queue.now)) }
    ensures bytes { buf.new ≡ sets buf.old 0 (encode_all (taken_chars (length buf.old) queue.now)) }
{
    let mut bytes = 0;
    for (taken, &c) in queue.iter().enumerate() {
        if buf.len() - bytes < MAX_UTF8_SIZE {
            return Filled { taken, bytes };
        }
        bytes = write_utf8(c, buf, bytes);
    }
    Filled {
        taken: queue.len(),
        bytes,
    }
}

// Encodes the queue's first characters into the buffer, and answers how many were taken and how many bytes they fill. Total:
// refuses 7, then 1, and then leaves every byte.
#[tactic(auto, using(crate::proofs::Filling::fits), unfolding(crate::specs::Fill::fill_of))]
pub fn fill(queue: &[u32], buf: &mut [u8]) -> Result<Filled, Refusal>
    ensures { fill_outcome result buf.new ≡ fill_of queue.now buf.old }
{
    if buf.len() < NORMALIZATION_BUFFER_SIZE {
        return Err(Refusal::SmallBuffer);
    }
    if !are_chars(queue) {
        return Err(Refusal::NotAChar);
    }
    let filled = encode_queue(queue, buf);
    clear_to_char_boundary(buf, filled.bytes);
    Ok(filled)
}
