// Sums over lent slices, one for each leaf, calls of the scanner and writes: what the benchmark calls, exported for Rust. They are proved
// safe and promise nothing more: what they call has its contract, and the benchmark compares the sums with the Rust's.
#![tactic(auto)]

use check_char::check_basic_text_char;
use check_run::{FaultKind, check_run};
use common::Refusal;
use generator::fill;
use isolate_unassigned::isolate;
use page::is_accepted;
use replace::{Replaced, replace};
use scalars::{decode_utf8, valid_prefix};
use text_input::{Options, State, TextInput};
use text_input_price::{ask, commit};
use text_output::{TextOutput, WriteError};
use text_output_write::{write, write_str};
use text_utils::{is_basic_text_end, is_basic_text_start};
use utf16::{ByteOrder, decode_utf16, encode_utf16};

// How many of the characters pass a test.
fn count_of<F: Fn(u32) -> bool>(cs: &[u32], passes: F) -> u32
    requires { F.IsAlwaysCallable passes }
{
    let mut count: u32 = 0;
    for c in cs {
        if passes(*c) {
            count = count.wrapping_add(1);
        }
    }
    count
}

// How many of the characters are ends.
#[unsafe(no_mangle)]
pub extern "C" fn bench_end(cs: &[u32]) -> u32 {
    count_of(cs, is_basic_text_end)
}

// How many of the characters are starts; 0 where the page is not accepted.
#[unsafe(no_mangle)]
pub extern "C" fn bench_start(page: &[u32], cs: &[u32]) -> u32 {
    if is_accepted(page) {
        count_of(cs, |c| is_basic_text_start(page, c))
    } else {
        0
    }
}

// The sum of the characters that replace c.
fn replacement_sum(c: u32) -> u32 {
    match replace(c) {
        Replaced::One(x) => x,
        Replaced::Two(x, y) => x.wrapping_add(y),
        Replaced::Three(x, y, z) => x.wrapping_add(y).wrapping_add(z),
    }
}

// The sum of all that replaces the characters.
#[unsafe(no_mangle)]
pub extern "C" fn bench_replace(cs: &[u32]) -> u32 {
    cs.iter()
        .fold(0, |sum: u32, c| sum.wrapping_add(replacement_sum(*c)))
}

// How many of the characters the check accepts.
#[unsafe(no_mangle)]
pub extern "C" fn bench_check(cs: &[u32]) -> u32 {
    count_of(cs, |c| check_basic_text_char(c).is_ok())
}

// How many places a call wrote; 0 where it is refused.
fn written(answer: Result<usize, Refusal>) -> usize {
    answer.unwrap_or(0)
}

// How many places of out a run is isolated into; 0 where it is refused.
#[unsafe(no_mangle)]
pub extern "C" fn bench_isolate(page: &[u32], cs: &[u32], out: &mut [u32]) -> usize {
    written(isolate(page, cs, out))
}

// A number for a fault's kind: 1 to 4.
fn kind_number(kind: FaultKind) -> usize {
    match kind {
        FaultKind::Char => 1,
        FaultKind::Start => 2,
        FaultKind::End => 3,
        FaultKind::Newline => 4,
    }
}

// Four times the place of a run's first fault, with its kind's number added; 0 where it has none, and the greatest number where it is
// refused.
#[unsafe(no_mangle)]
pub extern "C" fn bench_check_run(page: &[u32], cs: &[u32]) -> usize {
    match check_run(page, cs) {
        Ok(None) => 0,
        Ok(Some(fault)) => fault
            .place
            .wrapping_mul(4)
            .wrapping_add(kind_number(fault.kind)),
        Err(_) => usize::MAX,
    }
}

// Whether the page is accepted.
#[unsafe(no_mangle)]
pub extern "C" fn bench_page(page: &[u32]) -> bool {
    is_accepted(page)
}

// How many bytes the longest valid prefix has.
#[unsafe(no_mangle)]
pub extern "C" fn bench_prefix(bytes: &[u8]) -> usize {
    valid_prefix(bytes).bytes
}

// How many places of out the characters of the longest valid prefix are decoded into.
#[unsafe(no_mangle)]
pub extern "C" fn bench_decode(bytes: &[u8], out: &mut [u32]) -> usize {
    decode_utf8(bytes, out).chars
}

// The byte order that a flag says.
fn byte_order(big: bool) -> ByteOrder {
    if big {
        ByteOrder::Big
    } else {
        ByteOrder::Little
    }
}

// How many places of out UTF-16 is decoded into; 0 where it is refused.
#[unsafe(no_mangle)]
pub extern "C" fn bench_decode_utf16(big: bool, bytes: &[u8], out: &mut [u32]) -> usize {
    decode_utf16(byte_order(big), bytes, out).unwrap_or(0)
}

// How many bytes of out characters are encoded into as UTF-16; 0 where they are refused.
#[unsafe(no_mangle)]
pub extern "C" fn bench_encode_utf16(big: bool, chars: &[u32], out: &mut [u8]) -> usize {
    written(encode_utf16(byte_order(big), chars, out))
}

// Fills the places with awkward text from a state on, and hands back the state after it. The benchmark draws its awkward text by it.
#[unsafe(no_mangle)]
pub extern "C" fn bench_fill(state: u32, out: &mut [u32]) -> u32 {
    fill(state, out)
}

// A record that stands in text.
fn in_text() -> TextInput {
    TextInput {
        state: State::Ground(false),
        expect_starter: false,
        at_start: false,
        last: 0x61,
        count: 1,
    }
}

// The options by their flags.
fn options(nel: bool, lsps: bool, units: bool) -> Options {
    Options {
        nel_compatibility: nel,
        lsps_compatibility: lsps,
        units_compatibility: units,
    }
}

// How many places of queue a chunk is scanned into, from a record that stands in text; 0 where it is refused.
#[unsafe(no_mangle)]
pub extern "C" fn bench_scan(
    page: &[u32],
    nel: bool,
    lsps: bool,
    units: bool,
    chunk: &[u32],
    queue: &mut [u32],
) -> usize {
    let options = options(nel, lsps, units);
    written(in_text().scan(page, options, chunk, queue).answer)
}

// The same by a commit.
#[unsafe(no_mangle)]
pub extern "C" fn bench_commit(
    page: &[u32],
    nel: bool,
    lsps: bool,
    units: bool,
    chunk: &[u32],
    queue: &mut [u32],
) -> usize {
    let options = options(nel, lsps, units);
    written(commit(in_text(), page, options, chunk, queue).answer)
}

// How many places a chunk fills, from the same record; 0 where asking is refused.
#[unsafe(no_mangle)]
pub extern "C" fn bench_ask(
    page: &[u32],
    nel: bool,
    lsps: bool,
    units: bool,
    chunk: &[u32],
) -> usize {
    written(ask(in_text(), page, options(nel, lsps, units), chunk))
}

// A plain or a CRLF writer, as opened but that it expects no start.
fn writer(crlf: bool) -> TextOutput {
    let mut opened = if crlf {
        TextOutput::with_crlf_compatibility()
    } else {
        TextOutput::new()
    };
    opened.expect_starter = false;
    opened
}

// How many characters a write hands out; 0 where it is refused.
fn handed_out(answer: Result<usize, WriteError>) -> usize {
    answer.unwrap_or(0)
}

// How many places of out a write of characters hands out.
#[unsafe(no_mangle)]
pub extern "C" fn bench_write(page: &[u32], crlf: bool, chars: &[u32], out: &mut [u32]) -> usize {
    handed_out(write_str(writer(crlf), page, chars, out).answer)
}

// The same of a write of bytes to a plain writer.
#[unsafe(no_mangle)]
pub extern "C" fn bench_write_bytes(page: &[u32], bytes: &[u8], out: &mut [u32]) -> usize {
    handed_out(write(writer(false), page, bytes, out).answer)
}
