// The library that Rust links: the scanner's calls and the write of bytes, on lent bytes. Bytes are read as 32-bit numbers, a record
// goes in and comes back as plain numbers, and nothing is allocated or kept between calls.
//     numbers.rt        bytes as numbers
//     plain.rt          a record, options and an answer as numbers
//     plain_writer.rt   the writer's record and its answer as numbers
//     run.rt            a run of characters
//     writing.rt        a write of bytes
#![tactic(auto)]

mod numbers;
mod plain;
mod plain_writer;
mod run;
mod writing;

ghost use Rattle.std.specs.Prelude.{◌≡◌, ◌≤◌, length};
ghost use Rattle.std.proofs.lemmas.List.Edits.{sets};
ghost use Rattle.text_input.specs.Scan.{outcome, scan_of, finish_of};
ghost use Rattle.text_output.specs.Writer.{bytes_outcome};
ghost use Rattle.text_output.specs.Write.{write_of};
ghost use Rattle.basic_text_numbers.specs.Numbers.{flag};
ghost use Rattle.basic_text.specs.Exports.{numbers_of, bytes_of, page_of, record_of, options_of, reply_of, writer_of, write_reply_of};
ghost use Rattle.basic_text.specs.Inner.{longest_page, fitting};

use basic_text_numbers::flag_of;
use common::Refusal;
use numbers::{hold_chars, read_front, write_numbers};
use page::is_accepted;
use plain::options_of;
use run::{run, skips};
use text_input::{Options, Scanned, TextInput};
use text_input_parts::refusals::refusal;
use text_output::{TextOutput, WrittenBytes};
use writing::write;

// The scanner's record. A state's number past the last is read as 0, and a flag is false at 0 alone.
#[repr(C)]
#[derive(Clone, Copy, Debug, PartialEq, Eq)]
pub struct Record {
    pub state: u32,
    pub expect_starter: u32,
    pub at_start: u32,
    pub last: u32,
    pub count: u32,
}

// The number of a refusal, or 0; how many numbers were written; the record after the call.
#[repr(C)]
#[derive(Clone, Copy, Debug, PartialEq, Eq)]
pub struct Reply {
    pub refused: u32,
    pub written: usize,
    pub record: Record,
}

// The writer's record. A mode's or a state's number past the last is read as 0, and a flag is false at 0 alone.
#[repr(C)]
#[derive(Clone, Copy, Debug, PartialEq, Eq)]
pub struct Writer {
    pub mode: u32,
    pub expect_starter: u32,
    pub state: u32,
    pub kept: usize,
    pub held: usize,
    pub escape_sequence: [u32; 64],
}

// The number of a refusal, or 0; 1 where the caller is to abandon the stream; of a 4 the reason's number, the character that it names,
// and its replacements, how many and which, each 0 where there is none; how many bytes were taken; how many characters are handed
// out; the record after the call.
#[repr(C)]
#[derive(Clone, Copy, Debug, PartialEq, Eq)]
pub struct WriteReply {
    pub refused: u32,
    pub abandon: u32,
    pub reason: u32,
    pub character: u32,
    pub count: u32,
    pub first: u32,
    pub second: u32,
    pub third: u32,
    pub used: usize,
    pub written: usize,
    pub writer: Writer,
}

// The numbers of the longest page that is accepted: 2 + 2 × (2,048 + 2,048).
const LONGEST: usize = 8194;

// The numbers of a short page at most. That of Unicode 15.0.0 has 1,796. For a short page a call zeroes a quarter of the places.
const SHORT: usize = 2048;

// Reads a page into the first places of out, and answers these places: none for one that is wrong by its length. Inner: asks for room.
#[tactic(auto, using(crate::proofs::Pages::right_page, crate::proofs::Pages::wrong_page, crate::proofs::Pages::fitting_few))]
fn read_page<'a>(page: &[u8], out: &'a mut [u32]) -> &'a [u32]
    requires { length (fitting (page_of page.now)) ≤ length out.old }
    ensures upper_bound { length result.now ≤ longest_page }
    ensures all_after { result.now ≡ fitting (page_of page.now) }
{
    if page.len() % 4 == 0 && page.len() / 4 <= LONGEST {
        return read_front(page, out);
    }
    &[]
}

// The scan by a page of numbers. Total.
fn scan(r: TextInput, page: &[u32], options: Options, chunk: &[u8], queue: &mut [u8]) -> Scanned
    ensures queue_value { outcome result (scan_of r page.now options (numbers_of chunk.now) (numbers_of queue.old)).places
        ≡ scan_of r page.now options (numbers_of chunk.now) (numbers_of queue.old) }
    ensures queue_after { queue.new
        ≡ sets queue.old 0 (bytes_of (scan_of r page.now options (numbers_of chunk.now) (numbers_of queue.old)).places) }
{
    let n = chunk.len() / 4;
    if let Err(why) = refusal(
        r.count,
        is_accepted(page),
        hold_chars(chunk),
        n,
        queue.len() / 4,
    ) {
        return Scanned {
            answer: Err(why),
            next: r,
        };
    }
    let from = skips(r, chunk);
    let ran = run(r.open(n as u32), page, options, chunk, from, queue);
    Scanned {
        answer: Ok(ran.written),
        next: ran.next,
    }
}

// The scan by a page that is read into N places. Inner: asks for enough, and for no more than the longest page needs.
#[tactic(auto, using(crate::proofs::Pages::scan_fitting))]
fn scan_by<const N: usize>(
    r: TextInput,
    page: &[u8],
    options: Options,
    chunk: &[u8],
    queue: &mut [u8],
) -> Scanned
    requires enough { length (fitting (page_of page.now)) ≤ N }
    requires few { N ≤ longest_page }
    ensures queue_value { outcome result (scan_of r (page_of page.now) options (numbers_of chunk.now) (numbers_of queue.old)).places
        ≡ scan_of r (page_of page.now) options (numbers_of chunk.now) (numbers_of queue.old) }
    ensures queue_after { queue.new
        ≡ sets queue.old 0 (bytes_of (scan_of r (page_of page.now) options (numbers_of chunk.now) (numbers_of queue.old)).places) }
{
    let mut numbers = [0u32; N];
    scan(r, read_page(page, &mut numbers), options, chunk, queue)
}

// "'exported on numbers and byte slices for the Rust harness': extern 'C' scan, finish and byte write over numbers and byte slices,
// called by the differential tests."
// A chunk comes in. Page, chunk and queue are lent as bytes; the cleaned characters go to the queue's first places. Total: refuses as
// `TextInput::scan`.
#[tactic(auto, using(crate::proofs::Pages::fitting_few))]
#[unsafe(no_mangle)]
pub extern "C" fn basic_text_scan(
    record: Record,
    page: &[u8],
    options: u32,
    chunk: &[u8],
    queue: &mut [u8],
) -> Reply
    ensures reply { result
        ≡ reply_of (scan_of (record_of «record») (page_of page.now) (options_of options) (numbers_of chunk.now) (numbers_of queue.old)) }
    ensures places { queue.new
        ≡ sets queue.old 0
        (bytes_of (scan_of (record_of «record») (page_of page.now) (options_of options) (numbers_of chunk.now) (numbers_of queue.old)).places) }
{
    let r = TextInput::from(record);
    let o = options_of(options);
    if page.len() / 4 <= SHORT {
        return Reply::from(scan_by::<SHORT>(r, page, o, chunk, queue));
    }
    Reply::from(scan_by::<LONGEST>(r, page, o, chunk, queue))
}

// The finish. Total: what it appends is stored as numbers first, since that is at most two.
fn finish(r: TextInput, eof: bool, queue: &mut [u8]) -> Scanned
    ensures queue_value { outcome result (finish_of r eof (numbers_of queue.old)).places ≡ finish_of r eof (numbers_of queue.old) }
    ensures queue_after { queue.new ≡ sets queue.old 0 (bytes_of (finish_of r eof (numbers_of queue.old)).places) }
{
    if queue.len() / 4 < 2 {
        return Scanned {
            answer: Err(Refusal::NoRoom),
            next: r,
        };
    }
    let mut two = [0u32; 2];
    let finished = r.finish(eof, &mut two);
    if let Ok(n) = finished.answer {
        write_numbers(queue, 0, &two[..n]);
    }
    finished
}

// The stream is pushed, or it ends. The queue is lent as bytes; what is pending goes to its first places, with what ends a text. Total:
// refuses as `TextInput::finish`.
#[unsafe(no_mangle)]
pub extern "C" fn basic_text_finish(record: Record, eof: u32, queue: &mut [u8]) -> Reply
    ensures reply { result ≡ reply_of (finish_of (record_of «record») (flag eof) (numbers_of queue.old)) }
    ensures places { queue.new ≡ sets queue.old 0 (bytes_of (finish_of (record_of «record») (flag eof) (numbers_of queue.old)).places) }
{
    Reply::from(finish(TextInput::from(record), flag_of(eof), queue))
}

// The write by a page that is read into N places. Inner, as `scan_by`.
#[tactic(auto, using(crate::proofs::Pages::write_fitting))]
fn write_by<const N: usize>(
    w: TextOutput,
    page: &[u8],
    bytes: &[u8],
    queue: &mut [u8],
) -> WrittenBytes
    requires enough { length (fitting (page_of page.now)) ≤ N }
    requires few { N ≤ longest_page }
    ensures outcome { bytes_outcome result (numbers_of queue.new) ≡ write_of w (page_of page.now) bytes.now (numbers_of queue.old) }
    ensures places { queue.new
        ≡ sets queue.old 0 (bytes_of (write_of w (page_of page.now) bytes.now (numbers_of queue.old)).outcome.places) }
{
    let mut numbers = [0u32; N];
    write(w, read_page(page, &mut numbers), bytes, queue)
}

// Bytes are written. Page, bytes and queue are lent as bytes; the kept characters stand in the queue's first places, those of the write
// go behind them, and the first places are handed out. Total: refuses as `text_output_write::write`.
#[tactic(auto, using(crate::proofs::Pages::fitting_few))]
#[unsafe(no_mangle)]
pub extern "C" fn basic_text_write(
    writer: Writer,
    page: &[u8],
    bytes: &[u8],
    queue: &mut [u8],
) -> WriteReply
    ensures reply { result ≡ write_reply_of (write_of (writer_of writer) (page_of page.now) bytes.now (numbers_of queue.old)) }
    ensures places { queue.new
        ≡ sets queue.old 0
        (bytes_of (write_of (writer_of writer) (page_of page.now) bytes.now (numbers_of queue.old)).outcome.places) }
{
    let w = TextOutput::from(writer);
    if page.len() / 4 <= SHORT {
        return WriteReply::from(write_by::<SHORT>(w, page, bytes, queue));
    }
    WriteReply::from(write_by::<LONGEST>(w, page, bytes, queue))
}
