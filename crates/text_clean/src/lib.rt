// The cleaner: bytes in, cleaned UTF-8 bytes out, in one pass (decode, step, encode). Bytes come in chunks cut anywhere (`clean`), and a
// text ends or is pushed (`finish`). The record is a value: each call takes one and answers the one after it. Bytes that are no UTF-8
// are read as U+FFFD (crate `utf8_lossy`), characters go by the scanner's step (crate `text_input`), and runs of plain characters are
// copied as they stand. Not in the Rust, which composes the same of readers.
//     plain.rt    runs of plain characters, as bytes
//     put.rt      what is appended, encoded into the places
//     text.rt     one character of a text, and what is counted of it
#![tactic(auto)]

mod plain;
mod put;
mod text;

ghost use Rattle.std.specs.Prelude.{◌≡◌, true, [], ◌∷◌, ◌+◌, ◌≤◌, ◌<◌, length, drop};
ghost use Rattle.std.proofs.lemmas.List.Edits.{sets};
ghost use Rattle.scalars.specs.Chars.{are_chars};
ghost use Rattle.scalars.specs.Utf8.{encode_all};
ghost use Rattle.page.specs.Page.{accepted};
ghost use Rattle.stretch.specs.Plain.{Gap};
ghost use Rattle.utf8_lossy.specs.Decode.{pending_of, chars_out};
ghost use Rattle.text_clean.specs.Text.{fresh_text, passed_of};
ghost use Rattle.text_clean.specs.Clean.{outcome, clean_of, finish_of};
ghost use Rattle.text_clean.specs.Inner.{no_tally, Fits, tallied, taken_by, line_end_at, LineAsks, line_moved, line_stored, is_nothing, replaced_more, counts_of, is_short, Course, course_of, gives, leads, ran_in, ran_by, Moves};

use common::Refusal;
use page::is_accepted;
use plain::{copy_run, line_end, plain_run};
use ranges::Range;
use scalars::utf8_step;
use stretch::{first_gap, next_gap};
pub use text::Text;
use text::{Taken, Tally};
use text_input::Options;
use utf8_lossy::{Out, Pending};

// The cleaner's record: the bytes of a character that a chunk's end cut off, and the text so far.
#[derive(Clone, Copy, Debug, PartialEq, Eq)]
pub struct Cleaner {
    pub pending: Pending,
    pub text: Text,
}

// What a call counts, of the bytes that it takes.
#[derive(Clone, Copy, Debug, PartialEq, Eq)]
pub struct Counts {
    // Bytes written.
    pub written: usize,
    // Characters read. The U+FFFD that stands for bytes that are no UTF-8 is one.
    pub read: usize,
    // Bytes that U+FFFD stands for.
    pub replaced: usize,
    // Characters dropped: those of escapes, and a leading U+FEFF.
    pub dropped: usize,
    // Line ends that stood inside escapes, and are gone.
    pub lost: usize,
}

// A call's answer, and the record after it.
#[derive(Clone, Copy, Debug, PartialEq, Eq)]
pub struct Cleaned {
    pub answer: Result<Counts, Refusal>,
    pub next: Cleaner,
}

// How far the bytes are taken and the places written, the record, what is counted, and the gap of plain characters to look in next.
#[derive(Clone, Copy)]
struct Moved {
    at: usize,
    written: usize,
    next: Cleaner,
    tally: Tally,
    gap: Range,
}

// How far the places are written, the record, and what is counted.
#[derive(Clone, Copy)]
struct Ran {
    written: usize,
    next: Cleaner,
    tally: Tally,
}

// Characters that were read and pass as they stand. Inner: asks that the count fits.
fn tally_read(t: Tally, n: usize) -> Tally
    requires { Fits (tallied t n 0 0) }
    ensures { result ≡ tallied t n 0 0 }
{
    Tally {
        read: t.read + n,
        ..t
    }
}

// Bytes that U+FFFD stands for. Inner: asks that the count fits.
fn tally_replaced(t: Tally, n: usize) -> Tally
    requires { Fits (replaced_more t n) }
    ensures { result ≡ replaced_more t n }
{
    Tally {
        replaced: t.replaced + n,
        ..t
    }
}

fn count_all(written: usize, t: Tally) -> Counts
    ensures { result ≡ counts_of written t }
{
    Counts {
        written,
        read: t.read,
        replaced: t.replaced,
        dropped: t.dropped,
        lost: t.lost,
    }
}

// Whether no bytes of a character cut off are pending.
fn is_nothing(pending: Pending) -> bool
    ensures { result ≡ is_nothing (pending_of pending) }
{
    matches!(pending, Pending::Nothing)
}

// The characters that one byte puts out, none to two. Inner: asks for an accepted page, for characters, for room, and that the counts
// fit.
#[tactic(auto, using(common::proofs::Lists::sets_append, scalars::proofs::Texts::encode_append))]
fn take_out(
    text: Text,
    page: &[u32],
    options: Options,
    lines: bool,
    chars: Out,
    out: &mut [u8],
    k: usize,
    tally: Tally,
) -> Taken
    requires page { accepted page.now ≡ true }
    requires chars { are_chars (chars_out chars) ≡ true }
    requires room { k + length (encode_all (passed_of page.now options lines text (chars_out chars)).out) ≤ length out.old }
    requires fits { Fits (taken_by k tally (length (chars_out chars)) (passed_of page.now options lines text (chars_out chars))).tally }
    ensures taken { result ≡ taken_by k tally (length (chars_out chars)) (passed_of page.now options lines text (chars_out chars)) }
    ensures places { out.new ≡ sets out.old k (encode_all (passed_of page.now options lines text (chars_out chars)).out) }
{
    match chars {
        Out::Nothing => Taken { at: k, text, tally },
        Out::One(c) => text.take(page, options, lines, c, out, k, tally),
        Out::Two(c, d) => {
            let first = text.take(page, options, lines, c, out, k, tally);
            first
                .text
                .take(page, options, lines, d, out, first.at, first.tally)
        }
    }
}

// The line end behind a run of plain characters, where one stands at that place, and its newline stored at place k. Most rows end so, and
// it saves them a turn. Inner: asks for room, and that the counts fit, where a line end stands there.
fn take_line(
    text: Text,
    lines: bool,
    bytes: &[u8],
    at: usize,
    gap: Range,
    out: &mut [u8],
    k: usize,
    tally: Tally,
) -> Moved
    requires { LineAsks (line_end_at bytes.now at) bytes.now at out.old k tally }
    ensures moved { result ≡ line_moved (line_end_at bytes.now at) text lines at gap k tally }
    ensures places { out.new ≡ line_stored (line_end_at bytes.now at) out.old k }
{
    if at < bytes.len() {
        let width = line_end(bytes, at);
        if 0 < width {
            out[k] = b'\n';
            return Moved {
                at: at + width,
                written: k + 1,
                next: Cleaner {
                    pending: Pending::Nothing,
                    text: text.ended(lines),
                },
                tally: tally_read(tally, width),
                gap,
            };
        }
    }
    Moved {
        at,
        written: k,
        next: Cleaner {
            pending: Pending::Nothing,
            text,
        },
        tally,
        gap,
    }
}

impl Cleaner {
    // A record as first made.
    pub fn new() -> Self
        ensures pending { pending_of result.pending ≡ [] }
        ensures text { result.text ≡ fresh_text }
    {
        Self {
            pending: Pending::Nothing,
            text: Text::new(),
        }
    }

    // One byte, whatever is pending. Inner: asks as `advance` does.
    fn take_byte(
        self,
        page: &[u32],
        options: Options,
        lines: bool,
        b: u8,
        out: &mut [u8],
        k: usize,
        tally: Tally,
    ) -> Ran
        requires page { accepted page.now ≡ true }
        requires room { k + length (gives page.now options lines (course_of self tally) (b ∷ [])) ≤ length out.old }
        requires fits { Fits (leads page.now options lines (course_of self tally) (b ∷ [])).tally }
        ensures ran { ran_in result ≡ ran_by page.now options lines k (course_of self tally) (b ∷ []) }
        ensures places { out.new ≡ sets out.old k (gives page.now options lines (course_of self tally) (b ∷ [])) }
    {
        let stepped = self.pending.step(b);
        let sofar = tally_replaced(tally, stepped.replaced);
        let taken = take_out(self.text, page, options, lines, stepped.out, out, k, sofar);
        Ran {
            written: taken.at,
            next: Cleaner {
                pending: stepped.next,
                text: taken.text,
            },
            tally: taken.tally,
        }
    }

    // A byte or more from place i on, and their output from place k on: a run of plain characters that is copied, with a line end behind
    // it, a line end, one character, or one byte of one that is cut off or no UTF-8. Inner: asks for an accepted page, for a byte at i,
    // for a gap, for room for all that is left, and that its counts fit.
    fn advance(
        self,
        page: &[u32],
        options: Options,
        lines: bool,
        bytes: &[u8],
        i: usize,
        gap: Range,
        out: &mut [u8],
        k: usize,
        tally: Tally,
    ) -> Moved
        requires page { accepted page.now ≡ true }
        requires more { i < length bytes.now }
        requires gap { Gap gap }
        requires room { k + length (gives page.now options lines (course_of self tally) (drop i bytes.now)) ≤ length out.old }
        requires fits { Fits (leads page.now options lines (course_of self tally) (drop i bytes.now)).tally }
        ensures { Moves page.now options lines (course_of self tally) bytes.now i out.old k result out.new }
    {
        let text = self.text;
        if is_nothing(self.pending) {
            if text.is_ready(bytes[i]) {
                let run = plain_run(bytes, i, gap);
                let end = run.at;
                if i < end {
                    copy_run(&bytes[i..end], out, k);
                    let next = text.passed(run.last);
                    let sofar = tally_read(tally, run.chars);
                    return take_line(next, lines, bytes, end, gap, out, k + (end - i), sofar);
                }
                let width = line_end(bytes, i);
                if 0 < width {
                    out[k] = b'\n';
                    return Moved {
                        at: i + width,
                        written: k + 1,
                        next: Cleaner {
                            pending: Pending::Nothing,
                            text: text.ended(lines),
                        },
                        tally: tally_read(tally, width),
                        gap,
                    };
                }
            }
            match utf8_step(bytes, i) {
                Some((c, after)) => {
                    let taken = text.take(page, options, lines, c, out, k, tally);
                    return Moved {
                        at: after,
                        written: taken.at,
                        next: Cleaner {
                            pending: Pending::Nothing,
                            text: taken.text,
                        },
                        tally: taken.tally,
                        gap: next_gap(gap, c),
                    };
                }
                None => {}
            }
        }
        let ran = self.take_byte(page, options, lines, bytes[i], out, k, tally);
        Moved {
            at: i + 1,
            written: ran.written,
            next: ran.next,
            tally: ran.tally,
            gap,
        }
    }

    // All bytes, their output from the first place on. Inner: asks for an accepted page, for room, and that the counts fit. What is
    // left of the bytes, from the record r on, goes to the places from k on.
    fn run(self, page: &[u32], options: Options, lines: bool, bytes: &[u8], out: &mut [u8]) -> Ran
        requires page { accepted page.now ≡ true }
        requires room { length (gives page.now options lines (course_of self no_tally) bytes.now) ≤ length out.old }
        requires fits { Fits (leads page.now options lines (course_of self no_tally) bytes.now).tally }
        ensures ran { ran_in result ≡ ran_by page.now options lines 0 (course_of self no_tally) bytes.now }
        ensures places { out.new ≡ sets out.old 0 (gives page.now options lines (course_of self no_tally) bytes.now) }
    {
        // No `for`: each turn takes as many bytes as it answers.
        let mut moved = Moved {
            at: 0,
            written: 0,
            next: self,
            tally: Tally::default(),
            gap: first_gap(),
        };
        while moved.at < bytes.len() {
            moved = moved.next.advance(
                page,
                options,
                lines,
                bytes,
                moved.at,
                moved.gap,
                out,
                moved.written,
                moved.tally,
            );
        }
        Ran {
            written: moved.written,
            next: moved.next,
            tally: moved.tally,
        }
    }

    // Takes a chunk of bytes, and writes the cleaned bytes to the first places. With `lines` each line, up to a 0A and with it, is a
    // text of its own. Total: refuses 2, then 8 under 3 × n + 13 places for n bytes, and then leaves record and places. An empty chunk
    // needs no place.
    #[tactic(auto, unfolding(crate::specs::Clean::clean_of))]
    pub fn clean(
        self,
        page: &[u32],
        options: Options,
        lines: bool,
        bytes: &[u8],
        out: &mut [u8],
    ) -> Cleaned
        ensures { outcome result out.new ≡ clean_of self page.now options lines bytes.now out.old }
    {
        if !is_accepted(page) {
            return Cleaned {
                answer: Err(Refusal::WrongPage),
                next: self,
            };
        }
        if is_short(bytes.len(), out.len()) {
            return Cleaned {
                answer: Err(Refusal::NoRoom),
                next: self,
            };
        }
        let ran = self.run(page, options, lines, bytes, out);
        Cleaned {
            answer: Ok(count_all(ran.written, ran.tally)),
            next: ran.next,
        }
    }

    // The text ends, or is pushed: bytes of a character cut off give U+FFFD, and what is pending of the text goes out, with what ends a
    // text. Total: refuses 2, then 8 under 8 places, and then leaves record and places.
    #[tactic(auto, using(utf8_lossy::proofs::Room::finish_chars_lem), unfolding(crate::specs::Clean::finish_of))]
    pub fn finish(self, page: &[u32], options: Options, eof: bool, out: &mut [u8]) -> Cleaned
        ensures { outcome result out.new ≡ finish_of self page.now options eof out.old }
    {
        if !is_accepted(page) {
            return Cleaned {
                answer: Err(Refusal::WrongPage),
                next: self,
            };
        }
        if out.len() < 8 {
            return Cleaned {
                answer: Err(Refusal::NoRoom),
                next: self,
            };
        }
        let sofar = tally_replaced(Tally::default(), self.pending.len());
        let taken = take_out(
            self.text,
            page,
            options,
            false,
            self.pending.finish(),
            out,
            0,
            sofar,
        );
        let closed = taken.text.close(eof, out, taken.at, taken.tally);
        Cleaned {
            answer: Ok(count_all(closed.at, closed.tally)),
            next: Cleaner {
                pending: Pending::Nothing,
                text: closed.text,
            },
        }
    }
}

// Whether so many places are fewer than n bytes need. No sum can wrap.
fn is_short(n: usize, room: usize) -> bool
    ensures { result ≡ is_short n room }
{
    n != 0 && (room < 13 || (room - 13) / 3 < n)
}
