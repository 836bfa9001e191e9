// The scanner: ports text_input.rs. A chunk of characters comes in and its cleaned characters go to the queue (`scan`), and a stream
// ends or is pushed (`finish`). The queue is a lent slice: each call writes from its first place on. The record is a value: each call
// takes one and answers the one after it. A chunk goes by stretches that are copied (crate `stretch`), and by a step for any other
// character. Filling bytes from the queue is the crate `text_input_fill`; asking how many places a chunk fills, and committing it into them,
// is the crate `text_input_price`.
// What needs no record, sets of characters, what is appended and its stores, and refusals, is the crate `text_input_parts`.
//     step.rt    one character in one state: `process_raw_string` without its loop
#![tactic(auto)]

pub mod step;

ghost use Rattle.std.specs.Prelude.{◌≡◌, true, ◌+◌, ◌≤◌, ◌<◌, length, drop};
ghost use Rattle.std.proofs.lemmas.List.Edits.{sets};
ghost use Rattle.page.specs.Page.{accepted};
ghost use Rattle.stretch.specs.Plain.{Gap};
ghost use Rattle.text_input_parts.specs.Appended.{stored_if, limit_of};
ghost use Rattle.text_input_parts.specs.Refusals.{max_count};
ghost use Rattle.text_input.specs.Step.{scan_step_of, out_chars};
ghost use Rattle.text_input.specs.Scan.{fresh, all_off, step_effect, run_of, skipped, opened, outcome, scan_of, pending_of, after_line, finish_chars, finish_next, finish_of};
ghost use Rattle.text_input.specs.Inner.{outs, grounded, steady, passed_by, ran_by, Moves, ending_chars};

use common::Refusal;
use page::is_accepted;
use ranges::Range;
use scalars::{BOM, are_chars};
use stretch::{ascii_or, first_gap, is_sought, next_gap, plain_end, put_run};
use text_input_parts::queue::{end_mark, last_lead, owed_newline, put_if, put_three};
use text_input_parts::refusals;
use text_input_parts::refusals::refusal;

// What the characters so far leave open. `Ground`: nothing; its flag is true after a newline, and before the first character.
#[derive(Clone, Copy, Debug, PartialEq, Eq)]
pub enum State {
    Ground(bool),
    // After 0D.
    Cr,
    // After 0C.
    Ff,
    // After ESC.
    Esc,
    // Just after ESC `[`.
    CsiStart,
    // In a sequence begun by ESC `[`.
    Csi,
    // In a string begun by ESC `]`.
    Osc,
    // After ESC `[` `[`.
    Linux,
}

// Which characters end a line beside 0A and 0D: 85; 2028 and 2029. And "a scanner option under which replacement turns U+2126 into
// U+03A9, U+212A into U+004B and U+212B into U+00C5".
#[derive(Clone, Copy, Debug, PartialEq, Eq, Default)]
pub struct Options {
    pub nel_compatibility: bool,
    pub lsps_compatibility: bool,
    pub units_compatibility: bool,
}

// The scanner's record. The options, which the Rust keeps here, come with each call.
#[derive(Clone, Copy, Debug, PartialEq, Eq)]
pub struct TextInput {
    pub state: State,
    // A start is expected: in a fresh record, and after a finish.
    pub expect_starter: bool,
    // No chunk has been accepted, so that a leading FEFF is dropped.
    pub at_start: bool,
    // The last character ever appended. Before the first it is 0A, which is an end.
    pub last: u32,
    // The characters taken, a dropped FEFF included.
    pub count: u32,
}

// A call's answer, and the record after it.
#[derive(Clone, Copy, Debug, PartialEq, Eq)]
pub struct Scanned {
    pub answer: Result<usize, Refusal>,
    pub next: TextInput,
}

// How far a chunk is taken and the queue is written, the record, and the gap of plain characters to look in next.
#[derive(Clone, Copy)]
struct Moved {
    at: usize,
    written: usize,
    next: TextInput,
    gap: Range,
}

// What a finish appends, one after the other, and the record after it.
#[derive(Clone, Copy, Debug, PartialEq, Eq)]
pub struct Ending {
    pub lead: Option<u32>,
    pub mark: Option<u32>,
    pub newline: Option<u32>,
    pub next: TextInput,
}

// How far the queue is written, and the record.
#[derive(Clone, Copy, Debug, PartialEq, Eq)]
pub struct Ran {
    pub written: usize,
    pub next: TextInput,
}

impl TextInput {
    // The least size of a byte buffer to fill, which `text_input_fill` tests: 136.
    pub const NORMALIZATION_BUFFER_SIZE: usize = scalars::NORMALIZATION_BUFFER_SIZE;

    // The most characters that the count holds.
    pub const MAX_COUNT: usize = refusals::MAX_COUNT;

    // A record as first made.
    pub fn new() -> Self
        ensures { result ≡ fresh }
    {
        Self {
            state: State::Ground(true),
            expect_starter: true,
            at_start: true,
            last: 0xa,
            count: 0,
        }
    }

    // One character, and its output from a place on. Inner: asks for an accepted page and for room.
    fn turn(
        self,
        page: &[u32],
        options: Options,
        c: u32,
        stores: bool,
        queue: &mut [u32],
        at: usize,
    ) -> Ran
        requires page_value { accepted page.now ≡ true }
        requires c_bound { at + length (out_chars (scan_step_of page.now options self c)) ≤ limit_of stores queue.old }
        ensures ran { result ≡ ran_by at (step_effect (scan_step_of page.now options self c)) }
        ensures places { queue.new ≡ stored_if stores queue.old at (out_chars (scan_step_of page.now options self c)) }
    {
        let step = self.step(page, options, c);
        Ran {
            written: put_if(stores, queue, at, step.lead, step.image),
            next: step.next,
        }
    }

    // Whether plain characters are appended as they come: nothing is pending, and no start is expected.
    fn is_steady(self) -> bool
        ensures { result ≡ steady self }
    {
        is_ground(self.state) & !self.expect_starter
    }

    // The record after characters that were appended as they came, by the last of them.
    fn passed(self, c: u32) -> Self
        ensures { result ≡ passed_by self c }
    {
        Self {
            state: State::Ground(c == 0xa),
            expect_starter: false,
            last: c,
            ..self
        }
    }

    // One character or more of the chunk from place i on, and their output from place k on: a stretch that is copied, or one step. Inner:
    // asks for an accepted page, for a character at i, for a gap, and for room for all that is left.
    fn advance(
        self,
        page: &[u32],
        options: Options,
        chunk: &[u32],
        i: usize,
        gap: Range,
        stores: bool,
        queue: &mut [u32],
        k: usize,
    ) -> Moved
        requires page { accepted page.now ≡ true }
        requires more { i < length chunk.now }
        requires gap { Gap gap }
        requires room { k + length (outs page.now options self (drop i chunk.now)) ≤ limit_of stores queue.old }
        ensures { Moves page.now options self chunk.now i stores queue.old k result queue.new }
    {
        let c = chunk[i];
        if self.is_steady() & is_sought(ascii_or(gap), c) {
            let end = plain_end(chunk, i + 1, gap);
            put_run_if(stores, &chunk[i..end], queue, k);
            Moved {
                at: end,
                written: k + (end - i),
                next: self.passed(chunk[end - 1]),
                gap,
            }
        } else {
            let turned = self.turn(page, options, c, stores, queue, k);
            Moved {
                at: i + 1,
                written: turned.written,
                next: turned.next,
                gap: gap_after(gap, c),
            }
        }
    }

    // A run of characters, stored from the first place on, or its places counted and nothing stored: one loop for both, so that a step
    // is called from one place and can be part of it. Inner: asks for an accepted page and for room. What is left of the run, from the
    // record r on, goes to the places from k on.
    fn go(
        self,
        page: &[u32],
        options: Options,
        chunk: &[u32],
        stores: bool,
        queue: &mut [u32],
    ) -> Ran
        requires page_value { accepted page.now ≡ true }
        requires chunk_len_bound { length (outs page.now options self chunk.now) ≤ limit_of stores queue.old }
        ensures ran { result ≡ ran_by 0 (run_of page.now options self chunk.now) }
        ensures places { queue.new ≡ stored_if stores queue.old 0 (outs page.now options self chunk.now) }
    {
        let mut moved = Moved {
            at: 0,
            written: 0,
            next: self,
            gap: first_gap(),
        };
        // No `for`: each turn takes as many characters as it answers.
        while moved.at < chunk.len() {
            moved = moved.next.advance(
                page,
                options,
                chunk,
                moved.at,
                moved.gap,
                stores,
                queue,
                moved.written,
            );
        }
        Ran {
            written: moved.written,
            next: moved.next,
        }
    }

    // A run of characters, stored from the first place on. Inner: asks for an accepted page and for room.
    pub fn run(self, page: &[u32], options: Options, chunk: &[u32], queue: &mut [u32]) -> Ran
        requires page_value { accepted page.now ≡ true }
        requires chunk_in_bounds { length (outs page.now options self chunk.now) ≤ length queue.old }
        ensures ran { result ≡ ran_by 0 (run_of page.now options self chunk.now) }
        ensures places { queue.new ≡ sets queue.old 0 (outs page.now options self chunk.now) }
    {
        self.go(page, options, chunk, true, queue)
    }

    // How many places a run of characters fills; nothing is stored. Inner: asks for an accepted page, and for no more characters than the
    // count can hold, so that the sum cannot wrap.
    pub fn run_places(self, page: &[u32], options: Options, chunk: &[u32]) -> usize
        requires page_value { accepted page.now ≡ true }
        requires chunk_len_bound { length chunk.now ≤ max_count }
        ensures { result ≡ length (outs page.now options self chunk.now) }
    {
        self.go(page, options, chunk, false, &mut []).written
    }

    // How many characters of the chunk are dropped: a leading FEFF, where no chunk was accepted before. Inner; total.
    pub fn skips(self, chunk: &[u32]) -> usize
        ensures { result ≡ skipped self chunk.now }
    {
        if self.at_start && matches!(chunk, [BOM, ..]) {
            1
        } else {
            0
        }
    }

    // The record of an accepted scan of n characters, before the first of them. Inner: asks that the count stays within its limit.
    pub fn open(self, n: u32) -> Self
        requires { self.count + n ≤ max_count }
        ensures { result ≡ opened self n }
    {
        Self {
            at_start: false,
            count: self.count + n,
            ..self
        }
    }

    // Takes a chunk: cleans it into the first places of the queue, and answers how many. Total: refuses 2, 1, 10, 8, in this order,
    // and then leaves record and places.
    pub fn scan(self, page: &[u32], options: Options, chunk: &[u32], queue: &mut [u32]) -> Scanned
        ensures { outcome result queue.new ≡ scan_of self page.now options chunk.now queue.old }
    {
        if let Err(why) = refusal(
            self.count,
            is_accepted(page),
            are_chars(chunk),
            chunk.len(),
            queue.len(),
        ) {
            return Scanned {
                answer: Err(why),
                next: self,
            };
        }
        let from = self.skips(chunk);
        let r = self.open(chunk.len() as u32);
        let ran = r.run(page, options, &chunk[from..chunk.len()], queue);
        Scanned {
            answer: Ok(ran.written),
            next: ran.next,
        }
    }

    // What is pending, 34F after a last character that is no end, and the newline that is owed, with the record after them. Inner;
    // total.
    pub fn ending(self, eof: bool) -> Ending
        ensures chars { ending_chars result ≡ finish_chars self eof }
        ensures next { result.next ≡ finish_next self eof }
    {
        let line = after_line(self.state);
        let lead = pending(self.state);
        let last = last_lead(self.last, lead);
        let mark = end_mark(last);
        let newline = owed_newline(eof & !line);
        Ending {
            lead,
            mark,
            newline,
            next: Self {
                state: State::Ground(eof | line),
                expect_starter: true,
                last: last_lead(last_lead(last, mark), newline),
                ..self
            },
        }
    }

    // The stream is pushed, or it ends: what is pending goes to the first places of the queue, with what ends a text. Total: refuses
    // 8 under two places, and then leaves record and places.
    pub fn finish(self, eof: bool, queue: &mut [u32]) -> Scanned
        ensures { outcome result queue.new ≡ finish_of self eof queue.old }
    {
        if queue.len() < 2 {
            return Scanned {
                answer: Err(Refusal::NoRoom),
                next: self,
            };
        }
        let ending = self.ending(eof);
        let lead = ending.lead;
        let mark = ending.mark;
        let newline = ending.newline;
        let written = put_three(queue, lead, mark, newline);
        let next = ending.next;
        Scanned {
            answer: Ok(written),
            next,
        }
    }
}

// The gap to look in next, after a step of c. The test stands here too, so that most steps make no call. Inner: asks for a gap.
fn gap_after(gap: Range, c: u32) -> Range
    requires { Gap gap }
    ensures { Gap result }
{
    if (c < 0xa0) | (0x2f7ff < c) {
        gap
    } else {
        next_gap(gap, c)
    }
}

// A run of characters from a place on, stored or not. Inner: asks for room.
fn put_run_if(stores: bool, run: &[u32], queue: &mut [u32], at: usize)
    requires { at + length run.now ≤ limit_of stores queue.old }
    ensures { queue.new ≡ stored_if stores queue.old at run.now }
{
    if stores {
        put_run(run, queue, at);
    }
}

// Whether nothing is pending. Inner; total.
pub fn is_ground(state: State) -> bool
    ensures { result ≡ grounded state }
{
    matches!(state, State::Ground(_))
}

// What is pending gives this at a finish.
fn pending(state: State) -> Option<u32>
    ensures { result ≡ pending_of state }
{
    match state {
        State::Cr => Some(0xa),
        State::Ff => Some(0x20),
        _ => None,
    }
}

// Whether no newline is owed: the last piece is a line end, or none came since the last newline that a finish added.
fn after_line(state: State) -> bool
    ensures { result ≡ after_line state }
{
    match state {
        State::Ground(line) => line,
        State::Cr => true,
        _ => false,
    }
}
