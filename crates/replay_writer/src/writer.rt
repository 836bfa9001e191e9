// The current writer.
use crate::outcomes::{Failure, done, handed_out};
use crate::places::is_same;
use basic_text_numbers::writer_state_number;
use replay_words::answers::Answers;
use replay_words::buffers::Buffers;
use replay_words::listed::List;
use replay_words::places::{Place, front, room};
use replay_words::stored::Clean;
use replay_words::why::Why;
use replay_words::words::Words;
use replay_words::{PLACES, words};
use std::fmt;
use std::fmt::Display;
use text_output::TextOutput;
use text_output_lent::{abandon_by_loan, close_by_loan, flush_by_loan};
use text_output_write::write_str;

// A writer's record in an answer.
#[derive(Clone, Copy)]
struct Record(TextOutput);

impl Display for Record {
    fn fmt<W: fmt::Write>(&self, f: &mut fmt::Formatter<W>) -> fmt::Result {
        let record = self.0;
        write!(
            f,
            "st={} es={} kept={:x} held={:x}",
            writer_state_number(record.state),
            u8::from(record.expect_starter),
            record.kept,
            record.held,
        )
    }
}

// How many bytes a write of bytes took, in front of what it hands out: `used=BYTES `. A write of characters tells nothing.
#[derive(Clone, Copy)]
struct Used(Option<usize>);

impl Display for Used {
    fn fmt<W: fmt::Write>(&self, f: &mut fmt::Formatter<W>) -> fmt::Result {
        match self.0 {
            Some(bytes) => write!(f, "used={bytes:x} "),
            None => Ok(()),
        }
    }
}

#[derive(Clone, Copy)]
pub struct Writer {
    record: TextOutput,
    // The true number of held characters, where the record claims another.
    held: Option<usize>,
    // Those lent to a write are the first of them, and the characters that the record keeps stand there.
    places: [u32; PLACES],
}

impl Writer {
    // The writer of the start.
    pub fn new() -> Self {
        Writer {
            record: TextOutput::new(),
            held: None,
            places: [u32::BLANK; PLACES],
        }
    }

    // Answers a line that begins with W, by the words after it.
    pub fn operate(
        &mut self,
        mut words: Words,
        page: &[u32],
        lent: Buffers,
        out: &mut Answers,
    ) -> Result<(), Why> {
        match words.next() {
            Some(b"new") => self.open(words, out),
            Some(b"chars") => self.write_chars(words, page, lent, out),
            Some(b"bytes") => self.write_bytes(words, page, lent, out),
            Some(b"flush") => self.flush(words, out),
            Some(b"close") => self.close(words, out),
            Some(b"abandon") => self.abandon(words, out),
            Some(b"held") => self.hold(words, out),
            Some(b"places") => self.list(words, out),
            _ => Err(Why::Word),
        }
    }

    // `W new plain`, `W new crlf`, `W new color` and `W new bom`: a writer as first made, and blank places.
    fn open(&mut self, mut words: Words, out: &mut Answers) -> Result<(), Why> {
        let mut handed_out = None;
        let record = match words.next() {
            Some(b"plain") => TextOutput::new(),
            Some(b"crlf") => TextOutput::with_crlf_compatibility(),
            Some(b"color") => TextOutput::with_ansi_color(),
            Some(b"bom") => {
                let opened = TextOutput::with_bom_compatibility();
                handed_out = Some(opened.bom);
                opened.writer
            }
            _ => return Err(Why::Word),
        };
        words.end(Why::Word)?;
        self.record = record;
        self.held = None;
        self.places.fill(u32::BLANK);
        let list = List(handed_out.as_slice());
        let record = Record(record);
        out.line(format_args!("ok out={list} | {record}"));
        Ok(())
    }

    // `W chars ROOM c c ..`
    fn write_chars(
        &mut self,
        words: Words,
        page: &[u32],
        lent: Buffers,
        out: &mut Answers,
    ) -> Result<(), Why> {
        let Buffers {
            numbers,
            places,
            ..
        } = lent;
        let [size, chars @ ..] = words.numbers(numbers)? else {
            return Err(Why::Number);
        };
        let room = room(*size)?;
        let before = &mut places[..room];
        before.copy_from_slice(&self.places[..room]);
        let written = write_str(self.record, page, chars, &mut self.places[..room]);
        self.record = written.next;
        self.came(handed_out(written.answer), None, room, before, out);
        Ok(())
    }

    // `W bytes ROOM b b ..`
    fn write_bytes(
        &mut self,
        words: Words,
        page: &[u32],
        lent: Buffers,
        out: &mut Answers,
    ) -> Result<(), Why> {
        let Buffers {
            numbers,
            places,
            bytes,
        } = lent;
        let [size, numbers @ ..] = words.numbers(numbers)? else {
            return Err(Why::Number);
        };
        let bytes = words::bytes(numbers, bytes)?;
        let room = room(*size)?;
        let before = &mut places[..room];
        before.copy_from_slice(&self.places[..room]);
        let record = self.record;
        let written = text_output_write::write(record, page, bytes, &mut self.places[..room]);
        self.record = written.next;
        let used = Some(written.used);
        self.came(handed_out(written.answer), used, room, before, out);
        Ok(())
    }

    // What a write answered that was lent the first room places, which were as in the copy before it.
    fn came(
        &self,
        outcome: Result<usize, Failure>,
        used: Option<usize>,
        room: usize,
        before: &[u32],
        out: &mut Answers,
    ) {
        let lent = front(&self.places, room);
        let kept = self.record.kept;
        let record = Record(self.record);
        match outcome {
            Ok(n) => {
                let clean = Clean(is_same(lent, before, n));
                let list = List(front(lent, n));
                let used = Used(used);
                out.line(format_args!("ok {used}k={n:x} out={list} {clean} | {record}"));
            }
            Err(failure) => {
                let clean = Clean(is_same(lent, before, failure.first_left(kept)));
                let list = List(front(&self.places, kept));
                out.line(format_args!("{failure} buf={list} {clean} | {record}"));
            }
        }
    }

    // `W flush`
    fn flush(&mut self, words: Words, out: &mut Answers) -> Result<(), Why> {
        words.end(Why::Word)?;
        let flushed = flush_by_loan(self.record);
        self.record = flushed.next;
        self.ended(done(flushed.answer), out);
        Ok(())
    }

    // `W close`
    fn close(&mut self, words: Words, out: &mut Answers) -> Result<(), Why> {
        words.end(Why::Word)?;
        let closed = close_by_loan(self.record);
        self.record = closed.next;
        self.ended(done(closed.answer), out);
        Ok(())
    }

    // `W abandon`, which ends a claim.
    fn abandon(&mut self, words: Words, out: &mut Answers) -> Result<(), Why> {
        words.end(Why::Word)?;
        self.record = abandon_by_loan(self.record);
        self.held = None;
        self.ended(Ok(()), out);
        Ok(())
    }

    // What a call answered that is lent no places, so that all are as they were.
    fn ended(&self, outcome: Result<(), Failure>, out: &mut Answers) {
        let list = List(front(&self.places, self.record.kept));
        let record = Record(self.record);
        match outcome {
            Ok(()) => out.line(format_args!("ok buf={list} clean | {record}")),
            Err(failure) => out.line(format_args!("{failure} buf={list} clean | {record}")),
        }
    }

    // `W held N` and `W held -`: the record claims a number of held characters that its state can't have, or has the true one again.
    fn hold(&mut self, words: Words, out: &mut Answers) -> Result<(), Why> {
        let mut others = words;
        if let Some(b"-") = others.next() {
            others.end(Why::Number)?;
            if let Some(held) = self.held.take() {
                self.record.held = held;
            }
        } else {
            let mut claiming = self.record;
            claiming.held = words.one_number()? as usize;
            if claiming.is_sound() {
                return Err(Why::Held);
            }
            if self.held.is_none() {
                self.held = Some(self.record.held);
            }
            self.record = claiming;
        }
        let record = Record(self.record);
        out.line(format_args!("held | {record}"));
        Ok(())
    }

    // `W places N`. The record is not told.
    fn list(&self, words: Words, out: &mut Answers) -> Result<(), Why> {
        let room = room(words.one_number()?)?;
        let list = List(front(&self.places, room));
        out.line(format_args!("places {list}"));
        Ok(())
    }
}
