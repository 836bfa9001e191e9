// What lasts from line to line, and the way from a line to what answers it: here for `P`, the crate `replay_streams` for `S` and `F`,
// the crate `replay_writer` for `W`, and the crate `replay_leaves` for all else.
use crate::input::Line;
use arrayvec::ArrayVec;
use replay_streams::filling;
use replay_streams::scanner::Scanner;
use replay_words::NUMBERS;
use replay_words::answers::Answers;
use replay_words::buffers::Buffers;
use replay_words::why::Why;
use replay_words::words::Words;
use replay_writer::Writer;

#[derive(Drop)]
pub struct Session {
    // The current page.
    page: ArrayVec<u32, NUMBERS>,
    // The current scanner.
    scanner: Scanner,
    // The current writer.
    writer: Writer,
}

impl Session {
    pub fn new() -> Self {
        let mut page = ArrayVec::new();
        // No nonstarters, and 0 to 377 assigned.
        let _ = page.try_extend_from_slice(&[0, 1, 0, 0x377]);
        Session {
            page,
            scanner: Scanner::new(),
            writer: Writer::new(),
        }
    }

    // Answers a line, of which an empty one and a comment get no answer.
    pub fn answer(&mut self, line: &Line, lent: Buffers, out: &mut Answers) {
        let bytes = line.as_slice();
        if bytes.is_empty() || bytes.starts_with(b"#") {
            return;
        }
        let answered = if line.is_long() {
            Err(Why::Long)
        } else {
            self.operate(Words::of(bytes), lent, out)
        };
        if let Err(why) = answered {
            out.line(why);
        }
    }

    // Answers an operation.
    fn operate(&mut self, words: Words, lent: Buffers, out: &mut Answers) -> Result<(), Why> {
        let page = self.page.as_slice();
        let mut others = words;
        match others.next() {
            Some(b"P") => self.turn_to(others, lent, out),
            Some(b"S") => self.scanner.operate(others, page, lent, out),
            Some(b"F") => filling::fill(others, lent, out),
            Some(b"W") => self.writer.operate(others, page, lent, out),
            _ => replay_leaves::operate(words, page, lent, out),
        }
    }

    // `P n n n ..`: the current page, right or wrong.
    fn turn_to(&mut self, words: Words, lent: Buffers, out: &mut Answers) -> Result<(), Why> {
        let numbers = words.numbers(lent.numbers)?;
        self.page.clear();
        // A page has room for all numbers of a line.
        let _ = self.page.try_extend_from_slice(numbers);
        let is_accepted = page::is_accepted(numbers);
        out.line(format_args!("page {}", u8::from(is_accepted)));
        Ok(())
    }
}
