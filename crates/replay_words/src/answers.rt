// The answers that wait to be written.
use arrayvec::ArrayVec;
use std::fmt;
use std::fmt::{Display, Write};

// The descriptor of standard output.
const STANDARD_OUTPUT: i32 = 1;

// How many bytes wait at most.
const WAITING: usize = 65536;

// What does not fit any more is written out, so there is room for any answer. A write that fails is not told: what is missing shows
// when the answers are compared.
#[derive(Drop)]
pub struct Answers {
    waiting: ArrayVec<u8, WAITING>,
}

impl Answers {
    pub fn new() -> Self {
        Answers {
            waiting: ArrayVec::new(),
        }
    }

    // An answer and its line's end.
    pub fn line<D: Display + Drop>(&mut self, answer: D) {
        // `write_str` takes any text.
        let _ = writeln!(self, "{answer}");
    }

    // Writes out what waits.
    pub fn flush(&mut self) {
        io::write_all(STANDARD_OUTPUT, self.waiting.as_slice());
        self.waiting.clear();
    }
}

impl Write for Answers {
    fn write_str(&mut self, text: &str) -> fmt::Result {
        let bytes = text.as_bytes();
        if self.waiting.remaining_capacity() < bytes.len() {
            self.flush();
        }
        if self.waiting.try_extend_from_slice(bytes).is_err() {
            // More than can wait at all.
            io::write_all(STANDARD_OUTPUT, bytes);
        }
        Ok(())
    }
}
