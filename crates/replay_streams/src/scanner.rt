// The operations `S ..`: calls on the current scanner.
use basic_text_numbers::state_number;
use replay_leaves::stored;
use replay_words::answers::Answers;
use replay_words::buffers::Buffers;
use replay_words::places::blank;
use replay_words::stored::Stored;
use replay_words::why::Why;
use replay_words::words::Words;
use std::fmt;
use std::fmt::Display;
use text_input::{Options, Scanned, TextInput};
use text_input_price::{ask, commit};

// A scanner's record in an answer.
#[derive(Clone, Copy)]
struct Record(TextInput);

impl Display for Record {
    fn fmt<W: fmt::Write>(&self, f: &mut fmt::Formatter<W>) -> fmt::Result {
        let record = self.0;
        let is_end = text_utils::is_basic_text_end(record.last);
        write!(
            f,
            "st={} es={} bom={} end={} cnt={:x}",
            state_number(record.state),
            u8::from(record.expect_starter),
            u8::from(record.at_start),
            u8::from(is_end),
            record.count,
        )
    }
}

// The options by their number.
fn options_of(number: u32) -> Result<Options, Why> {
    if number > 7 {
        return Err(Why::Options);
    }
    Ok(Options {
        nel_compatibility: number & 1 != 0,
        lsps_compatibility: number & 2 != 0,
        units_compatibility: number & 4 != 0,
    })
}

// The current scanner.
#[derive(Clone, Copy)]
pub struct Scanner {
    record: TextInput,
}

impl Scanner {
    pub fn new() -> Self {
        Scanner {
            record: TextInput::new(),
        }
    }

    // Answers a line that begins with S, by the words after it.
    pub fn operate(
        &mut self,
        mut words: Words,
        page: &[u32],
        lent: Buffers,
        out: &mut Answers,
    ) -> Result<(), Why> {
        match words.next() {
            Some(b"new") => self.renew(words, out),
            Some(b"count") => self.count(words, out),
            Some(b"ask") => self.ask(words, page, lent, out),
            Some(b"scan") => self.take(words, page, lent, out, TextInput::scan),
            Some(b"commit") => self.take(words, page, lent, out, commit),
            Some(b"fin") => self.finish(words, lent, out),
            _ => Err(Why::Word),
        }
    }

    // `S new`
    fn renew(&mut self, words: Words, out: &mut Answers) -> Result<(), Why> {
        words.end(Why::Word)?;
        *self = Scanner::new();
        let record = Record(self.record);
        out.line(format_args!("new | {record}"));
        Ok(())
    }

    // `S count N`
    fn count(&mut self, words: Words, out: &mut Answers) -> Result<(), Why> {
        self.record.count = words.one_number()?;
        let record = Record(self.record);
        out.line(format_args!("count | {record}"));
        Ok(())
    }

    // `S ask OPT c c ..`, which leaves the record.
    fn ask(&self, words: Words, page: &[u32], lent: Buffers, out: &mut Answers) -> Result<(), Why> {
        let [options, chunk @ ..] = words.numbers(lent.numbers)? else {
            return Err(Why::Number);
        };
        let price = ask(self.record, page, options_of(*options)?, chunk);
        let record = Record(self.record);
        match stored(price) {
            Ok(n) => out.line(format_args!("ok n={n:x} | {record}")),
            Err(refused) => out.line(format_args!("{refused} | {record}")),
        }
        Ok(())
    }

    // `S scan OPT ROOM c c ..` and `S commit OPT ROOM c c ..`
    fn take<F>(
        &mut self,
        words: Words,
        page: &[u32],
        lent: Buffers,
        out: &mut Answers,
        call: F,
    ) -> Result<(), Why>
    where
        F: FnOnce(TextInput, &[u32], Options, &[u32], &mut [u32]) -> Scanned,
        requires { F.IsAlwaysCallable call }
    {
        let Buffers {
            numbers,
            places,
            ..
        } = lent;
        let [options, size, chunk @ ..] = words.numbers(numbers)? else {
            return Err(Why::Number);
        };
        let options = options_of(*options)?;
        let places = blank(places, *size)?;
        let scanned = call(self.record, page, options, chunk, places);
        self.came(scanned, places, out);
        Ok(())
    }

    // `S fin p ROOM` and `S fin e ROOM`
    fn finish(&mut self, mut words: Words, lent: Buffers, out: &mut Answers) -> Result<(), Why> {
        let eof = match words.next() {
            Some(b"p") => false,
            Some(b"e") => true,
            _ => return Err(Why::Word),
        };
        let places = blank(lent.places, words.one_number()?)?;
        let scanned = self.record.finish(eof, places);
        self.came(scanned, places, out);
        Ok(())
    }

    // What a call answered that was lent these places, and the record after it.
    fn came(&mut self, scanned: Scanned, places: &[u32], out: &mut Answers) {
        self.record = scanned.next;
        let outcome = stored(scanned.answer);
        let record = Record(self.record);
        out.line(format_args!("{} | {record}", Stored { places, outcome }));
    }
}
