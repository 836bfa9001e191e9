// Reading, cleaning and writing, block by block, in constant memory.
use crate::arguments::Wish;
use crate::failure::Failure;
use crate::messages;
use crate::place::{Begun, Fault, Spot, has_fault, plus};
use crate::progress::Progress;
use crate::ways::Ways;
use command_bytes::counts::starts;
use command_bytes::front::up_to;
use common::Refusal;
use std::io::{Read, Write};
use text_clean::{Cleaner, Counts};

// How many bytes are read at a time, and the room for what is cleaned of them. Both are arrays: the command has no heap.
const BLOCK: usize = 65536;

const ROOM: usize = 3 * 65536 + 13;

// What was done so far.
#[derive(Clone, Copy, Debug, Default, PartialEq, Eq, Hash)]
pub struct Sums {
    pub bytes_read: u64,
    pub chars_read: u64,
    pub bytes_written: u64,
    pub chars_written: u64,
    pub replaced: u64,
    pub dropped: u64,
    pub lost: u64,
}

impl Sums {
    // Adds the counts of one call.
    fn add(&mut self, counts: Counts, bytes: usize, chars: usize) {
        self.bytes_read = plus(self.bytes_read, bytes);
        self.chars_read = plus(self.chars_read, counts.read);
        self.bytes_written = plus(self.bytes_written, counts.written);
        self.chars_written = plus(self.chars_written, chars);
        self.replaced = plus(self.replaced, counts.replaced);
        self.dropped = plus(self.dropped, counts.dropped);
        self.lost = plus(self.lost, counts.lost);
    }
}

// A clean, as far as it is.
#[derive(Drop)]
struct Flow<'a> {
    ways: Ways<'a>,
    page: &'a [u32],
    wish: Wish,
    progress: Option<Progress>,
    cleaner: Cleaner,
    // How far the input is read, for `--strict` and the summary.
    spot: Spot,
    sums: Sums,
    // The first bytes that are no UTF-8, for the summary.
    first: Option<Fault>,
}

impl<'a> Flow<'a> {
    fn new(ways: Ways<'a>, page: &'a [u32], wish: Wish, progress: Option<Progress>) -> Self {
        Flow {
            ways,
            page,
            wish,
            progress,
            cleaner: Cleaner::new(),
            spot: Spot::default(),
            sums: Sums::default(),
            first: None,
        }
    }

    // Ends the line of the progress: a message has one of its own.
    fn end_line(&self) {
        if let Some(progress) = self.progress {
            progress.end_line();
        }
    }

    fn refused(&self, why: Refusal) -> Failure {
        self.end_line();
        self.ways.input.refused(why)
    }

    // `--strict` stops at a fault.
    fn stopped(&self, fault: Fault) -> Failure {
        self.end_line();
        self.ways.input.stopped(fault, self.wish.lines)
    }

    // Writes what a call wrote to out, and counts it.
    fn put(&mut self, out: &[u8], counts: Counts, bytes: usize) -> Result<(), Failure> {
        let written = up_to(out, counts.written);
        if let Err(why) = self.ways.to.write_all(written) {
            self.end_line();
            return Err(self.ways.output.failed(&why));
        }
        let chars = if self.wish.summary {
            starts(written)
        } else {
            0
        };
        self.sums.add(counts, bytes, chars);
        Ok(())
    }

    // Cleans a block of bytes that came, and writes it, unless `--strict` stops at it.
    fn block(&mut self, bytes: &[u8], out: &mut [u8]) -> Result<(), Failure> {
        let begun = Begun {
            cleaner: self.cleaner,
            page: self.page,
            options: self.wish.options(),
            lines: self.wish.lines,
            spot: self.spot,
        };
        let (next, counts) = begun.clean(bytes, out);
        let counts = counts.map_err(|why| self.refused(why))?;
        self.cleaner = next;
        if self.wish.strict && has_fault(counts, true) {
            return Err(self.stopped(begun.first(true, bytes, out)));
        }
        self.put(out, counts, bytes.len())?;
        if self.wish.is_placed() {
            if self.first.is_none() && has_fault(counts, false) {
                self.first = Some(begun.first(false, bytes, out));
            }
            self.spot = self.spot.after(bytes);
        }
        Ok(())
    }

    // The input ended: bytes that are pending are no UTF-8.
    fn last(&mut self, out: &mut [u8]) -> Result<(), Failure> {
        let done = self
            .cleaner
            .finish(self.page, self.wish.options(), true, out);
        let counts = done.answer.map_err(|why| self.refused(why))?;
        if 0 < counts.replaced {
            let fault = Fault::no_utf_8(self.spot, counts.replaced);
            if self.wish.strict {
                return Err(self.stopped(fault));
            }
            self.first = self.first.or(Some(fault));
        }
        if self.wish.strict && 0 < counts.lost {
            return Err(self.stopped(Fault::lost(self.spot)));
        }
        self.put(out, counts, 0)
    }

    // Reads once, cleans what came, and writes it. Answers whether the input goes on.
    fn turn(&mut self, block: &mut [u8], out: &mut [u8]) -> Result<bool, Failure> {
        match self.ways.from.read(block) {
            Ok(0) => {
                self.last(out)?;
                Ok(false)
            }
            Ok(n) => {
                self.block(&block[..n], out)?;
                Ok(true)
            }
            Err(why) => {
                self.end_line();
                Err(self.ways.input.failed(&why))
            }
        }
    }

    // Reads to the end. A proved loop has to end, and nothing says that the input does: so the turns are up to a number that no
    // run reaches.
    fn all(&mut self, system: Option<HostRuntime>) -> Result<(), Failure> {
        let mut block = [0; BLOCK];
        let mut out = [0; ROOM];
        for _ in 0..u64::MAX {
            if !self.turn(&mut block, &mut out)? {
                return Ok(());
            }
            if let Some(progress) = &mut self.progress {
                progress.show_each_second(system, self.sums.bytes_read);
            }
        }
        Err(Failure::Failed)
    }

    // Says what is to be said at the end.
    fn say_end(&self, system: Option<HostRuntime>, ended: Result<(), Failure>) {
        if ended.is_ok() {
            if let Some(progress) = self.progress {
                progress.end(system, self.sums.bytes_read);
            }
            if self.wish.summary {
                messages::summary(self.ways.input.errors, self.sums, self.first);
            }
        }
        if ended != Err(Failure::Strict) {
            self.ways.input.warning(self.sums.lost, self.wish.lines);
        }
    }
}

// Cleans an open input to an open output, to its end, and closes both; with -o the output has reached its device then. The progress is
// shown by the system's clock, where there is one.
pub fn clean(
    system: Option<HostRuntime>,
    mut ways: Ways<'_>,
    page: &[u32],
    wish: Wish,
) -> Result<(), Failure> {
    let about = ways.input;
    let progress = if wish.progress {
        let begun = Progress::begin(system, about.errors, &mut ways.from);
        Some(begun.map_err(|why| about.failed(&why))?)
    } else {
        None
    };
    let mut flow = Flow::new(ways, page, wish, progress);
    let ended = flow.all(system);
    flow.say_end(system, ended);
    ended?;
    let about = flow.ways.output;
    flow.ways.to.settle().map_err(|why| about.failed(&why))
}
