// Where in the input something stands. A line ends with 0A.
use command_bytes::counts::{newlines, since_newline};
use common::Refusal;
use std::fmt;
use text_clean::{Cleaner, Counts};
use text_input::Options;

// A sum of 64 bits: no run reaches its end.
pub fn plus(a: u64, b: usize) -> u64 {
    a.wrapping_add(b as u64)
}

fn minus(a: u64, b: usize) -> u64 {
    a.wrapping_sub(b as u64)
}

// How far the input is read.
#[derive(Clone, Copy, Debug, Default, PartialEq, Eq, Hash)]
pub struct Spot {
    // Bytes before.
    pub offset: u64,
    // 0A bytes before.
    pub newlines: u64,
    // Bytes of the same line before.
    pub column: u64,
    // The last three bytes before.
    pub last: [u8; 3],
}

// The last three bytes, where some come behind three others.
fn last_of([a, b, c]: [u8; 3], bytes: &[u8]) -> [u8; 3] {
    match bytes {
        [] => [a, b, c],
        [x] => [b, c, *x],
        [x, y] => [c, *x, *y],
        [.., x, y, z] => [*x, *y, *z],
    }
}

impl Spot {
    // The spot behind some bytes that follow.
    pub fn after(self, bytes: &[u8]) -> Self {
        let n = newlines(bytes);
        let column = if n == 0 {
            plus(self.column, bytes.len())
        } else {
            since_newline(bytes) as u64
        };
        Spot {
            offset: plus(self.offset, bytes.len()),
            newlines: plus(self.newlines, n),
            column,
            last: last_of(self.last, bytes),
        }
    }
}

// What a fault is.
#[derive(Clone, Copy, Debug, PartialEq, Eq, Hash)]
pub enum Kind {
    // Bytes that are no UTF-8: how many, and the last three up to the last of them.
    NoUtf8 { count: usize, last: [u8; 3] },
    // A line end inside an escape.
    Lost,
}

// What `--strict` stops at.
#[derive(Clone, Copy, Debug, PartialEq, Eq, Hash)]
pub struct Fault {
    pub kind: Kind,
    // Its line from 1.
    pub line: u64,
    // Its first byte, in its line counted from 1, and in the input counted from 0.
    pub byte: u64,
    pub offset: u64,
}

impl Fault {
    // The last bytes before a spot are no UTF-8. None of them is 0A.
    pub fn no_utf_8(end: Spot, count: usize) -> Self {
        let last = end.last;
        Fault {
            kind: Kind::NoUtf8 { count, last },
            line: plus(end.newlines, 1),
            byte: plus(minus(end.column, count), 1),
            offset: minus(end.offset, count),
        }
    }

    // A line end is lost in an escape.
    pub fn lost(at: Spot) -> Self {
        Fault {
            kind: Kind::Lost,
            line: plus(at.newlines, 1),
            byte: plus(at.column, 1),
            offset: at.offset,
        }
    }
}

// What is said of it, behind the name of the input.
impl fmt::Display for Fault {
    fn fmt<W: fmt::Write>(&self, f: &mut fmt::Formatter<W>) -> fmt::Result {
        let line = self.line;
        let byte = self.byte;
        match self.kind {
            Kind::Lost => writeln!(
                f,
                ": line {line}: a line end stands inside an escape sequence"
            ),
            Kind::NoUtf8 { count, last } => {
                let [a, b, c] = last;
                write!(f, ": line {line}, byte {byte}: bytes that are no UTF-8 (")?;
                match count {
                    0 | 1 => write!(f, "{c:02X}"),
                    2 => write!(f, "{b:02X} {c:02X}"),
                    _ => write!(f, "{a:02X} {b:02X} {c:02X}"),
                }?;
                f.write_str(")\nWithout --strict they become U+FFFD.\n")
            }
        }
    }
}

// Whether the counts are those of a fault: bytes that are no UTF-8, and line ends lost, where these count too.
pub fn has_fault(counts: Counts, lost_too: bool) -> bool {
    0 < counts.replaced || (lost_too && 0 < counts.lost)
}

// Whether no character has the byte at its start, nor is one begun by it: it is replaced when it is read.
fn is_lone(b: u8) -> bool {
    matches!(b, 0x80..0xc2 | 0xf5..)
}

// A block of the input, before it is cleaned: what cleans it, and where it begins.
#[derive(Clone, Copy)]
pub struct Begun<'a> {
    pub cleaner: Cleaner,
    pub page: &'a [u32],
    pub options: Options,
    pub lines: bool,
    pub spot: Spot,
}

impl Begun<'_> {
    // Cleans the block's first bytes: the cleaner behind them, and their counts or why they are refused.
    pub fn clean(self, bytes: &[u8], out: &mut [u8]) -> (Cleaner, Result<Counts, Refusal>) {
        let done = self
            .cleaner
            .clean(self.page, self.options, self.lines, bytes, out);
        (done.next, done.answer)
    }

    // The fewest first bytes that have a fault, where all have one: found by halves, since the counts of more bytes are no smaller. Std
    // searches slices by what is in a place, and here each place takes a clean of all before it.
    fn least<'b>(self, lost_too: bool, bytes: &'b [u8], out: &mut [u8]) -> &'b [u8] {
        let mut low = 0;
        let mut high = bytes.len();
        while 1 < high - low {
            let middle = low + (high - low) / 2;
            let (_, counts) = self.clean(&bytes[..middle], out);
            if counts.is_ok_and(|counts| has_fault(counts, lost_too)) {
                high = middle;
            } else {
                low = middle;
            }
        }
        &bytes[..high]
    }

    // The first fault of a block that has one. It uses the places of out.
    pub fn first(self, lost_too: bool, bytes: &[u8], out: &mut [u8]) -> Fault {
        let part = self.least(lost_too, bytes, out);
        let (_, counts) = self.clean(part, out);
        let replaced = counts.map_or(0, |counts| counts.replaced);
        let [before @ .., last] = part else {
            return Fault::lost(self.spot);
        };
        let end = self.spot.after(before);
        // The bytes that are no UTF-8 end before the last one, or are that one.
        match replaced {
            0 => Fault::lost(end),
            1 if is_lone(*last) => Fault::no_utf_8(self.spot.after(part), 1),
            n if is_lone(*last) => Fault::no_utf_8(end, n - 1),
            n => Fault::no_utf_8(end, n),
        }
    }
}
