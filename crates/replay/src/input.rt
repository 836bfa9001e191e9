// The lines of the input, which is read in blocks.
ghost use Rattle.std.specs.Prelude.{◌≤◌};

use arrayvec::ArrayVec;

// The descriptor of standard input.
const STANDARD_INPUT: i32 = 0;

// The limit on a line.
const LONGEST: usize = 98304;

// A line without its end.
#[derive(Drop)]
pub struct Line {
    bytes: ArrayVec<u8, LONGEST>,
    // Whether it has more bytes, which are left out.
    is_long: bool,
}

impl Line {
    pub fn new() -> Self {
        Line {
            bytes: ArrayVec::new(),
            is_long: false,
        }
    }

    pub fn as_slice(&self) -> &[u8] {
        self.bytes.as_slice()
    }

    pub fn is_long(&self) -> bool {
        self.is_long
    }

    fn clear(&mut self) {
        self.bytes.clear();
        self.is_long = false;
    }

    // Puts bytes behind the others, or none of them where the line is then too long.
    fn push(&mut self, bytes: &[u8]) {
        self.is_long |= self.bytes.try_extend_from_slice(bytes).is_err();
    }
}

// The input, and what is read of it: a block's bytes from taken up to read are still to be taken.
#[derive(Drop)]
pub struct Input {
    block: [u8; 65536],
    taken: usize,
    read: usize,
    ghost ordered: { taken ≤ read },
    ghost within: { read ≤ 65536 },
}

impl Input {
    // Before the first block.
    pub fn new() -> Self {
        Input {
            block: io::large_buffer(),
            taken: 0,
            read: 0,
        }
    }

    // Reads a line, of which nothing may be left, and answers whether more may follow: not at the end of the input, or where a read
    // fails.
    pub fn read_line(&mut self, line: &mut Line) -> bool {
        line.clear();
        for _ in 0..u64::MAX {
            if self.taken == self.read {
                self.taken = 0;
                self.read = io::read_full(STANDARD_INPUT, &mut self.block);
                if self.read == 0 {
                    return false;
                }
            }
            let rest = &self.block[self.taken..self.read];
            match rest.iter().position(|b| *b == b'\n') {
                Some(end) => {
                    line.push(&rest[..end]);
                    self.taken += end + 1;
                    return true;
                }
                None => {
                    line.push(rest);
                    self.taken = self.read;
                }
            }
        }
        false
    }
}
