// Lists in an answer. A list is written in blocks, since a write for each number or byte would take longer than its digits.
ghost use Rattle.std.specs.Prelude.{◌<◌};

use crate::places::front;
use arrayvec::ArrayVec;
use std::fmt::Display;
use std::{fmt, str};

// Numbers in hexadecimal, joined by commas, or `-` where there are none.
#[derive(Clone, Copy)]
pub struct List<'a>(pub &'a [u32]);

impl Display for List<'_> {
    fn fmt<W: fmt::Write>(&self, f: &mut fmt::Formatter<W>) -> fmt::Result {
        let Some((first, others)) = self.0.split_first() else {
            return write!(f, "-");
        };
        write!(f, "{first:x}")?;
        for block in others.chunks(64) {
            // Commas and digits of a whole block.
            let mut text = ArrayVec::<u8, 576>::new();
            for number in block {
                let _ = text.try_push(b',');
                // Zero has a digit as well.
                let count = 8 - (number | 1).leading_zeros() / 4;
                for place in (0..count).rev() {
                    let _ = text.try_push(digit((number >> (4 * place)) % 16));
                }
            }
            write_ascii(f, text.as_slice())?;
        }
        Ok(())
    }
}

// Bytes as pairs of digits, or `-` where there are none.
#[derive(Clone, Copy)]
pub struct Pairs<'a>(pub &'a [u8]);

impl Display for Pairs<'_> {
    fn fmt<W: fmt::Write>(&self, f: &mut fmt::Formatter<W>) -> fmt::Result {
        if self.0.is_empty() {
            return write!(f, "-");
        }
        for block in self.0.chunks(64) {
            let mut digits = [0; 128];
            let (pairs, _) = digits.as_chunks_mut();
            for (pair, byte) in pairs.iter_mut().zip(block) {
                let byte = u32::from(*byte);
                *pair = [digit(byte / 16), digit(byte % 16)];
            }
            write_ascii(f, front(&digits, 2 * block.len()))?;
        }
        Ok(())
    }
}

// The digit of a value.
fn digit(value: u32) -> u8
    requires { value < 16 }
{
    b"0123456789abcdef"[value as usize]
}

// Writes bytes that are ASCII.
fn write_ascii<W: fmt::Write>(f: &mut fmt::Formatter<W>, bytes: &[u8]) -> fmt::Result {
    f.write_str(str::from_utf8(bytes).map_err(|_| fmt::Error)?)
}
