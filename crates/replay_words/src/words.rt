// The words and the numbers of a line.
ghost use Rattle.std.specs.Prelude.{◌<◌, ◌+◌, IfSome, length, option_map, unwrap_or};
ghost use Rattle.std.specs.Iterator.{at_most};

use crate::places::front;
use crate::why::Why;

// The words of a line that are left. Single blanks part them, so that an empty word stands between two blanks.
#[derive(Clone, Copy)]
pub struct Words<'a> {
    rest: Option<&'a [u8]>,
}

impl<'a> Words<'a> {
    pub fn of(line: &'a [u8]) -> Self {
        Words { rest: Some(line) }
    }

    // That none is left, or else this is why.
    pub fn end(self, why: Why) -> Result<(), Why> {
        if self.rest.is_none() {
            Ok(())
        } else {
            Err(why)
        }
    }

    // The next word as a number.
    pub fn number(&mut self) -> Result<u32, Why> {
        number(self.next().ok_or(Why::Number)?)
    }

    // The one number that is left.
    pub fn one_number(mut self) -> Result<u32, Why> {
        let value = self.number()?;
        self.end(Why::Number)?;
        Ok(value)
    }

    // The number that is left, and whether an option is on, which a last word 1 says.
    pub fn number_and_option(mut self) -> Result<(u32, bool), Why> {
        let value = self.number()?;
        let is_on = match self.next() {
            None => false,
            Some(b"1") => true,
            Some(_) => return Err(Why::Word),
        };
        self.end(Why::Word)?;
        Ok((value, is_on))
    }

    // The numbers that are left, stored in places: as many as these at most.
    pub fn numbers<'b>(self, places: &'b mut [u32]) -> Result<&'b [u32], Why> {
        let mut n = 0;
        for word in self {
            let place = places.get_mut(n).ok_or(Why::Many)?;
            *place = number(word)?;
            n += 1;
        }
        Ok(front(places, n))
    }

    // How many bytes the next word is, each a pair of digits: at least one. They are stored in places, as far as these reach.
    pub fn pairs(&mut self, places: &mut [u8]) -> Result<usize, Why> {
        let word = self.next().ok_or(Why::Pattern)?;
        if word.is_empty() {
            return Err(Why::Pattern);
        }
        let mut free = places.iter_mut();
        for digits in word.chunks(2) {
            let byte = byte(digits).ok_or(Why::Pattern)?;
            if let Some(place) = free.next() {
                *place = byte;
            }
        }
        Ok(word.len() / 2)
    }
}

impl<'a> Iterator for Words<'a> {
    type Item = &'a [u8];

    ghost remaining = { λ words. at_most (unwrap_or (option_map (λ rest. length rest.now + 1) words.rest) 0) };

    fn next(&mut self) -> Option<&'a [u8]> {
        let rest = self.rest?;
        let Some(end) = rest.iter().position(|b| *b == b' ') else {
            self.rest = None;
            return Some(rest);
        };
        self.rest = Some(&rest[end + 1..]);
        Some(&rest[..end])
    }
}

// The value of a hexadecimal digit in lower case.
fn digit(b: u8) -> Option<u32>
    ensures { IfSome result (λ d. d < 16) }
{
    match b {
        b'0'..=b'9' => Some((b - b'0') as u32),
        b'a'..=b'f' => Some((b - b'a') as u32 + 10),
        _ => None,
    }
}

// The value of a word: not of an empty one, one with another byte than a digit, or one above ffffffff.
fn number(word: &[u8]) -> Result<u32, Why> {
    if word.is_empty() {
        return Err(Why::Number);
    }
    let mut value: u32 = 0;
    for b in word {
        let digit = digit(*b).ok_or(Why::Number)?;
        value = value.checked_mul(16).ok_or(Why::Number)? | digit;
    }
    Ok(value)
}

// The byte that two digits make.
fn byte(digits: &[u8]) -> Option<u8> {
    let [high, low] = digits else {
        return None;
    };
    Some((digit(*high)? * 16 + digit(*low)?) as u8)
}

// Numbers as bytes, stored in places: as many as these at most.
pub fn bytes<'b>(numbers: &[u32], places: &'b mut [u8]) -> Result<&'b [u8], Why> {
    let bytes = places.get_mut(..numbers.len()).ok_or(Why::Many)?;
    for (byte, n) in bytes.iter_mut().zip(numbers) {
        *byte = u8::try_from(*n).map_err(|_| Why::Byte)?;
    }
    Ok(bytes)
}
