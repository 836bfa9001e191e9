// A page out of a file.
use crate::failure::Failure;
use crate::messages::About;
use crate::names;
use command_bytes::front::up_to;
use command_bytes::numbers::{ParseError, numbers};
use std::fs::File;
use std::io::Read;
use std::{fmt, io};

// The numbers of the longest page that is accepted: 2 sizes, and twice the ranges, 2,048 of each kind.
pub const NUMBERS: usize = 8194;

// The most bytes of such a file.
const TEXT: usize = 65536;

// Why a file has no page.
#[derive(Clone, Copy, Debug, PartialEq, Eq, Hash)]
pub enum NoPage {
    TooLong,
    NotNumbers(ParseError),
    Refused,
}

impl From<ParseError> for NoPage {
    fn from(why: ParseError) -> Self {
        NoPage::NotNumbers(why)
    }
}

impl fmt::Display for NoPage {
    fn fmt<W: fmt::Write>(&self, f: &mut fmt::Formatter<W>) -> fmt::Result {
        f.write_str(match self {
            NoPage::TooLong => "it has more than 65536 bytes",
            NoPage::NotNumbers(ParseError::NoNumber) => "a word in it is no hexadecimal number",
            NoPage::NotNumbers(ParseError::Many) => "it has too many numbers",
            NoPage::Refused => "its numbers are refused (2)",
        })
    }
}

// Fills the room from a file, as far as the file goes, and answers how many bytes came. It reads into the room itself: std's copy would
// blank a buffer of its own before each read.
fn fill(file: &mut File, room: &mut [u8]) -> io::Result<usize> {
    let mut n = 0;
    while n < room.len() {
        match file.read(&mut room[n..])? {
            0 => break,
            got => n += got,
        }
    }
    Ok(n)
}

// The bytes of a file, which stand in the room; none where more follow. It is read once more after its end too: a terminal may go on.
fn text_of<'a>(rt: &HostRuntime, name: &[u8], room: &'a mut [u8]) -> io::Result<Option<&'a [u8]>> {
    let mut file = names::open(rt, name)?;
    let n = fill(&mut file, room)?;
    match file.read(&mut [0])? {
        0 => Ok(Some(up_to(room, n))),
        _ => Ok(None),
    }
}

// The page of a text, where there is one, which stands in the first places of out.
fn page_of<'a>(text: Option<&[u8]>, out: &'a mut [u32]) -> Result<&'a [u32], NoPage> {
    let text = text.ok_or(NoPage::TooLong)?;
    let n = numbers(text, out)?;
    let page = up_to(out, n);
    if !page::is_accepted(page) {
        return Err(NoPage::Refused);
    }
    Ok(page)
}

// The page of the file that argument i names.
pub fn read<'a>(rt: &HostRuntime, i: usize, out: &'a mut [u32]) -> Result<&'a [u32], Failure> {
    let mut path = names::room();
    let name = names::argument(rt, i, &mut path);
    let about = About::new(rt.stderr(), name);
    let mut room = [0; TEXT];
    match text_of(rt, name, &mut room) {
        Ok(text) => page_of(text, out).map_err(|why| about.no_page(why)),
        Err(why) => {
            about.failed(&why);
            Err(Failure::Wrong)
        }
    }
}
