// What the command says, on standard error but for the help and the version. A message is written piece by piece, and a piece that can't
// be written is left out: those behind it still come.
use crate::arguments::Wrong;
use crate::failure::Failure;
use crate::flow::Sums;
use crate::names;
use crate::own_page::NoPage;
use crate::place::{Fault, Kind};
use common::Refusal;
use std::env::Env;
use std::fmt::{Display, InlineText, Write};
use std::io::{ErrorKind, Stderr, Stdout};
use std::{fmt, io};

// Standard error. What `write!` is given goes out by a call for each text between its holes and for each value in them.
#[derive(Clone, Copy)]
pub struct Pieces(Stderr);

impl Write for Pieces {
    fn write_str(&mut self, piece: &str) -> fmt::Result {
        self.say(piece.as_bytes());
        Ok(())
    }
}

impl Pieces {
    fn say(self, piece: &[u8]) {
        let _ = self.0.write_all(piece);
    }

    // What `write!` and `writeln!` call.
    pub fn write_fmt(mut self, message: impl Display + Drop) {
        let _ = self.write(message);
    }
}

// The system's words for an error, behind which std puts ` (os error `, its number and `)`.
#[derive(Clone, Copy)]
struct Words(io::Error);

impl Display for Words {
    fn fmt<W: fmt::Write>(&self, f: &mut fmt::Formatter<W>) -> fmt::Result {
        let said = InlineText::<256>::of(self.0);
        let said = said.as_str();
        f.write_str(match said.rsplit_once(" (os error ") {
            Some((words, _)) => words,
            None => said,
        })
    }
}

// Something by its name, whose bytes may be no UTF-8, and where what is said about it goes.
#[derive(Clone, Copy)]
pub struct About<'a> {
    pub errors: Pieces,
    name: &'a [u8],
}

// What is to be done about a line end inside an escape.
fn on_lost(lines: bool) -> &'static str {
    if lines {
        "Only 0A ends a line of --lines.\n"
    } else {
        "Use --lines for tables.\n"
    }
}

impl<'a> About<'a> {
    pub fn new(errors: Stderr, name: &'a [u8]) -> Self {
        About {
            errors: Pieces(errors),
            name,
        }
    }

    // `yeshorit: NAME`, and what is said of it.
    fn tell(self, what: impl Display + Drop) {
        write!(self.errors, "yeshorit: ");
        self.errors.say(self.name);
        write!(self.errors, "{what}");
    }

    // A call failed.
    pub fn failed(self, why: &io::Error) -> Failure {
        let words = Words(*why);
        self.tell(format_args!(": {words}\n"));
        Failure::Failed
    }

    // The file of -o can't be made.
    pub fn not_made(self, why: &io::Error) -> Failure {
        let failure = self.failed(why);
        if why.kind() == ErrorKind::AlreadyExists {
            writeln!(
                self.errors,
                "-o makes new files only: remove that file, or give another name."
            );
        }
        failure
    }

    // A file has no page.
    pub fn no_page(self, why: NoPage) -> Failure {
        self.tell(format_args!(
            ": no page: {why}\nWithout --page the page of Unicode 15.0.0 is used.\n"
        ));
        Failure::Wrong
    }

    // The cleaner refuses a call. Pages are accepted and there is room for every block, so it refuses none.
    pub fn refused(self, why: Refusal) -> Failure {
        let number = why.number();
        self.tell(format_args!(": refused ({number})\n"));
        Failure::Failed
    }

    // `--strict` stops at a fault.
    pub fn stopped(self, fault: Fault, lines: bool) -> Failure {
        self.tell(fault);
        if fault.kind == Kind::Lost {
            write!(self.errors, "{}", on_lost(lines));
        }
        Failure::Strict
    }

    // Line ends stood inside escapes and are gone, if any did.
    pub fn warning(self, lost: u64, lines: bool) {
        let (before, behind) = match lost {
            0 => return,
            1 => (
                " line end stood inside an escape sequence in ",
                " and is gone: a row may be lost.",
            ),
            _ => (
                " line ends stood inside escape sequences in ",
                " and are gone: rows may be lost.",
            ),
        };
        write!(self.errors, "yeshorit: warning: {lost}{before}");
        self.errors.say(self.name);
        write!(self.errors, "{behind} {}", on_lost(lines));
    }
}

// Standard input was closed when the command began.
pub fn no_input(errors: Stderr) -> Failure {
    writeln!(Pieces(errors), "yeshorit: standard input is closed");
    Failure::Failed
}

// What was done, one number to a line, and where the first bytes stood that are no UTF-8.
pub fn summary(errors: Pieces, sums: Sums, first: Option<Fault>) {
    let sum = |what: &str, n: u64| write!(errors, "yeshorit: {what}: {n}");
    let line = |what: &str, n: u64| writeln!(errors, "yeshorit: {what}: {n}");
    line("bytes read", sums.bytes_read);
    line("characters read", sums.chars_read);
    line("bytes written", sums.bytes_written);
    line("characters written", sums.chars_written);
    sum("bytes replaced by U+FFFD", sums.replaced);
    if let Some(fault) = first {
        write!(
            errors,
            ", the first in line {}, byte {}, at offset {}",
            fault.line, fault.byte, fault.offset
        );
    }
    writeln!(errors);
    line("characters dropped", sums.dropped);
    line("line ends lost", sums.lost);
}

// Argument i is wrong.
pub fn wrong(rt: &impl Env, errors: Stderr, why: Wrong, i: usize) -> Failure {
    let errors = Pieces(errors);
    let mut room = names::room();
    match why {
        Wrong::TooLong => write!(errors, "yeshorit: argument {i} is longer than 4096 bytes"),
        Wrong::NoName => write!(errors, "yeshorit: the name of a file is missing after "),
        Wrong::SecondFile => write!(
            errors,
            "yeshorit: one FILE at a time, and here is a second: "
        ),
        Wrong::UnknownOption => write!(errors, "yeshorit: unknown option "),
    }
    // One that is too long is none here.
    errors.say(names::argument(rt, i, &mut room));
    writeln!(errors, "\nTry 'yeshorit --help'.");
    Failure::Wrong
}

// The text of `--help`. Each piece is written by a call of its own: where one fails, what stands before it is out.
const HELP: [&str; 16] = [
    "Usage: yeshorit [OPTION]... [FILE]\n\n",
    "Cleans text: reads FILE, or standard input for none or -, and writes to standard output. Bytes that are no\n",
    "UTF-8 become U+FFFD; what comes out is valid UTF-8. -- ends the options.\n\n",
    "  -o, --output FILE  write to FILE, which must be new; it is removed again where the clean fails (- is standard output)\n",
    "      --lines        each line is a text of its own, so that nothing in it can reach the next: for tables\n",
    "      --nel          U+0085 ends a line\n",
    "      --lsps         U+2028 and U+2029 end a line\n",
    "      --units        the signs for ohm, kelvin and angstrom, U+2126, U+212A and U+212B, become U+03A9, U+004B and U+00C5\n",
    "      --page FILE    the property page, as hexadecimal numbers, in place of that of Unicode 15.0.0\n",
    "      --strict       stop at bytes that are no UTF-8, and at a line end inside an escape sequence\n",
    "      --progress     keep a line on standard error up to date\n",
    "      --summary      say on standard error what was read, written, replaced, dropped and lost\n",
    "  -h, --help         this text\n",
    "      --version      the version, and that of Unicode\n\n",
    "Exit status: 0 all is read, cleaned and written; 1 reading, writing or opening failed;\n",
    "2 a wrong argument or page, and nothing is read; 3 --strict stopped.\n",
];

pub fn version(to: Stdout) -> io::Result<()> {
    println!(to; "yeshorit 0.1 (page of Unicode 15.0.0)")
}

pub fn help(to: Stdout) -> io::Result<()> {
    for piece in HELP {
        to.write_all(piece.as_bytes())?;
    }
    Ok(())
}
