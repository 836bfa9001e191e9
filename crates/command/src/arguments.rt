// What the arguments ask. A file is kept as the number of the argument that names it.
use crate::names;
use std::env::{Env, FillError};
use text_input::Options;

// What is asked of a clean.
#[derive(Clone, Copy, Debug, Default, PartialEq, Eq, Hash)]
pub struct Wish {
    pub lines: bool,
    pub nel: bool,
    pub lsps: bool,
    pub units: bool,
    pub strict: bool,
    pub progress: bool,
    pub summary: bool,
    // The arguments that name the input, the output and the page.
    pub file: Option<usize>,
    pub out: Option<usize>,
    pub page: Option<usize>,
}

// Why there is no clean: a text is asked for, or an argument is wrong, which is said by its number.
#[derive(Clone, Copy, Debug, PartialEq, Eq, Hash)]
pub enum Stop {
    Help,
    Version,
    Wrong(Wrong, usize),
}

// What is wrong with an argument.
#[derive(Clone, Copy, Debug, PartialEq, Eq, Hash)]
pub enum Wrong {
    UnknownOption,
    SecondFile,
    NoName,
    TooLong,
}

// Which name an option wants: that of the output, or of the page.
#[derive(Clone, Copy, Debug, PartialEq, Eq, Hash)]
enum Wants {
    Output,
    Page,
}

// The arguments so far.
#[derive(Clone, Copy, Debug, Default, PartialEq, Eq, Hash)]
struct Arguments {
    wish: Wish,
    // `--` stood before: what follows is no option.
    only_files: bool,
    // The next argument is a name, for the option before it.
    wants: Option<Wants>,
}

impl Wish {
    pub fn options(self) -> Options {
        Options {
            nel_compatibility: self.nel,
            lsps_compatibility: self.lsps,
            units_compatibility: self.units,
        }
    }

    // Whether it is asked where in the input something stands.
    pub fn is_placed(self) -> bool {
        self.strict || self.summary
    }
}

impl Arguments {
    // Takes argument i.
    fn take(&mut self, word: &[u8], i: usize) -> Result<(), Stop> {
        match self.wants {
            Some(wants) => {
                self.name(wants, word, i);
                Ok(())
            }
            // An option begins with `-` and has more than that.
            None => match word {
                [b'-', _, ..] if !self.only_files => self.option(word, i),
                _ => self.file(i),
            },
        }
    }

    // Argument i is the name that the option before it wants. The output `-` is standard output.
    fn name(&mut self, wants: Wants, word: &[u8], i: usize) {
        match wants {
            Wants::Output => self.wish.out = if matches!(word, b"-") { None } else { Some(i) },
            Wants::Page => self.wish.page = Some(i),
        }
        self.wants = None;
    }

    // Argument i is an option.
    fn option(&mut self, word: &[u8], i: usize) -> Result<(), Stop> {
        match word {
            b"--lines" => self.wish.lines = true,
            b"--nel" => self.wish.nel = true,
            b"--lsps" => self.wish.lsps = true,
            b"--units" => self.wish.units = true,
            b"--strict" => self.wish.strict = true,
            b"--progress" => self.wish.progress = true,
            b"--summary" => self.wish.summary = true,
            b"-o" | b"--output" => self.wants = Some(Wants::Output),
            b"--page" => self.wants = Some(Wants::Page),
            b"--" => self.only_files = true,
            b"-h" | b"--help" => return Err(Stop::Help),
            b"--version" => return Err(Stop::Version),
            _ => return Err(Stop::Wrong(Wrong::UnknownOption, i)),
        }
        Ok(())
    }

    // Argument i is a FILE.
    fn file(&mut self, i: usize) -> Result<(), Stop> {
        if self.wish.file.is_some() {
            return Err(Stop::Wrong(Wrong::SecondFile, i));
        }
        self.wish.file = Some(i);
        Ok(())
    }

    // Argument i is the last.
    fn end(self, i: usize) -> Result<Wish, Stop> {
        match self.wants {
            Some(_) => Err(Stop::Wrong(Wrong::NoName, i)),
            None => Ok(self.wish),
        }
    }
}

// Takes the arguments in their order, up to the first that stops.
pub fn read(rt: &impl Env) -> Result<Wish, Stop> {
    let mut word = names::room();
    let mut arguments = Arguments::default();
    for i in 1..usize::MAX {
        match rt.arg(i, &mut word) {
            Ok(n) => arguments.take(&word[..n], i)?,
            Err(FillError::TooLong) => return Err(Stop::Wrong(Wrong::TooLong, i)),
            Err(FillError::NotPresent) => return arguments.end(i - 1),
        }
    }
    arguments.end(usize::MAX - 1)
}
