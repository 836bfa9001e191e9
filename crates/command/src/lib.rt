// The command `yeshorit`: cleans a file, bytes to bytes. Here is the way from the arguments to the exit status; the modules have
//     arguments.rt  what the arguments ask
//     failure.rt    why the command ends early, and the exit status
//     own_page.rt   a page out of a file
//     names.rt      the arguments as bytes, and the files that they name
//     ways.rt       the input and the output
//     flow.rt       reading, cleaning and writing, block by block
//     place.rt      where in the input something stands
//     messages.rt   what is said
//     progress.rt   the line of the progress
// Every function is safe and ends. What is read, written and said no contract can tell: tests/faults holds the built command to it.
#![tactic(auto)]

mod arguments;
mod failure;
mod flow;
mod messages;
mod names;
mod own_page;
mod place;
mod progress;
mod ways;

use arguments::{Stop, Wish};
use failure::{Failure, status};
use messages::{About, no_input};
use own_page::NUMBERS;
use std::fs::File;
use std::io;
use std::io::{Stderr, Stdin, Stdout};
use std::os::fd::{AsFd, IntoRawFd};
use ways::{Input, Output, Ways};

// What the system answers where a descriptor is not open: std has no kind for it.
const NOT_OPEN: i32 = 9;

// Whether a standard stream is closed.
fn is_closed(stream: &impl AsFd) -> bool {
    let copied = stream.as_fd().try_clone_to_owned();
    copied.is_err_and(|why| why.raw_os_error() == Some(NOT_OPEN))
}

// Opens a closed stream on /dev/null, for reading, so that no file that is opened later gets its number: a message would land
// in that file. The ones below it are open, so it gets its own number, and keeps it.
fn fill(rt: &HostRuntime, stream: &impl AsFd) -> io::Result<()> {
    if is_closed(stream) {
        let _ = File::open(rt, "/dev/null")?.into_raw_fd();
    }
    Ok(())
}

fn fill_standard(rt: &HostRuntime) -> io::Result<()> {
    fill(rt, &rt.stdin())?;
    fill(rt, &rt.stdout())?;
    fill(rt, &rt.stderr())
}

// A clean as the arguments ask it.
#[derive(Clone, Copy)]
struct Task<'a> {
    rt: &'a HostRuntime,
    wish: Wish,
    page: &'a [u32],
    // Whether standard input was closed when the command began.
    is_closed: bool,
}

impl Task<'_> {
    fn about<'b>(self, name: &'b [u8]) -> About<'b> {
        About::new(self.rt.stderr(), name)
    }

    // The input that the arguments name: FILE, or standard input for none or `-`.
    fn run(self) -> Result<(), Failure> {
        let Some(i) = self.wish.file else {
            return self.from_standard();
        };
        let mut path = names::room();
        let name = names::argument(self.rt, i, &mut path);
        if matches!(name, b"-") {
            return self.from_standard();
        }
        let input = self.about(name);
        let file = names::open(self.rt, name).map_err(|why| input.failed(&why))?;
        self.output(Input::Named(file), input)
    }

    fn from_standard(self) -> Result<(), Failure> {
        if self.is_closed {
            return Err(no_input(self.rt.stderr()));
        }
        let from = Input::Standard(self.rt.stdin());
        self.output(from, self.about(b"standard input"))
    }

    // Standard output, or the new file that -o names.
    fn output(self, from: Input, input: About<'_>) -> Result<(), Failure> {
        match self.wish.out {
            None => self.to_standard(from, input),
            Some(i) => self.to_file(from, input, i),
        }
    }

    fn to_standard(self, from: Input, input: About<'_>) -> Result<(), Failure> {
        let ways = Ways {
            from,
            to: Output::Standard(self.rt.stdout()),
            input,
            output: self.about(b"standard output"),
        };
        flow::clean(Some(*self.rt), ways, self.page, self.wish)
    }

    // Cleans to the new file that argument i names, which is removed again where all is not written. A file that is there stays as it
    // is: to replace it by a temporary one would replace a device or a link.
    fn to_file(self, from: Input, input: About<'_>, i: usize) -> Result<(), Failure> {
        let mut path = names::room();
        let name = names::argument(self.rt, i, &mut path);
        let output = self.about(name);
        let file = names::create(self.rt, name).map_err(|why| output.not_made(&why))?;
        let ways = Ways {
            from,
            to: Output::Named(file),
            input,
            output,
        };
        let cleaned = flow::clean(Some(*self.rt), ways, self.page, self.wish);
        if cleaned.is_err() {
            let _ = names::remove(self.rt, name);
        }
        cleaned
    }
}

// With the page of the file that argument i names. Its numbers stand in places that are lent: the command has no heap.
fn with_own_page(rt: &HostRuntime, wish: Wish, i: usize, is_closed: bool) -> Result<(), Failure> {
    let mut numbers = [0; NUMBERS];
    let page = own_page::read(rt, i, &mut numbers)?;
    let task = Task {
        rt,
        wish,
        page,
        is_closed,
    };
    task.run()
}

// With the page of Unicode 15.0.0.
fn with_given_page(rt: &HostRuntime, wish: Wish, is_closed: bool) -> Result<(), Failure> {
    let task = Task {
        rt,
        wish,
        page: &page_15::page(),
        is_closed,
    };
    task.run()
}

fn command(rt: &HostRuntime) -> Result<(), Failure> {
    let errors = rt.stderr();
    let is_closed = is_closed(&rt.stdin());
    fill_standard(rt).map_err(|why| About::new(errors, b"/dev/null").failed(&why))?;
    let output = About::new(errors, b"standard output");
    match arguments::read(rt) {
        Ok(wish) => match wish.page {
            None => with_given_page(rt, wish, is_closed),
            Some(i) => with_own_page(rt, wish, i, is_closed),
        },
        Err(Stop::Help) => messages::help(rt.stdout()).map_err(|why| output.failed(&why)),
        Err(Stop::Version) => messages::version(rt.stdout()).map_err(|why| output.failed(&why)),
        Err(Stop::Wrong(why, i)) => Err(messages::wrong(rt, errors, why, i)),
    }
}

// Cleans standard input to standard output.
fn clean_standard(from: Stdin, to: Stdout, errors: Stderr) -> Result<(), Failure> {
    if is_closed(&from) {
        return Err(no_input(errors));
    }
    let ways = Ways {
        from: Input::Standard(from),
        to: Output::Standard(to),
        input: About::new(errors, b"standard input"),
        output: About::new(errors, b"standard output"),
    };
    flow::clean(None, ways, &page_15::page(), Wish::default())
}

// Runs the command, and answers its exit status.
pub fn run(rt: &HostRuntime) -> u8 {
    status(command(rt))
}

// The same without arguments, for a caller that has the standard streams alone: cleans standard input to standard output.
pub fn run_standard(from: Stdin, to: Stdout, errors: Stderr) -> u8 {
    status(clean_standard(from, to, errors))
}
