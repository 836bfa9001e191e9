// How the command ends.

// Why it ends before all is read, cleaned and written, by the exit status. It was said.
#[derive(Clone, Copy, Debug, PartialEq, Eq, Hash)]
pub enum Failure {
    // Reading, writing or opening failed.
    Failed = 1,
    // An argument or the page is wrong, and nothing of the input is read.
    Wrong = 2,
    // `--strict` stopped.
    Strict = 3,
}

// The exit status: a number, as C and std's `ExitCode` take it.
pub fn status(ended: Result<(), Failure>) -> u8 {
    match ended {
        Ok(()) => 0,
        Err(why) => why as u8,
    }
}
