// The line of the progress, on standard error.
use crate::messages::Pieces;
use crate::ways::Input;
use std::io;
use std::time::Clock;

// The system's clock is handed in at each call, where there is one to ask, and not kept: so the library for C, which has none, needs no
// function for it.
#[derive(Clone, Copy)]
pub struct Progress {
    errors: Pieces,
    // When the clean began, in seconds.
    start: Option<u64>,
    // How many bytes the input has, where that is known.
    size: Option<u64>,
    // When the line was last shown, in seconds.
    shown: Option<u64>,
}

// The system's time in seconds; none where there is no clock, or one that was never set.
fn seconds(system: Option<HostRuntime>) -> Option<u64> {
    let now = system?.since_1970().ok()?.as_secs();
    Some(now).filter(|&now| 0 < now)
}

// The share of a size, in hundredths.
fn share(read: u64, size: u64) -> u64 {
    if size <= read {
        return 100;
    }
    read.checked_div(size / 100).unwrap_or(0).min(99)
}

impl Progress {
    // Begins the clock. An input that has places tells its size, and is set back to the place where it stands.
    pub fn begin(
        system: Option<HostRuntime>,
        errors: Pieces,
        from: &mut Input,
    ) -> io::Result<Self> {
        let start = seconds(system);
        let size = from.size(system)?;
        Ok(Progress {
            errors,
            start,
            size,
            shown: None,
        })
    }

    // How many million bytes were read in a second, where one has passed.
    fn speed(&self, system: Option<HostRuntime>, read: u64) -> Option<u64> {
        let passed = seconds(system)?.checked_sub(self.start.unwrap_or(0))?;
        (read / 1_000_000).checked_div(passed)
    }

    // Shows how many bytes are read, over the line before.
    fn show(&self, system: Option<HostRuntime>, read: u64) {
        write!(self.errors, "\ryeshorit: {read} bytes");
        if let Some(size) = self.size {
            write!(self.errors, ", {} %", share(read, size));
        }
        if let Some(speed) = self.speed(system, read) {
            write!(self.errors, ", {speed} MB/s");
        }
        write!(self.errors, "   ");
    }

    // The same, once a second.
    pub fn show_each_second(&mut self, system: Option<HostRuntime>, read: u64) {
        let now = seconds(system);
        if now != self.shown {
            self.show(system, read);
            self.shown = now;
        }
    }

    // Shows it for the last time.
    pub fn end(&self, system: Option<HostRuntime>, read: u64) {
        self.show(system, read);
        writeln!(self.errors);
    }

    // Ends the line, where it was shown, so that a message has one of its own.
    pub fn end_line(&self) {
        if self.shown.is_some() {
            writeln!(self.errors);
        }
    }
}
