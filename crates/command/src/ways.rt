// Where the command reads and writes: a file that an argument names, or a standard stream.
use crate::messages::About;
use std::fs::File;
use std::io::{Read, Seek, SeekFrom, Stdin, Stdout, Write};
use std::os::unix::fs::FileTypeExt;
use std::str::from_utf8;
use std::{fs, io};

#[derive(Drop)]
pub enum Input {
    Standard(Stdin),
    Named(File),
}

#[derive(Drop)]
pub enum Output {
    Standard(Stdout),
    Named(File),
}

// The input and the output, and where what is said about each goes.
#[derive(Drop)]
pub struct Ways<'a> {
    pub from: Input,
    pub to: Output,
    pub input: About<'a>,
    pub output: About<'a>,
}

impl Read for Input {
    fn read(&mut self, block: &mut [u8]) -> io::Result<usize> {
        match self {
            Input::Standard(stream) => stream.read(block),
            Input::Named(file) => file.read(block),
        }
    }
}

impl Write for Output {
    fn write(&mut self, bytes: &[u8]) -> io::Result<usize> {
        match self {
            Output::Standard(stream) => stream.write(bytes),
            Output::Named(file) => file.write(bytes),
        }
    }

    fn flush(&mut self) -> io::Result<()> {
        match self {
            Output::Standard(stream) => stream.flush(),
            Output::Named(file) => file.flush(),
        }
    }
}

// How many bytes stand from one place of a file to another, where there are any.
fn between(here: u64, end: u64) -> Option<u64> {
    end.checked_sub(here).filter(|&n| 0 < n)
}

// How many bytes follow in an open file, which is set back to where it stood; none for one without places.
fn size_of(file: &mut File) -> io::Result<Option<u64>> {
    let Ok(here) = file.stream_position() else {
        return Ok(None);
    };
    let end = file.seek(SeekFrom::End(0)).unwrap_or(0);
    file.seek(SeekFrom::Start(here))?;
    Ok(between(here, end))
}

// The number behind `pos:`, with which the system's words on an open file begin.
fn place_in(words: &[u8]) -> Option<u64> {
    let line = from_utf8(words).ok()?.lines().next()?;
    line.strip_prefix("pos:")?.trim().parse::<u64>().ok()
}

// Where in standard input the next read begins. Std moves no standard stream: the system's table of open files says it.
fn place_of_standard(rt: &HostRuntime) -> Option<u64> {
    let mut words = [0u8; 32];
    let mut file = File::open(rt, "/proc/self/fdinfo/0").ok()?;
    let n = file.read(&mut words).ok()?;
    place_in(&words[..n])
}

// Where standard input ends, where it is a file or a disk.
fn end_of_standard(rt: &HostRuntime) -> Option<u64> {
    let found = fs::metadata(rt, "/proc/self/fd/0").ok()?;
    if found.is_file() {
        return Some(found.len());
    }
    if !found.file_type().is_block_device() {
        return None;
    }
    let mut disk = File::open(rt, "/proc/self/fd/0").ok()?;
    disk.seek(SeekFrom::End(0)).ok()
}

fn size_of_standard(rt: &HostRuntime) -> Option<u64> {
    between(place_of_standard(rt)?, end_of_standard(rt)?)
}

impl Input {
    // How many bytes follow, where that is known and there are any. That of a standard input is known only where there is a system to
    // ask.
    pub fn size(&mut self, system: Option<HostRuntime>) -> io::Result<Option<u64>> {
        match self {
            Input::Named(file) => size_of(file),
            Input::Standard(_) => Ok(system.and_then(|rt| size_of_standard(&rt))),
        }
    }
}

impl Output {
    // Has a file reach its device.
    pub fn settle(&mut self) -> io::Result<()> {
        match self {
            Output::Standard(_) => Ok(()),
            Output::Named(file) => file.sync_all(),
        }
    }
}
