// The arguments as bytes, and the files that they name. A name is opened where it is UTF-8: std takes no other.
use std::env::Env;
use std::fs::{File, OpenOptions};
use std::io::ErrorKind;
use std::str::from_utf8;
use std::{fs, io};

// The most bytes of an argument.
const ROOM: usize = 4096;

// What an argument is read into: the command has no heap, and std fills what it is lent.
pub fn room() -> [u8; ROOM] {
    [0; ROOM]
}

// Argument i, which stands in the room; empty where there is none, or it is too long.
pub fn argument<'a>(rt: &impl Env, i: usize, room: &'a mut [u8]) -> &'a [u8] {
    let n = rt.arg(i, room).unwrap_or(0);
    &room[..n]
}

fn text(name: &[u8]) -> io::Result<&str> {
    from_utf8(name).map_err(|_| {
        io::Error::new(
            ErrorKind::InvalidInput,
            "the name is no UTF-8: rename the file, or hand it over by < or >",
        )
    })
}

// Opens a file for reading.
pub fn open(rt: &HostRuntime, name: &[u8]) -> io::Result<File> {
    File::open(rt, text(name)?)
}

// Makes a new file for writing.
pub fn create(rt: &HostRuntime, name: &[u8]) -> io::Result<File> {
    let mut how = OpenOptions::new();
    how.write(true).create_new(true);
    how.open(rt, text(name)?)
}

pub fn remove(rt: &HostRuntime, name: &[u8]) -> io::Result<()> {
    fs::remove_file(rt, text(name)?)
}
