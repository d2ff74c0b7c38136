//! A descriptor that the program was started with, written from its current position.

use itoa::Buffer;
use std::alloc::AllocError;
use std::fs::{File, OpenFile, OpenOptions};
use std::io;
use std::io::{ErrorKind, Read, Seek, SeekFrom};
use std::rt::Files;

/// The most bytes that are read of `/proc/self/fdinfo/N`; `pos` and `flags` are in its first lines.
const INFO_LENGTH: usize = 256;

/// The capacity for the path of that file, in bytes.
const INFO_PATH_ROOM: usize = 32;

/// The bit of `flags` for `O_APPEND`.
const APPENDS: u64 = 0o2000;

/// An open descriptor of this process.
#[derive(Drop)]
pub(crate) struct Descriptor {
    number: i32,
    /// Capacity for the path of its `fdinfo` file.
    info_path: String,
}

impl Descriptor {
    /// A descriptor by its number. All memory that opening it needs is allocated here.
    pub(crate) fn new<R: AllocGlobal>(rt: &R, number: i32) -> Result<Descriptor, AllocError> {
        Ok(Descriptor {
            number,
            info_path: String::with_capacity(rt.alloc(), INFO_PATH_ROOM)?,
        })
    }

    /// Opens the descriptor's file again, by a path that leads to it. A regular file is not truncated: it is written
    /// from the descriptor's position on, or appended to if the descriptor appends.
    pub(crate) fn open<R: Files>(&mut self, rt: &R, path: &str) -> io::Result<R::File> {
        if !is_regular(rt, path)? {
            return OpenOptions::new().write(true).open(rt, path);
        }
        match self.standing(rt)? {
            WritePosition::AtEnd => OpenOptions::new().append(true).open(rt, path),
            WritePosition::At(position) => {
                let mut file = OpenOptions::new().write(true).open(rt, path)?;
                file.seek(SeekFrom::Start(position))?;
                Ok(file)
            }
        }
    }

    fn standing<R: Files>(&mut self, rt: &R) -> io::Result<WritePosition> {
        set_info_path(&mut self.info_path, self.number)?;
        let mut info = [0; INFO_LENGTH];
        let length = File::open(rt, self.info_path.as_str())?.read(&mut info)?;
        match parse_write_position(&info[..length.min(INFO_LENGTH)]) {
            Some(standing) => Ok(standing),
            None => Err(io::Error::from(ErrorKind::InvalidData)),
        }
    }
}

fn is_regular<R: Files>(rt: &R, path: &str) -> io::Result<bool> {
    Ok(std::fs::metadata(rt, path)?.is_file())
}

/// Where the next bytes of a descriptor are written.
#[derive(Clone, Copy)]
enum WritePosition {
    AtEnd,
    At(u64),
}

/// Sets the path of the descriptor's `fdinfo` file, within its capacity.
fn set_info_path(info_path: &mut String, number: i32) -> Result<(), AllocError> {
    let mut digits = Buffer::new();
    info_path.clear();
    info_path.push_str("/proc/self/fdinfo/")?;
    info_path.push_str(digits.format(number))
}

/// Parses the lines `pos:`, and `flags:`, which is octal.
fn parse_write_position(info: &[u8]) -> Option<WritePosition> {
    let text = std::str::from_utf8(info).ok()?;
    let flags = u64::from_str_radix(value_of(text, "flags:")?, 8).ok()?;
    if flags & APPENDS != 0 {
        return Some(WritePosition::AtEnd);
    }
    let position = value_of(text, "pos:")?.parse::<u64>().ok()?;
    Some(WritePosition::At(position))
}

fn value_of<'t>(text: &'t str, name: &str) -> Option<&'t str> {
    let line = text.lines().find(|line| line.starts_with(name))?;
    Some(line.strip_prefix(name)?.trim())
}
