//! Files, whole.

use std::alloc::{AllocError, Global};
use std::io::{ErrorKind, Read};
use std::rt::Files;
use std::{fs, io};

/// Why a file was not read.
#[derive(Drop)]
pub enum Unread {
    /// The system gave this error.
    Failed(io::Error),
    /// No memory was left.
    OutOfMemory,
}

impl From<io::Error> for Unread {
    fn from(error: io::Error) -> Self {
        match error.kind() {
            ErrorKind::OutOfMemory => Unread::OutOfMemory,
            _ => Unread::Failed(error),
        }
    }
}

/// The bytes of the file of this name; of standard input for `-`.
pub fn read_file<R: Files + Input + AllocGlobal>(rt: &R, name: &str) -> Result<Vec<u8>, Unread> {
    if name != "-" {
        return Ok(fs::read(rt, name)?);
    }
    let mut bytes = Vec::new(rt.alloc());
    rt.reader().read_to_end(&mut bytes)?;
    Ok(bytes)
}
