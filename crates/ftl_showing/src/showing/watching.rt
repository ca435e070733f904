//! Files that are shown anew.

use crate::files::read_file;
use crate::showing::files::{show_bytes, unread_told};
use crate::words::Wanted;
use maugzeris::Status;
use std::rt::Files;
use std::thread;
use std::time::{Clock, Duration};

/// How many milliseconds it takes to look at the file again.
const PAUSE: u64 = 250;

/// Shows the first file that is wanted, and again each time that its bytes are others than before.
/// It ends where writing fails.
pub fn watch_file<R: Files + Clock + Input + Print + Eprint + AllocGlobal>(
    rt: &R,
    wanted: Wanted<'_, '_>,
) -> Status {
    let Some(name) = wanted.files.first() else {
        return Status::BAD_WORDS;
    };
    let mut before = None;
    let mut told = false;
    for _look in 0..u64::MAX {
        match read_file(rt, name) {
            Ok(bytes) => {
                if before.as_ref() != Some(&bytes)
                    && show_bytes(rt, name, bytes.as_slice(), 0, wanted) == Status::WRITE_FAULT
                {
                    return Status::WRITE_FAULT;
                }
                before = Some(bytes);
                told = false;
            }
            Err(unread) => {
                if !told {
                    let _ = unread_told(rt, name, unread);
                }
                before = None;
                told = true;
            }
        }
        thread::sleep(rt, Duration::from_millis(PAUSE));
    }
    Status::DONE
}
