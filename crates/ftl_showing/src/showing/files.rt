//! Files, one after the other.

use crate::files::{Unread, read_file};
use crate::showing::answer::{Answer, File, answer_to};
use crate::words::Wanted;
use ftl_edge::{StdSink, write_whole};
use maugzeris::Status;
use std::alloc::AllocError;
use std::rt::Files;

/// Shows the files that are asked for. The status is that of the first file whose status is not 0;
/// where writing fails, nothing more is done.
pub fn show_files<R: Files + Input + Print + Eprint + AllocGlobal>(
    rt: &R,
    wanted: Wanted<'_, '_>,
) -> Status {
    let mut first = Status::DONE;
    for (place, name) in wanted.files.iter().enumerate() {
        let status = show_file(rt, name, place, wanted);
        if first == Status::DONE {
            first = status;
        }
        if status == Status::WRITE_FAULT {
            return first;
        }
    }
    first
}

/// Shows a file. Of several files each begins with a line that has its name.
fn show_file<R: Files + Input + Print + Eprint + AllocGlobal>(
    rt: &R,
    name: &str,
    place: usize,
    wanted: Wanted<'_, '_>,
) -> Status {
    match read_file(rt, name) {
        Ok(bytes) => show_bytes(rt, name, bytes.as_slice(), place, wanted),
        Err(unread) => unread_told(rt, name, unread),
    }
}

/// Shows the bytes of a file.
pub fn show_bytes<R: Print + Eprint + AllocGlobal>(
    rt: &R,
    name: &str,
    bytes: &[u8],
    place: usize,
    wanted: Wanted<'_, '_>,
) -> Status {
    let file = File { name, bytes };
    match answer_to(rt.alloc(), file, wanted.view, wanted.style) {
        Ok(answer) => give(rt, name, place, wanted.files.len(), answer),
        Err(AllocError) => out_of_memory(rt, name),
    }
}

/// Tells why a file was not read.
pub fn unread_told<R: Eprint>(rt: &R, name: &str, unread: Unread) -> Status {
    match unread {
        Unread::Failed(error) => told(
            rt,
            Status::READ_FAULT,
            format_args!("show: {name}: {error}\n"),
        ),
        Unread::OutOfMemory => out_of_memory(rt, name),
    }
}

/// Writes an answer, or tells it.
fn give<R: Print + Eprint>(
    rt: &R,
    name: &str,
    place: usize,
    count: usize,
    answer: Answer,
) -> Status {
    match answer {
        Answer::Shown { status, text } => {
            if count > 1 && write_heading(rt, name, place) == Status::WRITE_FAULT {
                return Status::WRITE_FAULT;
            }
            written(rt, status, text.as_str())
        }
        Answer::Refused {
            status,
            text,
            html,
            spot: _,
        } => give_refusal(rt, status, text, html),
        Answer::NoNode { count } => told(
            rt,
            Status::BAD_WORDS,
            format_args!(
                "show: {name}: the nodes are 0 to {}\n",
                count.saturating_sub(1)
            ),
        ),
        Answer::NoAttribute { names } => told(
            rt,
            Status::BAD_WORDS,
            format_args!("show: {name}: the attributes of the node are{names}\n"),
        ),
    }
}

/// Tells a refusal, and writes it as HTML where that was asked for.
fn give_refusal<R: Print + Eprint>(
    rt: &R,
    status: Status,
    text: String,
    html: Option<String>,
) -> Status {
    if let Some(html) = html
        && written(rt, status, html.as_str()) == Status::WRITE_FAULT
    {
        return Status::WRITE_FAULT;
    }
    told(rt, status, format_args!("{text}"))
}

fn write_heading<R: Print>(rt: &R, name: &str, place: usize) -> Status {
    let before = if place > 0 { "\n" } else { "" };
    for piece in [before, "==> ", name, " <==\n"] {
        if written(rt, Status::DONE, piece) == Status::WRITE_FAULT {
            return Status::WRITE_FAULT;
        }
    }
    Status::DONE
}

/// The status, once the text is written.
pub fn written<R: Print>(rt: &R, status: Status, text: &str) -> Status {
    match write_whole(&mut StdSink::new(rt), text.as_bytes()) {
        Ok(()) => status,
        Err(_) => Status::WRITE_FAULT,
    }
}

fn out_of_memory<R: Eprint>(rt: &R, name: &str) -> Status {
    told(
        rt,
        Status::OUT_OF_MEMORY,
        format_args!("show: {name}: out of memory\n"),
    )
}

/// The status, once it was tried to tell why.
pub fn told<R: Eprint>(rt: &R, status: Status, why: impl std::fmt::Display + Drop) -> Status {
    let _ = rt.eprint(why);
    status
}
