//! Pages shown to people: their nodes as a tree, one node with all it has, or their boxes drawn.
//! Goes in: the words of a command line, and files. Comes out: text on standard output, and what is
//! refused, with its place in the file, on standard error.
//!
//! - `words`: what the words ask for
//! - `files`: files as bytes
//! - `lines`: pages as lines
//! - `drawing`: pages as drawings
//! - `formats`: pages in canonical form
//! - `html`: pages as one HTML file
//! - `showing`: what comes of each file
#![tactic(auto)]

mod drawing;
mod files;
mod formats;
mod html;
mod lines;
mod showing;
mod words;

use showing::{show_files, show_grammar, watch_file};
use std::alloc::AllocError;
use std::rt::{Env, Files};
use std::time::Clock;
use std::{env, io};
use words::{Wanted, show_command, wanted_by};

/// The name of the program and the words after it.
fn all_words(rt: &(impl Env + AllocGlobal)) -> io::Result<Vec<String>> {
    let mut words = Vec::new(rt.alloc());
    words.push(String::from_str(rt.alloc(), "show")?)?;
    for word in env::args(rt)?.skip(1) {
        words.push(word)?;
    }
    Ok(words)
}

/// Does what the words say, and gives the status to end with.
fn status_of<R: Files + Env + Clock + Input + Print + Eprint + AllocGlobal>(
    rt: &R,
    words: &[String],
) -> Result<u8, AllocError> {
    match show_command(rt.alloc())?.try_get_matches_from(words) {
        Ok(matches) => match matches.get_str("grammar") {
            Some(name) => Ok(show_grammar(rt, name).0),
            None => Ok(status_of_wanted(rt, wanted_by(&matches))),
        },
        Err(error) => {
            let _ = error.print(rt);
            Ok(error.exit_code() as u8)
        }
    }
}

const WANTED: &str = "show: --box wants four names, as x,y,w,h, --why a node and a name, as 2.w, \
--svg and --html one file, and --watch one file with a name";

/// Shows what is wanted, or tells what is wrong with the words.
fn status_of_wanted<R: Files + Clock + Input + Print + Eprint + AllocGlobal>(
    rt: &R,
    wanted: Option<Wanted<'_, '_>>,
) -> u8 {
    match wanted {
        Some(wanted) if wanted.watch => watch_file(rt, wanted).0,
        Some(wanted) => show_files(rt, wanted).0,
        None => {
            let _ = rt.eprintln(WANTED);
            2
        }
    }
}

/// Does what the words of the command line say, and gives the status to end with: 9 where memory
/// ends, 2 where the words cannot be had.
pub fn show<R: Files + Env + Clock + Input + Print + Eprint + AllocGlobal>(rt: &R) -> u8 {
    match all_words(rt) {
        Ok(words) => status_of(rt, words.as_slice()).unwrap_or(9),
        Err(_) => 2,
    }
}
