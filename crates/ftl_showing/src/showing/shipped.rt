//! Grammars that come with the program.

use crate::showing::files::{told, written};
use ftl_boxes::shipped;
use maugzeris::Status;

/// Writes the text of a grammar that comes with the program, or tells which there are.
pub fn show_grammar<R: Print + Eprint>(rt: &R, name: &str) -> Status {
    match shipped(name) {
        Some(text) => written(rt, Status::DONE, text),
        None => told(
            rt,
            Status::BAD_WORDS,
            format_args!(
                "show: no grammar {name} comes with the program: there are stack, block, inline, \
                 float, table and flow\n"
            ),
        ),
    }
}
