//! The printed boxes of a tree. Goes in: a tree of a checked grammar, and the word of each of its
//! attribute instances. Comes out: a line for each node, which `ftl_model::layout` defines for the
//! table of their values. `specs/boxes/WordValues.antt` says which value a word stands for.

mod digits;
mod laws;
mod piece;
mod pieces;
mod print;
mod room;
mod shown;
mod word;

pub use laws::words_are_undone;
pub use print::{Printed, print_boxes, shows_overflow};
pub use shown::{shown_by, shown_rows};
pub use word::{number_of_word, word_at};
