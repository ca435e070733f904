//! What is written of edits beside the boxes. Goes in: how many instances edits touched. Comes out:
//! the line that says so, at the end of a buffer.

mod touched;

pub use touched::write_touched;
