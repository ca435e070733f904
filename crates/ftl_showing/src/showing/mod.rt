//! Files shown. Goes in: the bytes of a file, and what the words ask for. Comes out: what is
//! written to standard output, or what is told of it on standard error, with the status to end
//! with.

mod answer;
mod files;
mod shipped;
mod texts;
mod told;
mod watching;

pub use files::show_files;
pub use shipped::show_grammar;
pub use watching::watch_file;
