//! The words after the program's name. Goes in: the words. Comes out: `Wanted`: which files, and
//! how they are to be shown; or `clap`'s help, version or fault.

mod command;
mod wanted;

pub use command::show_command;
pub use wanted::{BoxNames, Drawing, Labels, View, Wanted, Why, wanted_by};
