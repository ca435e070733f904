//! The words after the program's name, as a command. Goes in: the words. Comes out: the command
//! that they are, with the numbers and names of its options, or that they are none.
//! `specs/commands/Commands.antt` says which words are which command, and
//! `specs/commands/Options.antt` which options a command has, as a simple command of `clap`.

mod command;
mod options;
mod read;
mod worked;

pub use crate::workers::Solving;
pub use command::{Command, CommandFault};
pub use read::read_command;
pub use worked::{words_that_are_commands, words_that_are_none};
