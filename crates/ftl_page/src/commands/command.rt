//! Commands.

ghost use Rattle.std.specs.Prelude.{◌≡◌};
ghost use Rattle.ftl_page.specs.declared.commands.command.CommandFault.TheVariants.{OutOfMemory};

use crate::workers::Solving;
use ftl_tokens::Name;
use std::alloc::{AllocError, AllocFailed};

/// What the program is to do.
#[derive(Drop)]
pub enum Command {
    /// Print the boxes of a page.
    Run(Solving),
    /// Say whether the grammar and the schedule of a page are accepted.
    Check,
    /// Print the schedule of a page.
    Schedule,
    /// Show by an example why the schedule of a page is refused, where it has a reader no later
    /// than its writer.
    Explain,
    /// Print the boxes of a page whose schedule plays no part: each value is computed when another
    /// one needs it.
    Demand,
    /// Print the boxes of a page whose inputs have been edited, and how many values the edits
    /// touched.
    Edit(Solving),
    /// Solve the sample of so many pieces in the shipped grammar of this name, and print a summary.
    Sample {
        pieces: u32,
        grammar: Name,
        solving: Solving,
    },
}

/// Why words are no command that was read.
#[derive(Clone, Copy, Debug, PartialEq, Eq)]
pub enum CommandFault {
    /// They are no command.
    BadWords,
    /// No memory was left to read them.
    OutOfMemory,
}

impl From<AllocError> for CommandFault {
    ghost from_gives = { λ _ e. e ≡ OutOfMemory };

    fn from(_: AllocError) -> Self {
        CommandFault::OutOfMemory
    }
}

impl<T: Drop> From<AllocFailed<T>> for CommandFault {
    ghost from_gives = { λ _ e. e ≡ OutOfMemory };

    fn from(_: AllocFailed<T>) -> Self {
        CommandFault::OutOfMemory
    }
}
