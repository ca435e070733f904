//! What words and a page ask for.

ghost use Rattle.std.specs.Prelude.{◌≡◌};
ghost use Rattle.ftl_answer.specs.declared.reading.requests.request.Undone.TheVariants.{OutOfMemory};

use crate::reading::requests::shown::Shown;
use crate::reading::sections::Decided;
use ftl_page::Solving;
use std::alloc::AllocError;

/// How the values of a tree are computed.
#[derive(Clone, Copy)]
pub enum Evaluation {
    /// As the page's schedule says, by so many workers.
    Scheduled(Solving),
    /// Each when another one needs it. No schedule plays a part.
    ByDemand,
}

/// A page that is to be solved, and what is to be shown of its table.
#[derive(Drop)]
pub struct Problem {
    pub shown: Shown,
    pub evaluation: Evaluation,
    pub bytes: Vec<u8>,
}

/// A page that is to be solved, edited and solved anew.
#[derive(Drop)]
pub struct EditedPage {
    /// How it is solved before its edits.
    pub solving: Solving,
    pub bytes: Vec<u8>,
}

/// What words and a page ask for.
#[derive(Drop)]
pub enum Request {
    /// Nothing is left to be solved.
    Answered(Decided),
    /// A page is to be solved.
    Solve(Problem),
    /// A page is to be solved, edited and solved anew.
    Edit(EditedPage),
}

/// Why nothing was decided.
#[derive(Clone, Copy)]
pub enum Undone {
    ReadFault,
    OutOfMemory,
}

impl From<AllocError> for Undone {
    ghost from_gives = { λ _ e. e ≡ OutOfMemory };

    fn from(_: AllocError) -> Self {
        Undone::OutOfMemory
    }
}
