//! Statuses of answers.

/// The status to end with.
#[derive(Clone, Copy, Debug, PartialEq, Eq)]
pub struct Status(pub u8);

impl Status {
    /// What the command asked for.
    pub const DONE: Status = Status(0);
    /// Writing failed.
    pub const WRITE_FAULT: Status = Status(1);
    /// The words are no command.
    pub const BAD_WORDS: Status = Status(2);
    /// Reading failed.
    pub const READ_FAULT: Status = Status(3);
    /// The page was refused.
    pub const PAGE_REFUSED: Status = Status(4);
    /// The grammar was refused.
    pub const GRAMMAR_REFUSED: Status = Status(5);
    /// The schedule was refused.
    pub const SCHEDULE_REFUSED: Status = Status(6);
    /// The document was refused.
    pub const DOCUMENT_REFUSED: Status = Status(7);
    /// The edits were refused.
    pub const EDITS_REFUSED: Status = Status(10);
    /// What the command asked for, with Overflow among the shown values.
    pub const OVERFLOW: Status = Status(8);
    /// Memory ran out.
    pub const OUT_OF_MEMORY: Status = Status(9);
}
