//! Why a text is no schedule.

/// Why a text is no schedule. Places are counted in bytes, from 0.
#[derive(Clone, Copy, Debug, PartialEq, Eq)]
pub enum WrittenFault {
    /// The tokens before `at` begin some schedule; with the next one they don't, or there is none.
    Syntax { at: u32 },
    /// No memory was left for the schedule.
    OutOfMemory,
}
