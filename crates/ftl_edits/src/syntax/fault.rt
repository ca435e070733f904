//! Why a text is no edits.

/// Why a text is no edits. Places are counted in bytes, from 0.
#[derive(Clone, Copy, Debug, PartialEq, Eq)]
pub enum WrittenEditsFault {
    /// The tokens before `at` begin some edits; with the next one they don't, or there is none.
    Syntax { at: u32 },
    /// No memory was left for the edits.
    OutOfMemory,
}
