//! Why a text is no grammar.

/// Why a text is no grammar. Places are counted in bytes, from 0.
#[derive(Clone, Copy, Debug, PartialEq, Eq)]
pub enum SyntaxFault {
    /// More than 64 of the marks `(` and `[` are open at the token that starts at `at`.
    TooDeep { at: u32 },
    /// The tokens before `at` begin some grammar; with the next one they don't, or there is none.
    Syntax { at: u32 },
    /// No memory was left for the grammar.
    OutOfMemory,
}
