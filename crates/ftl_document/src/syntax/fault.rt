//! Why a text is no document.

/// Why a text is no document. Places are counted in bytes, from 0.
#[derive(Clone, Copy, Debug, PartialEq, Eq)]
pub enum WrittenDocumentFault {
    /// At the token that begins at `at` more than 512 of the marks `{` are open.
    TooDeep { at: u32 },
    /// There are more than 1048576 of the marks `{`.
    TooManyNodes { count: u32 },
    /// The tokens before `at` begin some document; with the next one they don't, or there is none.
    Syntax { at: u32 },
    /// No memory was left for the document.
    OutOfMemory,
}
