//! Documents as they are written. Goes in: the tokens of a text. Comes out: the document that they
//! spell, whose names mean nothing yet, as one flat list of rows, or the first fault with its place
//! or count. `specs/syntax/Written.antt` has what is written, `specs/syntax/Spelling.antt` which
//! tokens spell it, `specs/syntax/Rows.antt` how it stands in the list, and
//! `specs/syntax/Read.antt` what the reader answers.

mod counts;
mod document;
mod fault;
mod input;
mod laws;
mod name_ref;
mod open;
mod open_rows;
mod read;
mod row;
mod worked;

pub use document::WrittenDocument;
pub use fault::WrittenDocumentFault;
pub(crate) use input::DocumentInput;
pub use laws::{one_answer, one_place, one_written_document};
pub use name_ref::NameRef;
pub(crate) use open::DEEPEST;
pub use read::read_written_document;
pub(crate) use read::{MOST_NODES, document};
pub use row::WrittenRow;
pub use worked::worked_document;
