//! Documents whose text is plain: in ASCII, without a fault of the syntax. Goes in: a text. Comes
//! out: the document that it spells, read from its bytes without a list of its tokens, or none
//! where something is not plain; what is wrong there, if anything is, the other reader says.
//! `specs/plain/Plain.antt` says which tokens plain bytes have, and `specs/plain/Read.antt` what is
//! promised.

mod bytes;
mod gaps;
mod next;
mod read;
mod runs;
mod text_input;
mod words;

pub(crate) use bytes::{begins_word, goes_on_word, is_digit};
pub(crate) use gaps::gap_length;
pub(crate) use next::plain_mark;
pub use read::rows_of_text;
pub(crate) use runs::word_length;
pub(crate) use text_input::TextInput;
pub(crate) use words::is_name;
