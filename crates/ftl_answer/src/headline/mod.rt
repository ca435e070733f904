//! What is promised of a call that writes the answer to its words and to the bytes that its source
//! had left, as a definition without code. `specs/headline/Headline.antt` says what its status,
//! what was written and how far was read tell of the answer, and when exactly one table solves a
//! page; `specs/headline/Promises.antt` what follows of it, the headline among that.

mod laws;
mod promises;

pub use laws::{answers_have_statuses, bytes_do_not_matter, one_table};
pub use promises::{accepted_or_refused, the_headline, what_is_read, what_is_written};
