//! The top calls: words and a page in, boxes or one refusal line out, with a status. What is
//! written is an answer of `ftl_answer::answers`; `ftl_answer::headline` has what is promised of
//! both calls. What the words and the page ask for is found first, then a page that is to be solved
//! is solved, as its schedule says by workers in threads of their own or on the calling thread, or
//! by demand on the calling thread; where it is to be edited, its edits are applied and it is
//! solved anew on the calling thread; and then the answer is written.

mod alone;
mod change;
mod demand;
mod layout;
mod shown;
mod solving;
mod task;
mod workers;

pub use alone::words_alone;
pub use change::{values_of, words_of};
pub use ftl_answer::reading::Status;
pub use layout::{layout_alone, layout_top};
pub use workers::words_by_workers;
