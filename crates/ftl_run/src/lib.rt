//! The top calls. Goes in: words, a page in a source, a sink. Comes out: the boxes, the text that
//! is asked for, or one refusal line, with a status; what is written is an answer as `ftl_answer`
//! defines it, the only one but for explanations of refused schedules.
//!
//! - `solve`: `solve`: all stages of a plan, each by workers
//! - `calls`: `layout_top`, by workers, and `layout_alone`, on the calling thread
#![tactic(auto)]

pub mod calls;
pub mod solve;

pub use calls::{Status, layout_alone, layout_top};
