//! Refusals for people. Goes in: the line that refuses a page, the bytes of its file and the texts
//! of its sections. Comes out: the place in the file that the line means, what was expected there,
//! where else to look, and what may have been meant; and all of it as a text.
//!
//! - `places`: lines and columns of a file, and where its sections begin
//! - `tokens`: the tokens of a section, and what they say
//! - `outline`: what the tokens of a section are
//! - `marks`: marks in a file, and refusals as texts
//! - `reasons`: what a refusal means, and what was expected
#![tactic(auto)]

pub mod marks;
pub mod outline;
pub mod places;
pub mod reasons;
pub mod tokens;

pub use marks::{Mark, Spot, line_pointed_at, mark_of, mark_of_token, print_refusal, width_of};
pub use reasons::{Case, Range, Reason, Sources, heading_word, page_notes, reason_of, scans_of};
