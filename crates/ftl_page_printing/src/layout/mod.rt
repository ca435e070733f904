//! Texts token by token. Goes in: a text. Comes out: its tokens in lines: of a grammar each
//! declaration and rule in one, of a schedule and a document what fits into one and is shorter than
//! the limit.

mod gaps;
mod grammar;
mod groups;
mod laid;
mod lines;

pub use gaps::Manner;
pub use laid::laid_out;
