//! Values as machine words: a number or Overflow, the operators on them in two widths, and the word
//! that a cell holds. What they mean stands in `ftl_model::layout`, in `Values`, as exact
//! arithmetic on whole numbers, and what comparisons give in `specs/Truths`. The stack of values
//! and truths that code runs on is here too.
#![tactic(auto)]

mod arithmetic;
mod comparison;
mod engine;
mod stack;
mod truth;
mod val;
mod width;
mod word;

pub use arithmetic::{add, div_floor, greatest, least, mul, neg, sub};
pub use comparison::{Cmp, compare};
pub use engine::Engine;
pub use stack::{CodeStack, Entry};
pub use truth::{Truth, both, choose, either, not};
pub use val::Val;
pub use width::Width;
pub use word::{val_of, word_of};
