//! The numbers of the items of a stage, as definitions and laws without code. Goes in: a tree of a
//! grammar, the passes of a stage and how many nodes an item has at most. Comes out:
//! `specs/numbers/ItemNumbers.antt`, which number the item of a node has and to which numbers it
//! hands on, by counts over the nodes in preorder; `specs/numbers/NumberLaws.antt`, that these are
//! the items of `stage_items`.

mod number_laws;
mod worked_numbers;

pub use number_laws::item_numbers;
pub use worked_numbers::numbers_of_two_words;
