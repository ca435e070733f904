//! What is written of an example of a refused pair. Goes in: a tree, and two instances and an order
//! of computed ones by number. Comes out: the text that `specs/answers/Explanations.antt` says an
//! example has.

mod print;
mod rows;

pub use print::print_example;
pub use rows::InstanceRow;
