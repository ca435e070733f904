//! The name of a grammar goes in, and the text that comes with the program under this name comes
//! out; with a number, a page of so many pieces in this grammar. `specs/Shipped.antt` says which
//! names these are, `specs/Stack.antt` and the others spell the texts line by line, and
//! `specs/SamplePage.antt`, `specs/Sample.antt` and `specs/Numbers.antt` say what a sample is.
#![tactic(auto)]

mod block;
mod fault;
mod float;
mod flow;
mod grammar;
mod groups;
mod inline;
mod numbers;
mod pieces;
mod sample;
mod shipping;
mod stack;
mod table;
mod worked;

pub use fault::SampleFault;
pub use sample::sample_page;
pub use shipping::{shipped, shipped_by_bytes};
pub use worked::{
    a_sample_of_two_pieces, grids, samples_of_eight_pieces, samples_of_nine_pieces,
    samples_of_one_piece,
};
