//! The least list of the largest set of attributes that can be taken next. Goes in: what attributes
//! need, as rows of bits, and what is done. Comes out: the list that
//! `specs/largest_sets/LargestList.antt` defines.

mod constraints;
mod largest_list;

pub use constraints::Constraints;
pub use largest_list::list_of;
