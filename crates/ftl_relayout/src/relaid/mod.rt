//! Trees laid out anew after edits. Goes in: a tree with its values, and edits of its inputs. Comes
//! out: the tree with the edits applied, its values, and the numbers of the instances that the
//! edits touched. `specs/relaid/Relaid.antt` says what that is.

mod anew;

pub use anew::relayout;
