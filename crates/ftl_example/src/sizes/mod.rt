//! The least sizes of trees. Goes in: a grammar and a pair of it. Comes out: by rounds, the size of
//! a least tree of each interface, and of a least tree that shows the pair; none where none is.

mod counted;
mod kid;
mod laws;
mod node_kids;
mod place_sizes;
mod rounds;
mod way_rounds;

pub use counted::{lesser, sum};
pub use kid::{Kid, Kids};
pub use laws::{least_examples, least_rounds, tables_of_sizes};
pub(crate) use node_kids::{child_count, is_for, is_list, reader_kids};
pub(crate) use place_sizes::place_sizes;
pub use rounds::least_sizes;
pub(crate) use rounds::{singles, size_at};
pub(crate) use way_rounds::{way_size, ways, ways_after};
