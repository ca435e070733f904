//! The lots as a work of their own. Goes in: lots, and who fills their parts. Comes out: a work
//! whose items are the lots, each of which waits for no other, so that the laws on claims hold of
//! lots.

pub mod laws;
mod lot_work;

pub(crate) use lot_work::LotWork;
