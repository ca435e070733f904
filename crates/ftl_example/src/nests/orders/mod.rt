//! Orders of the steps of a tree. Goes in: a grammar, a schedule with nests that has each computed
//! attribute once and keeps the sides of its nests, and a tree. Comes out, in laws: the plain order
//! of the flat schedule, which is legal, and the same with the steps first that are early for a
//! step, in which it stands after none that need not come before.

mod laws;

pub use laws::plain_orders_with_nests;
