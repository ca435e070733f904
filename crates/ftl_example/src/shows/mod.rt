//! What a tree shows. Goes in: a grammar with its names gone, a tree of it and a pair. Comes out:
//! `specs/shows/Shows.antt`, what it is that a tree shows the pair; `specs/shows/Examples.antt`,
//! what an example of it is; and laws: a pair that is not ordered goes wrong on each tree that
//! shows it.

mod laws;

pub use laws::examples;
