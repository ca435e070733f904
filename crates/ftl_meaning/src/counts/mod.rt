//! Counts of grammars that texts spell. Goes in: a grammar that was read. Comes out: that 32 bits
//! hold all counts of the grammar, and that each attribute is declared by a word that may stand
//! there.

mod counts;

pub use counts::{counts_of_spelled_grammars, small_counts};
