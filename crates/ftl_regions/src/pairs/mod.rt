//! The table of ordered reads with nests as tests, and the first pair that fails one, as
//! definitions and laws without code.

mod laws;
mod worked;

pub use laws::refused_pairs;
pub use worked::first_refused_pairs;
