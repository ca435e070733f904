//! Works for the programs that run them, each with its laws: a chain, two chains side by side, a
//! star, items alone, and items over a borrowed slice. An `Example` tells the words of its cells
//! before, and a `Solved` work the value of each cell after. What the definitions of
//! `ftl_cells::shared` give on small numbers and on the diamond stands in `examples`.

mod chain;
mod eight;
mod example;
pub mod examples;
mod ladder;
mod lent;
mod star;

pub use chain::Chain;
pub use eight::EightAlone;
pub use example::{Example, Solved};
pub use ladder::Ladder;
pub use lent::Lent;
pub use star::Star;
