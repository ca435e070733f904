//! Host classes and their regions. The steps from a class to the interfaces of its children, and
//! from an interface to those of the children of its classes, are a matrix (`steps`); where walks
//! of it lead is told by one bit (`region_rows`).

mod laws;
mod region_rows;
mod steps;
mod worked;

pub use laws::kept_sides;
pub use region_rows::Regions;
pub use worked::{regions_of_written_rows, written_rows_that_are_open};
