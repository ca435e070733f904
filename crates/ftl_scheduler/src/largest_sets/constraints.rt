//! What attributes need.

use lane_rows::BitMatrix;

/// What the attributes of a grammar need in one kind of pass, by number.
#[derive(Drop)]
pub struct Constraints {
    /// From a reader to what has to stand earlier.
    pub earlier: BitMatrix,
    /// From what is written to those that need it earlier.
    pub followers: BitMatrix,
    /// From what is written to those that need it in the same pass or done.
    pub users: BitMatrix,
    /// From a reader to what has to be done.
    pub late: BitMatrix,
}
