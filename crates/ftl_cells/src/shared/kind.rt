/// Whose work a cell is: filled before, filled by a step of this work, or left empty by it.
#[derive(Clone, Copy, Debug, PartialEq, Eq)]
pub enum CellKind {
    Given,
    Target,
    Later,
}
