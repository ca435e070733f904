/// A part of a rule: its one expression; that for the first kid of a list, and that for each later
/// kid; or the start of a fold over a list, and its step.
#[derive(Clone, Copy, Debug, PartialEq, Eq)]
pub enum Part {
    Plain,
    First,
    Then,
    From,
    With,
}
