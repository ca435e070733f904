/// A rule that runs at a node, for the kid of this number; the number is 0 where the rule is for
/// the node itself.
#[derive(Clone, Copy, Debug, PartialEq, Eq)]
pub struct Step {
    pub node: u32,
    pub rule: u32,
    pub kid: u32,
}
