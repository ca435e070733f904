//! Rules by name.

use ftl_tokens::Name;

/// What a rule defines, by name.
#[derive(Drop)]
pub struct RuleName {
    /// The class that has the rule.
    pub class: Name,
    /// The child whose kids the rule is for; none where it is for the node itself.
    pub child: Option<Name>,
    /// The attribute that it defines.
    pub attr: Name,
}
