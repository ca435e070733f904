//! The kinds of attributes, and how many there are.

ghost use Rattle.std.specs.Prelude.{◌≡◌};
ghost use Rattle.ftl_model.specs.layout.AttributeGrammar.{is_input};
ghost use Rattle.ftl_order.specs.orders.Ordered.{block_of};
ghost use Rattle.ftl_deps.specs.reads.Meant.{meant};
ghost use Rattle.ftl_meaning.specs.grammars.GrammarOf.{declaration_at};

use ftl_checked::Checked;
use ftl_grammar::AttrKind;

/// How many attributes the grammar has.
#[tactic(auto, using(crate::proofs::check::AttributeKinds::attribute_count_is))]
pub fn attribute_count(checked: &Checked) -> u32
    ensures count { result ≡ (meant checked.now).attribute_count }
{
    checked.attr_count()
}

/// Whether the attribute is an input.
pub fn is_input(checked: &Checked, attr: u32) -> bool
    ensures input { result ≡ is_input ((meant checked.now).sort attr) }
{
    match kind_of(checked, attr) {
        AttrKind::Input => true,
        AttrKind::Inh | AttrKind::Syn | AttrKind::Local => false,
    }
}

/// The block of a visit that has the rules for an attribute of the node itself.
pub(crate) fn block_of(checked: &Checked, attr: u32) -> u32
    ensures block { result ≡ block_of ((meant checked.now).sort attr) }
{
    match kind_of(checked, attr) {
        AttrKind::Input | AttrKind::Local => 0,
        AttrKind::Inh => 1,
        AttrKind::Syn => 2,
    }
}

/// The kind of an attribute; past the end that of an input.
#[tactic(auto, using(ftl_deps::proofs::reads::AttrKinds::kind_steps))]
fn kind_of(checked: &Checked, attr: u32) -> AttrKind
    ensures kind { result ≡ (declaration_at checked.now.grammar attr).kind }
{
    if attr < checked.attr_count() {
        checked.attr(attr).kind
    } else {
        AttrKind::Input
    }
}
