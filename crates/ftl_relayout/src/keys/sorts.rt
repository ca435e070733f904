//! The kinds of attributes.
ghost use Rattle.std.specs.Prelude.{◌≡◌, ◌<◌};
ghost use Rattle.ftl_deps.specs.reads.Meant.{meant};
ghost use Rattle.ftl_meaning.specs.grammars.GrammarOf.{declaration_at, sort_of};

use ftl_checked::Checked;
use ftl_grammar::AttrKind;

/// The kind of an attribute.
#[tactic(auto, using(ftl_deps::proofs::reads::AttrKinds::kind_steps))]
pub(crate) fn kind_of(checked: &Checked, attr: u32) -> AttrKind
    ensures kind { sort_of result ≡ (meant checked.now).sort attr }
{
    if attr < checked.attr_count() {
        checked.attr(attr).kind
    } else {
        AttrKind::Input
    }
}
