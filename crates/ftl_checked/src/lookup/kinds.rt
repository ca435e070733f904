//! Kinds of attributes.
ghost use Rattle.std.specs.Prelude.{◌≡◌};
ghost use Rattle.ftl_meaning.specs.faults.RuleForms.{is_inherited};

use ftl_grammar::AttrKind;

pub fn inherits(kind: AttrKind) -> bool
    ensures inherited { result ≡ is_inherited kind }
{
    match kind {
        AttrKind::Inh => true,
        AttrKind::Syn | AttrKind::Input | AttrKind::Local => false,
    }
}
