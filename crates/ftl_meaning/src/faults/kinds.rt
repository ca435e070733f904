//! Laws on the words by which attributes are declared.

ghost use Rattle.ftl_grammar.specs.declared.syntax.rules.AttrKind.TheVariants as kinds;
ghost use Rattle.ftl_meaning.specs.faults.Kinds.{HasKinds};
ghost use Rattle.ftl_meaning.specs.faults.WorkedKinds.{shares, adds};

/// A law: which words an attribute may be declared by, in an interface and in a class.
pub fn words_of_attributes()
    ensures shared_input { HasKinds (shares kinds.Input) }
    ensures shared_local { HasKinds (shares kinds.Local) → ⊥ }
    ensures own_local { HasKinds (adds kinds.Local) }
    ensures own_input { HasKinds (adds kinds.Input) }
    ensures own_inherited { HasKinds (adds kinds.Inh) → ⊥ }
    ensures own_synthesized { HasKinds (adds kinds.Syn) → ⊥ }
{}
