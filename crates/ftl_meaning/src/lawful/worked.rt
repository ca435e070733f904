//! Laws on grammars that were typed out by hand.

ghost use Rattle.ftl_meaning.specs.faults.Worked as written;
ghost use Rattle.ftl_meaning.specs.grammars.Worked.{two, branches};
ghost use Rattle.ftl_meaning.specs.lawful.Faultless.{IsFaultless};

/// A law: grammars without a fault.
pub fn grammars_without_a_fault()
    ensures stack { IsFaultless written.stack }
    ensures two { IsFaultless two }
    ensures chain { IsFaultless (written.chain_with (written.num 1)) }
    ensures branches { IsFaultless branches }
{}
