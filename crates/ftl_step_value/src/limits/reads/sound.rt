//! Why counting reads of a checked grammar goes well.
ghost use Rattle.ftl_deps.specs.reads.Meant.{meant};
ghost use Rattle.ftl_step_value.specs.limits.reads.ReadTables.{IsSound};
ghost use Rattle.ftl_visit.specs.compiled.Compilable.{HasCode};

use ftl_checked::Checked;
use ftl_meaning::{faultless_grammars_are_lawful, faultless_grammars_are_small};
use ftl_visit::has_code;

/// A law: a checked grammar is lawful, and within the limits on counts, and its rules have code.
pub fn is_sound(checked: &Checked)
    ensures sound { IsSound (meant checked.now) }
    ensures code { HasCode checked.now.grammar }
{
    has_code(checked.grammar());
    faultless_grammars_are_lawful();
    faultless_grammars_are_small();
}
