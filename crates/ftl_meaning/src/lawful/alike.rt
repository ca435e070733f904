//! Laws on grammars that agree number by number.

ghost use Rattle.ftl_meaning.specs.lawful.AlikeLaws.{OfAlike, OfStacks, HaveSameTrees};
ghost use Rattle.ftl_meaning.specs.lawful.AlikeLaws.{HaveSameSolutions};

/// A law: a lawful grammar and one that agrees with it number by number have the same trees, and
/// the same tables solve them.
pub fn alike_grammars()
    ensures trees { OfAlike HaveSameTrees }
    ensures solutions { OfAlike HaveSameSolutions }
{}

/// A law: the trees of the stack grammar as it is written are those of the stack grammar that was
/// written out by hand, and the same tables solve them.
pub fn the_written_stack_solves()
    ensures trees { OfStacks HaveSameTrees }
    ensures solutions { OfStacks HaveSameSolutions }
{}
