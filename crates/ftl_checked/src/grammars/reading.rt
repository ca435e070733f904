//! Where an expression stands in a rule.
ghost use Rattle.std.specs.Prelude.{◌≡◌};
ghost use Rattle.ftl_meaning.specs.faults.Allowed.{may_read_acc, may_read_last};
ghost use Rattle.ftl_checked.specs.grammars.Positions.{position_of};

/// Where an expression stands in a rule.
#[derive(Clone, Copy)]
pub enum At {
    ForSelf,
    ForSingle,
    ForKids(u32),
    ForLater(u32),
    InStep(u32),
}

pub(crate) fn reads_last(at: At) -> bool
    ensures last { result ≡ may_read_last (position_of at) }
{
    match at {
        At::ForSelf | At::ForSingle | At::InStep(_) => true,
        At::ForKids(_) | At::ForLater(_) => false,
    }
}

pub(crate) fn reads_acc(at: At) -> bool
    ensures acc { result ≡ may_read_acc (position_of at) }
{
    match at {
        At::InStep(_) => true,
        At::ForSelf | At::ForSingle | At::ForKids(_) | At::ForLater(_) => false,
    }
}
