//! Why a text is no schedule of a grammar.

ghost use Rattle.std.specs.Prelude.{◌≡◌};
ghost use Rattle.ftl_schedule.specs.declared.names.fault.ScheduleFault.TheVariants as fault;

use ftl_tokens::Name;
use std::alloc::AllocError;

/// Why a text is no schedule of a grammar. Places are counted in bytes, from 0.
#[derive(Drop)]
pub enum ScheduleFault {
    /// The tokens before `at` begin some schedule; with the next one they don't, or there is none.
    Syntax { at: u32 },
    /// There are more passes than 2048, inner ones counted too.
    TooManyPasses { count: u32 },
    /// A stage has more passes than 4; stages, inner ones too, are counted from 1 in the order in
    /// which their first passes begin.
    TooManyBeside { stage: u32, count: u32 },
    /// The names are those of no computed attribute.
    UnknownAttribute { owner: Name, attr: Name },
    /// The name after `nest` is no class.
    UnknownHost { name: Name },
    /// A nest whose host is this class is not closed.
    OpenNest { host: Name },
    /// An attribute of the nest's region in the own list of its pass, or one outside it
    /// in the nest.
    NestAttribute { owner: Name, attr: Name },
    /// No memory was left for the schedule.
    OutOfMemory,
}

impl From<AllocError> for ScheduleFault {
    ghost from_gives = { λ _ e. e ≡ fault.OutOfMemory };

    fn from(_: AllocError) -> Self {
        ScheduleFault::OutOfMemory
    }
}
