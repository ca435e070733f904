//! Why a grammar is not lawful.

ghost use Rattle.std.specs.Prelude.{◌≡◌};
ghost use Rattle.ftl_meaning.specs.declared.faults.fault.GrammarFault.TheVariants.{OutOfMemory};

use crate::faults::rule_name::RuleName;
use crate::formulas::ReadName;
use ftl_tokens::Name;
use std::alloc::{AllocError, AllocFailed};

/// What a grammar may have only so many of.
#[derive(Clone, Copy, Debug, PartialEq, Eq)]
pub enum What {
    /// Interfaces, at most 128.
    Interfaces,
    /// Classes, at most 128.
    Classes,
    /// Attributes of an interface, or of a class's own, at most 64.
    Attributes,
    /// Children of a class, at most 16.
    Children,
    /// Attributes in all, at most 2048.
    AllAttributes,
    /// Reads in one expression of a rule, at most 256; `acc` is none.
    Reads,
}

/// The first fault of a grammar.
#[derive(Drop)]
pub enum GrammarFault {
    /// There are more than there may be.
    TooMany { what: What, count: u32 },
    /// The name stands twice where it may stand once.
    TwiceNamed { name: Name },
    /// The root is no interface.
    RootMissing { name: Name },
    /// The name is shown and no attribute, or stands for an interface and is none.
    UnknownName { name: Name },
    /// The root's interface has an inherited attribute.
    RootInherits { name: Name },
    /// The rule is for nothing that a rule may define.
    NotAssignable { rule: RuleName },
    /// `first` stands on a single child, or a fold goes over no list.
    BadForm { rule: RuleName },
    /// An earlier rule of the class has this target.
    TwiceRuled { rule: RuleName },
    /// The read is not allowed where it stands, or names nothing.
    BadRead { rule: RuleName, read: ReadName },
    /// The attribute has no rule.
    MissingRule { rule: RuleName },
    /// No memory was left for the names.
    OutOfMemory,
}

impl From<AllocError> for GrammarFault {
    ghost from_gives = { λ _ e. e ≡ OutOfMemory };

    fn from(_: AllocError) -> Self {
        GrammarFault::OutOfMemory
    }
}

impl<T: Drop> From<AllocFailed<T>> for GrammarFault {
    ghost from_gives = { λ _ e. e ≡ OutOfMemory };

    fn from(_: AllocFailed<T>) -> Self {
        GrammarFault::OutOfMemory
    }
}
