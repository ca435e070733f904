//! Why a text is no document of a grammar.

ghost use Rattle.std.specs.Prelude.{◌≡◌};
ghost use Rattle.ftl_document.specs.declared.faults.fault.DocFault.TheVariants.{OutOfMemory};

use ftl_tokens::Name;
use std::alloc::{AllocError, AllocFailed};

/// The first fault of a document. Nodes are numbered from 0 in preorder.
#[derive(Drop)]
pub enum DocFault {
    /// More than 512 marks `{` are open after this place of the text, in bytes.
    TooDeep { at: u32 },
    /// There are more than 1048576 marks `{`, so many.
    TooManyNodes { count: u32 },
    /// The text is no document: the place in it, in bytes, where no document goes on so.
    Syntax { at: u32 },
    /// The grammar has no class of this name.
    UnknownClass { node: u32, name: Name },
    /// The node's class is of another interface than the one that is wanted where it stands.
    WrongInterface { node: u32, class: u32, wanted: u32 },
    /// The class has neither an input nor a child of this name.
    UnknownField { node: u32, name: Name },
    /// An earlier field of the node has this name.
    FieldTwice { node: u32, name: Name },
    /// A number for a child, a node or a list for an input, a node for a list child, or a list for
    /// a single child.
    FieldForm { node: u32, name: Name },
    /// The field of a child stands after that of a child that is declared later.
    FieldOrder { node: u32, name: Name },
    /// An input or a child of the class has no field.
    FieldMissing { node: u32, name: Name },
    /// All nodes together have more than 33554432 attributes, so many.
    TooManyInstances { count: u64 },
    /// No memory was left.
    OutOfMemory,
}

impl From<AllocError> for DocFault {
    ghost from_gives = { λ _ e. e ≡ OutOfMemory };

    fn from(_: AllocError) -> Self {
        DocFault::OutOfMemory
    }
}

impl<T: Drop> From<AllocFailed<T>> for DocFault {
    ghost from_gives = { λ _ e. e ≡ OutOfMemory };

    fn from(_: AllocFailed<T>) -> Self {
        DocFault::OutOfMemory
    }
}
