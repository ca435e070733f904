//! Boxes of contexts whose type names no context, as C may hold them.

ghost use Rattle.std.specs.Prelude.{◌≡◌, IsSome, None, Option, Some};
ghost use Rattle.maugzeris_c.specs.declared.context.entries.Context.{Context};
ghost use Rattle.maugzeris_c.specs.kept.Owned.{context_coded, owns_context};

use crate::context::Context;
use crate::kept::parts::Parts;
use std::alloc::Global;
use std::marker::Model;

/// A box with a context, or nothing. Dropped, it frees no context, so only an empty one is.
#[repr(C)]
#[derive(Drop)]
pub struct Handle {
    ptr: *mut u8,
    alloc: Global,
    pub ghost value: { Option Context } by { context_coded },
}

impl Model for Handle {
    ghost also_owns = { λ h. owns_context h.alloc h.ptr h.value };
}

impl Handle {
    /// The box of these parts.
    pub(crate) fn of_parts(parts: Parts<Context, Global>) -> Handle
        ensures value { result.value ≡ Some parts.value }
    {
        let Parts { ptr, alloc } = parts;
        Handle {
            ptr: ptr as *mut u8,
            alloc,
        }
    }

    /// The parts of the box.
    pub(crate) fn into_parts(self) -> Parts<Context, Global>
        requires full { IsSome self.value }
        ensures value { Some result.value ≡ self.value }
    {
        let Handle { ptr, alloc } = self;
        Parts {
            ptr: ptr as *mut Context,
            alloc,
        }
    }

    /// Nothing.
    pub(crate) fn empty(alloc: Global) -> Handle
        ensures value { result.value ≡ None }
    {
        Handle {
            ptr: std::ptr::null_mut(),
            alloc,
        }
    }
}
