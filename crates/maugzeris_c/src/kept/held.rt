//! What a C program holds.

ghost use Rattle.std.specs.Prelude.{◌≡◌, ◌≢◌, IsSome, MatchOption, None, Some, nat_eq};

use crate::context::Context;
use crate::kept::handle::Handle;
use crate::kept::parts::Parts;
use std::alloc::Global;

/// A context, or none: `struct maugzeris_context` of the header. Zeros are none.
#[repr(C)]
pub struct Held {
    pub(crate) owner: Handle,
    pub(crate) live: u32,
    ghost known: { live ≡ 1 → IsSome owner.value },
}

impl Held {
    /// Whether there is a context.
    pub(crate) fn is_live(&self) -> bool
        ensures live { result ≡ nat_eq self.now.live 1 }
    {
        self.live == 1
    }

    /// Takes the context out, if there is one. None is left.
    pub(crate) fn take(&mut self, alloc: Global) -> Option<Box<Context>>
        ensures taken { MatchOption result (self.old.live ≢ 1)
            (λ b. (self.old.live ≡ 1) × (self.old.owner.value ≡ Some b.value)) }
        ensures left { MatchOption result (self.new ≡ self.old)
            (λ b. (self.new.live ≡ 0) × (self.new.owner.value ≡ None)) }
    {
        if self.live != 1 {
            return None;
        }
        let empty = Held {
            owner: Handle::empty(alloc),
            live: 0,
        };
        let Held { owner, live: _ } = std::mem::replace(self, empty);
        Some(owner.into_parts().into_box())
    }

    /// Puts a context in, where there is none.
    pub(crate) fn put(&mut self, context: Box<Context>)
        ensures live { self.new.live ≡ 1 }
        ensures value { self.new.owner.value ≡ Some context.value }
    {
        let full = Held {
            owner: Handle::of_parts(Parts::of(context)),
            live: 1,
        };
        let Held { owner, live: _ } = std::mem::replace(self, full);
        drop(owner);
    }
}
