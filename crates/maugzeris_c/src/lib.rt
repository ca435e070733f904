//! Pages laid out by calls from C. Goes in: bytes by pointer and length, and numbers that name a
//! grammar, rules or a page of a context. Comes out: a status, and texts and numbers in buffers of
//! the caller's. `include/maugzeris.h` declares the calls; `specs/kept/OnContext.antt` and
//! `specs/context` say what one does.
//!
//! - `kept`: `Held`, what a C program holds, and the box behind it
//! - `context`: `Context`, the grammars, the rules and the pages that a C program made
//! - `calls`: what C calls
#![tactic(auto)]

pub mod calls;
pub mod context;
pub mod kept;
