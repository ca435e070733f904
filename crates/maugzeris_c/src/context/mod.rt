//! What a C program made. Goes in: bytes of texts, and numbers that name grammars, rules, pages,
//! nodes and attributes. Comes out: `Context`, which contracts see as its grammars, its rules, its
//! pages and the line of the last refusal: `specs/context/State.antt`. `kept` has what stays in
//! memory, `open_page` one page, `entries` the lists, `opening` reads texts into them, `changing`
//! lays pages out and changes them, `telling` tells values and texts, `fault` says why a call is
//! not done.

pub mod changing;
pub mod entries;
pub mod fault;
pub mod filling;
pub mod kept;
pub mod open_page;
pub mod opening;
pub mod telling;

pub use entries::Context;
pub use fault::Fault;
