//! A box that a C program holds. Goes in: a box with a context. Comes out: `Held`, which C keeps
//! and hands back at each call, and the box again. C never reads its pointer.

pub mod handle;
pub mod held;
pub mod parts;

pub use held::Held;
