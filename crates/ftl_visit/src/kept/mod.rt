//! Code as it is kept. Goes in: code of `rule_code`. Comes out: code that can stand for it, in
//! which what has no read is computed; `specs/kept/Kept.antt` says what that is, and
//! `specs/kept/Constants.antt` what instructions make of constants.

mod constants;
mod keep;
mod last;
mod laws;
mod made;

pub(crate) use keep::kept_code;
pub use laws::constants_of_each_operator;
