//! Expressions of grammar texts, read from their tokens. Each function reads as the reading
//! function of its name does; those stand in `syntax`, in `specs/SumReading.antt` and
//! `specs/ExpressionReading.antt`. `specs/expressions/Nests.antt` says what is asked of the
//! functions that read what stands between brackets.

mod conds;
mod depth;
mod nested;
mod reads;
mod sums;

pub use depth::expr;
pub use reads::dot_name;
