//! Expressions as what they compute. The syntax of an expression is ten types; a formula is two,
//! with no list in them, and what is said of expressions is said of formulas.
//! `specs/formulas/Formula.antt` has formulas and their reads, `specs/formulas/Expressions.antt`
//! the one fold from the syntax to them, and `proofs/formulas/Equations.antt` what the fold makes
//! of each form.

mod forms;
mod read_name;
mod worked;

pub use forms::formulas_of_forms;
pub use read_name::ReadName;
pub use worked::worked_formulas;
