//! How steps compute by a few cells of neighbours. Goes in: a checked grammar with the code of its
//! rules and what they read of neighbours; then a step of a tree. Comes out: a table, made once,
//! with a form for each rule whose code has one; then the form of the step, with the nodes at which
//! it reads and fills. `specs/forms/StepForms.antt` has the words.

mod choice;
mod entry;
mod fold_form;
mod formula;
mod found;
mod found_fold;
mod joined;
mod operator;
mod part_form;
mod step_form;
mod table;
mod turned;

pub use fold_form::{FoldForm, FoldStep};
pub use found::{FormStep, form_at, kid_form_at, own_form_at, rule_form};
pub use found_fold::{FoundFold, fold_of};
pub use operator::{Operator, divided, operated};
pub use step_form::{Question, RuleForm, StepForm};
pub use table::rule_forms;
