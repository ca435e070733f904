//! Why nothing of a grammar is lost where its names go. Goes in: written grammars and their first
//! fault, by `ftl_checked::grammars`, and their meaning, by `grammars`. Comes out: laws, stated by
//! empty functions, in the words of `specs/`. There is no code here.

mod kept;
mod lossy;

pub use kept::{attributes_are_kept, children_are_kept, classes_are_kept, shown_names_are_kept};
pub use lossy::{
    lost_attributes_are_refused, lost_classes_are_refused, lost_shown_names_are_refused,
};
