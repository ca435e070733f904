//! What becomes of the tree of a page.

use ftl_answer::reading::Shown;
use ftl_page::Text;

/// What becomes of the tree of a page.
#[derive(Drop)]
pub(crate) enum Task {
    /// Its table is shown.
    Show(Shown),
    /// The edits of this text are applied, and the table of the changed tree is shown.
    Edit(Option<Text>),
}
