//! What a page is written from.

use ftl_base::Width;

/// The width of a page and the texts of its sections.
#[derive(Debug, Drop)]
pub struct Parts {
    pub width: Width,
    /// The name by which the page has its grammar, where that comes with the program.
    pub named: Option<String>,
    pub grammar: String,
    /// None where the schedule is the automatic one.
    pub schedule: Option<String>,
    pub document: String,
    pub edits: Option<String>,
}
