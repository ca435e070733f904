//! The sections of a page.

use crate::sections::text::Text;
use ftl_base::Width;

/// Which sections a command needs beside the grammar, which each command needs.
#[derive(Clone, Copy, Debug, PartialEq, Eq)]
pub struct Need {
    pub schedule: bool,
    pub document: bool,
    pub edits: bool,
}

/// The width that line 1 names, and the texts of a page's sections: a body, or the text of the
/// shipped grammar that a heading names. `document` and `edits` are `None` where they are not
/// needed, and `schedule` there and for the automatic schedule.
#[derive(Debug, Drop)]
pub struct Page {
    pub width: Width,
    pub grammar: Text,
    pub schedule: Option<Text>,
    pub document: Option<Text>,
    pub edits: Option<Text>,
}
