//! Pages as one HTML file that needs nothing else. Goes in: a page that was laid out, with the text
//! of its file, or the refusal of one. Comes out: its drawing beside its tree, the values of each
//! node and the text; or the text with the place of the refusal marked.
//!
//! - `escaped`: texts as HTML
//! - `source`: the text of a file with its lines numbered
//! - `style`, `script`: what a browser does with the file
//! - `shown`: pages; `refused`: refusals

mod escaped;
mod opening;
mod refused;
mod script;
mod shown;
mod source;
mod style;

pub use refused::refused_html;
pub use shown::shown_html;
