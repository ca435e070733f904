//! Pages laid out by calls. Goes in: the texts of a grammar, of a schedule and of a document, and
//! numbers for inputs. Comes out: a page with the value of each attribute, its boxes, and what a
//! change of inputs touched; or the refusal that the program would print.
//!
//! - `refusals`: `Refusal`: why a text is refused
//! - `rules`: `Grammar`, `Rules`: a grammar, and a schedule that computes it
//! - `pages`: `Page`: a document, laid out, changed and laid out anew; `Node`, `Nodes`: its nodes;
//!   `Reads`: what its values are computed from
//! - `building`: `Builder`: a page built by calls, without a text
#![tactic(auto)]

pub mod building;
pub mod pages;
pub mod refusals;
pub mod rules;

pub use building::Builder;
pub use ftl_answer::reading::Status;
pub use ftl_base::{Val, Width};
pub use ftl_edits::{Edit, EditList};
pub use ftl_page::Section;
pub use ftl_tree::InstanceList;
pub use pages::{Node, Nodes, Page, Reads};
pub use refusals::Refusal;
pub use rules::{Grammar, Rules};
