//! Pages as texts for people. Goes in: the texts of a page's sections. Comes out: the text of the
//! page, its sections one below the other, each in lines that can be read; and only where it is
//! read again as a page whose sections have the same tokens.
//!
//! - `layout`: texts token by token, in lines with indentation
//! - `pages`: `page_of_parts`: the text of a page
#![tactic(auto)]

pub mod layout;
pub mod pages;

pub use layout::{Manner, laid_out};
pub use pages::{Parts, page_of_parts};
