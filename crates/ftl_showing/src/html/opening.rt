//! The beginning of each HTML file.

use crate::html::escaped::push_escaped;
use crate::html::style::STYLE;
use std::alloc::AllocError;

/// Appends all that stands before the first panel: the styles, the name of the file as a heading,
/// and what is told beside it.
pub fn push_opening(out: &mut String, name: &str, told: &str) -> Result<(), AllocError> {
    let name = if name == "-" { "standard input" } else { name };
    out.push_str("<!DOCTYPE html>\n<html xmlns=\"http://www.w3.org/1999/xhtml\" lang=\"en\">\n")?;
    out.push_str("<head>\n<meta charset=\"utf-8\"/>\n<meta name=\"viewport\" ")?;
    out.push_str("content=\"width=device-width, initial-scale=1\"/>\n<title>")?;
    push_escaped(out, name)?;
    out.push_str("</title>\n<style>\n")?;
    out.push_str(STYLE)?;
    out.push_str("</style>\n</head>\n<body>\n<header><h1>")?;
    push_escaped(out, name)?;
    out.push_str("</h1><p>")?;
    push_escaped(out, told)?;
    out.push_str("</p></header>\n")
}
