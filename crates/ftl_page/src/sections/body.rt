//! The lines after a heading, up to the next.

ghost use Rattle.std.specs.Prelude.{◌≡◌, ◌+◌, ◌<◌, ◌^◌, ◌++◌, length};
ghost use Rattle.ftl_page.specs.sections.Body.{IsBody};

use crate::sections::line::{is_heading, split_line};

/// A text up to its first heading.
#[derive(Clone, Copy, Debug)]
pub struct Body<'a> {
    pub text: &'a str,
    /// How many lines it has.
    pub lines: u32,
    /// What follows it, from the heading on.
    pub rest: &'a str,
}

/// The lines of `text` before its first heading.
pub fn split_body(text: &str) -> Body<'_>
    requires bound { length text.now < 2 ^ 32 }
    ensures body { IsBody text.now result.text.now result.lines result.rest.now }
{
    let mut rest = text;
    let mut lines = 0;
    while !rest.is_empty() && !is_heading(rest) {
        let (_, after) = split_line(rest);
        lines += 1;
        rest = after;
    }
    let (text, rest) = text.split_at(text.len() - rest.len());
    Body { text, lines, rest }
}
