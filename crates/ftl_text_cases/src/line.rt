//! The text that a line stands for.

use std::alloc::{AllocError, Global};

/// The text that a line stands for: between backquotes stands the number of a character, as in
/// `` a`769`b ``, or a number and what stands there so many times, as in `` `64 (` ``.
pub(crate) fn text_of(alloc: Global, line: &str) -> Result<String, AllocError> {
    let mut text = String::new(alloc);
    let mut quoted = false;
    for part in line.split('`') {
        if quoted {
            push_quoted(&mut text, part)?;
        } else {
            text.push_str(part)?;
        }
        quoted = !quoted;
    }
    Ok(text)
}

fn push_quoted(text: &mut String, part: &str) -> Result<(), AllocError> {
    let Some((times, middle)) = part.split_once(' ') else {
        return text.push(char_of(part));
    };
    for _time in 0..times.parse::<u32>().unwrap_or(0) {
        text.push_str(middle)?;
    }
    Ok(())
}

fn char_of(number: &str) -> char {
    let number = number.parse::<u32>().unwrap_or(0);
    char::from_u32(number).unwrap_or(char::REPLACEMENT_CHARACTER)
}
