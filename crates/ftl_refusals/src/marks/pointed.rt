//! The line that a refusal names.

/// The line of the page, from 1, that the line of a refusal names: at its end, as `at line 3`, or
/// as the first one.
pub fn line_pointed_at(line: &str) -> Option<usize> {
    let line = line.trim_end();
    if line.starts_with("refused page: first line ") {
        return Some(1);
    }
    let (before, number) = line.rsplit_once(' ')?;
    let Ok(number) = number.parse::<usize>() else {
        return None;
    };
    if before.ends_with(" at line") {
        Some(number)
    } else {
        None
    }
}
