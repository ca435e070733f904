// Lines of a case: a word and numbers.

/// A word and two numbers; 0 stands for one that is not there.
#[derive(Clone, Copy)]
pub(crate) struct Request<'a> {
    pub(crate) verb: &'a str,
    pub(crate) first: u32,
    pub(crate) second: u32,
}

/// What a line asks for.
pub(crate) fn request_in(line: &str) -> Request<'_> {
    let (verb, numbers) = line.split_once(' ').unwrap_or((line, ""));
    let (first, second) = numbers.split_once(' ').unwrap_or((numbers, ""));
    Request {
        verb,
        first: number(first),
        second: number(second),
    }
}

/// The number that the word writes, or 0.
pub(crate) fn number(word: &str) -> u32 {
    word.parse().unwrap_or(0)
}
