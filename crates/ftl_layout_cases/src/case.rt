//! Cases: words, a page, and what goes wrong.
use std::alloc::{AllocError, Global};
use std::fmt::Write;

/// What a case runs the program with.
#[derive(Drop)]
pub(crate) struct Case {
    pub words: Vec<String>,
    pub page: Vec<u8>,
    /// The numbers of the calls of the source that fail.
    pub failing_reads: Vec<u64>,
    /// The numbers of the calls of the sink that fail.
    pub failing_writes: Vec<u64>,
    /// Whether of the lines that are written the first and the last alone are shown.
    pub brief: bool,
}

impl Case {
    /// The case with this heading and this page.
    pub(crate) fn new(alloc: Global, heading: &str, page: &str) -> Result<Case, AllocError> {
        let (first, rest) = heading.split_once(' ').unwrap_or((heading, ""));
        let mut case = Case {
            words: Vec::new(alloc),
            page: page_of(alloc, page)?,
            failing_reads: Vec::new(alloc),
            failing_writes: Vec::new(alloc),
            brief: first == "brief" || first == "chains",
        };
        let (number, words) = rest.split_once(' ').unwrap_or((rest, ""));
        let count = number.parse::<u32>().unwrap_or(0);
        match first {
            "brief" => {
                case.words = words_of(alloc, rest)?;
                return Ok(case);
            }
            "source" => case.failing_reads.push(u64::from(count))?,
            "sink" => case.failing_writes.push(u64::from(count))?,
            "chains" => case.page = page_of_chains(alloc, count)?.into_bytes(),
            "padded" => add_spaces(&mut case.page, count)?,
            "spaces" => case.page = bytes(alloc, b' ', count)?,
            "byte" => case.page = bytes(alloc, number.parse::<u8>().unwrap_or(0), 1)?,
            _ => {
                case.words = words_of(alloc, heading)?;
                return Ok(case);
            }
        }
        case.words = words_of(alloc, words)?;
        Ok(case)
    }
}

/// The page, where a line that begins with `*` and a number stands there so many times.
fn page_of(alloc: Global, page: &str) -> Result<Vec<u8>, AllocError> {
    let mut bytes = Vec::new(alloc);
    for line in page.lines() {
        add_line(&mut bytes, line)?;
    }
    Ok(bytes)
}

fn add_line(bytes: &mut Vec<u8>, line: &str) -> Result<(), AllocError> {
    let (count, text) = repeated(line);
    for _ in 0..count {
        bytes.extend_from_slice(text.as_bytes())?;
        bytes.push(b'\n')?;
    }
    Ok(())
}

/// How many times a line stands there, and its text.
fn repeated(line: &str) -> (u32, &str) {
    match line.strip_prefix('*') {
        Some(rest) => {
            let (count, text) = rest.split_once(' ').unwrap_or((rest, ""));
            (count.parse::<u32>().unwrap_or(0), text)
        }
        None => (1, line),
    }
}

/// Adds spaces until there are so many bytes.
fn add_spaces(page: &mut Vec<u8>, count: u32) -> Result<(), AllocError> {
    for _ in page.len()..count as usize {
        page.push(b' ')?;
    }
    Ok(())
}

/// How many columns a chain has.
const COLUMNS: u32 = 300;

/// A page of a column of so many chains: columns of one kid each, and a word below them, which in
/// the first chain has the size 1, in the second the size 2, and so on.
fn page_of_chains(alloc: Global, count: u32) -> Result<String, AllocError> {
    let mut page = String::from_str(
        alloc,
        "%page 1\n%grammar stack\n%schedule auto\n%document\n",
    )?;
    page.push_str("Sheet { body = Column { kids = [\n")?;
    for chain in 0..count {
        push_times(&mut page, "Column { kids = [ ")?;
        let size = u64::from(chain) + 1;
        write!(page, "Word {{ iw = {size} ih = {size} }}")?;
        push_times(&mut page, " ] }")?;
        page.push_str("\n")?;
    }
    page.push_str("] } }\n")?;
    Ok(page)
}

/// Adds a text once for each column of a chain.
fn push_times(page: &mut String, text: &str) -> Result<(), AllocError> {
    for _ in 0..COLUMNS {
        page.push_str(text)?;
    }
    Ok(())
}

/// So many times this byte.
fn bytes(alloc: Global, byte: u8, count: u32) -> Result<Vec<u8>, AllocError> {
    let mut bytes = Vec::with_capacity(alloc, count as usize)?;
    for _ in 0..count {
        bytes.push(byte)?;
    }
    Ok(bytes)
}

/// The words of a line.
fn words_of(alloc: Global, line: &str) -> Result<Vec<String>, AllocError> {
    let mut words = Vec::new(alloc);
    for word in line.split_whitespace() {
        words.push(String::from_str(alloc, word)?)?;
    }
    Ok(words)
}
