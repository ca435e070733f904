//! How a page is solved.

ghost use Rattle.std.specs.Prelude.{◌≡◌, option_map};
ghost use Rattle.ftl_page.specs.workers.Solvings.{number_by, solving_by};

use crate::workers::numerals::number;

/// How a page is solved.
#[derive(Clone, Copy, Debug, PartialEq, Eq)]
pub struct Solving {
    /// How many workers solve it, from 1 to 64.
    pub workers: u32,
    /// The most nodes of a subtree that one worker visits at once, from 1 to 1048576.
    pub grain: u32,
}

/// How a page is to be solved, by the texts of the options, where they stand.
pub fn solving_by(workers: Option<&str>, grain: Option<&str>) -> Option<Solving>
    ensures solving { result ≡ solving_by (option_map (λ s. s.now) workers.entry)
        (option_map (λ s. s.now) grain.entry) }
{
    Some(Solving {
        workers: number_by(64, 1, workers)?,
        grain: number_by(1_048_576, 64, grain)?,
    })
}

/// The number of an option, or the default where it does not stand.
fn number_by(greatest: u32, default: u32, text: Option<&str>) -> Option<u32>
    ensures number { result ≡ number_by greatest default (option_map (λ s. s.now) text.entry) }
{
    match text {
        None => Some(default),
        Some(text) => number(greatest, text),
    }
}
