//! The read at a place of a rule, with its part.
ghost use Rattle.std.specs.Prelude.{◌≡◌, ◌<◌, ℕ, length};
ghost use Rattle.ftl_deps.specs.parts.RuleParts.{parts_meant, read_meant};
ghost use Rattle.ftl_example.specs.pairs.FirstPair.{placed, placed_at};
ghost use Rattle.ftl_example.specs.pairs.PairMeant.{is_child, part_meant};
ghost use Rattle.ftl_example.specs.sizes.Place.{goes_over};

use crate::pairs::refused_pair::RulePart;
use ftl_deps::{PartRead, RuleParts};

/// A read, the part that has it, and the child whose kids the part goes over.
#[derive(Clone, Copy)]
pub struct PlacedRead {
    pub part: RulePart,
    pub over: Option<u32>,
    pub read: PartRead,
}

/// The read at a place of a rule, in the order of the text.
pub fn placed_read(parts: &RuleParts, place: u32) -> PlacedRead
    requires within { place < length (placed (parts_meant parts.now)) }
    ensures read { placed_at (parts_meant parts.now) place
        ≡ (part_meant result.part, read_meant result.read) }
    ensures over { (c : ℕ) → goes_over (parts_meant parts.now) (part_meant result.part) c
        ≡ is_child result.over c }
{
    match parts {
        RuleParts::Plain(reads) => PlacedRead {
            part: RulePart::Plain,
            over: None,
            read: reads.as_slice()[place as usize],
        },
        RuleParts::FirstThen(first, later) => {
            if (place as usize) < first.len() {
                PlacedRead {
                    part: RulePart::First,
                    over: None,
                    read: first.as_slice()[place as usize],
                }
            } else {
                PlacedRead {
                    part: RulePart::Then,
                    over: None,
                    read: later.as_slice()[place as usize - first.len()],
                }
            }
        }
        RuleParts::FoldOver(child, start, step) => {
            if (place as usize) < start.len() {
                PlacedRead {
                    part: RulePart::From,
                    over: None,
                    read: start.as_slice()[place as usize],
                }
            } else {
                PlacedRead {
                    part: RulePart::With,
                    over: Some(*child),
                    read: step.as_slice()[place as usize - start.len()],
                }
            }
        }
    }
}
