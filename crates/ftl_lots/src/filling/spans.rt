//! Which items those of a lot lie between.
ghost use Rattle.std.specs.Prelude.{◌≡◌, ℕ, ◌+◌, ◌^◌, ◌<◌, length, vec_len, IfOk, min};
ghost use Rattle.ftl_cells.specs.work_phases.Phases.{phase_at};
ghost use Rattle.ftl_cells.specs.declared.work_phases.phase.Phase.TheVariants.{Range};
ghost use Rattle.ftl_lots.specs.filling.Spans.{AreSpans};

use ftl_cells::{Phase, Phases};
use std::alloc::{AllocError, Global};

/// The items from one on, up to another that is not among them.
#[derive(Clone, Copy)]
pub(crate) struct Span {
    pub(crate) from: u32,
    pub(crate) to: u32,
}

impl Span {
    /// Up to behind an item that none of it comes after.
    fn widened(self, item: u32) -> Span
        requires item { item + 1 < 2 ^ 32 }
        ensures from { result.from ≡ min self.from item }
        ensures to { result.to ≡ item + 1 }
    {
        Span {
            from: self.from.min(item),
            to: item + 1,
        }
    }
}

/// The span of each range's items, so that a range is filled without a look at all others.
pub(crate) fn spans_of(alloc: Global, phases: &Phases, items: u32) -> Result<Vec<Span>, AllocError>
    requires count { length phases.now.phases.items ≡ items }
    requires known { (i b : ℕ) → phase_at phases.now i ≡ Range b → b < phases.now.ranges }
    ensures count { IfOk result (λ v. vec_len v ≡ phases.now.ranges) }
    ensures spans { IfOk result (λ v. AreSpans phases.now items v.items) }
{
    let none = Span {
        from: u32::MAX,
        to: 0,
    };
    let mut spans = Vec::from_elem(alloc, none, phases.ranges as usize)?;
    for item in 0..items {
        if let Phase::Range(range) = phases.phases[item as usize] {
            spans[range as usize] = spans[range as usize].widened(item);
        }
    }
    Ok(spans)
}
