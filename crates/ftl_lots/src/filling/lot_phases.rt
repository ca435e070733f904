//! The phases of the items of a work, and which items those of each range lie between.
ghost use Rattle.std.specs.Prelude.{◌≡◌, ℕ, ◌<◌, length, IfOk};
ghost use Rattle.ftl_cells.specs.work_phases.Phases.{phase_at};
ghost use Rattle.ftl_cells.specs.declared.work_phases.phase.Phase.TheVariants.{Range};

use crate::filling::spans::{Span, spans_of};
use ftl_cells::Phases;
use std::alloc::{AllocError, Global};
use std::marker::Model;

/// Phases with the span of each range, which are kept as long as the phases stay as they are.
/// Contracts see the phases.
#[derive(Drop)]
pub struct LotPhases {
    pub(crate) phases: Phases,
    pub(crate) spans: Vec<Span>,
}

impl Model for LotPhases {
    ghost use Rattle.std.specs.Prelude.{◌≡◌, length, vec_len};
    ghost use Rattle.ftl_cells.specs.declared.work_phases.phase.Phases.{Phases};
    ghost use Rattle.ftl_lots.specs.filling.Spans.{AreSpans};

    ghost Value = { Phases };

    ghost view = { λ p. p.phases };

    ghost invariant = { λ p. (vec_len p.spans ≡ p.phases.ranges)
        × AreSpans p.phases (length p.phases.phases.items) p.spans.items };
}

impl LotPhases {
    /// The phases of so many items.
    pub fn new(alloc: Global, phases: Phases, items: u32) -> Result<LotPhases, AllocError>
        requires count { length phases.phases.items ≡ items }
        requires known { (i b : ℕ) → phase_at phases i ≡ Range b → b < phases.ranges }
        ensures phases { IfOk result (λ t. t ≡ phases) }
    {
        let spans = spans_of(alloc, &phases, items)?;
        Ok(LotPhases { phases, spans })
    }
}
