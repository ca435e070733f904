//! Plans of a layout. Goes in: a checked grammar, a schedule that was accepted for it, whose passes
//! may nest others, the code of its rules and a tree. Comes out: `Plan`, or its first fault, which
//! `specs/plans/Planned.antt` has; the words of the cells before the first stage; each stage as
//! lawful work, `StageWork`, which means what `laws` says that the stage means and drives a filler
//! through an item with each step made once; and the words of the values that solve the tree,
//! computed by one thread, stage after stage. `specs/plans/StageParts.antt` says what a stage is
//! made of, `specs/plans/StageWords.antt` which words fit it, `specs/plans/Driving.antt` where a
//! filler stands around a step, `specs/plans/FormReads.antt` where it stands within one. The work of
//! a stage may be shared by threads, as `proofs/plans/Shared.antt` shows.

mod alone;
mod blocks;
mod filled;
mod fitting;
mod folding;
mod forming;
mod formulas;
mod hosts;
mod items;
mod kept;
mod meant;
mod parts;
mod passes;
mod phases;
mod plan;
mod reading;
mod running;
mod stages;
mod steps;
mod turns;
mod words;
mod work;

pub use alone::solve_alone;
pub use ftl_step_value::limits::PlanFault;
pub use kept::PlanStage;
pub use parts::StageParts;
pub use phases::{ItemPhases, KindPhases};
pub use plan::Plan;
pub use words::first_words;
pub use work::StageWork;
