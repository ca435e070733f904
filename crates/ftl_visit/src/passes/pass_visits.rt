//! The visits of a pass.
ghost use Rattle.std.specs.Prelude.{◌≡◌, ◌++◌, ◌<◌, ◌≤◌, [], ◌∷◌, length, IfOk, OnOk};
ghost use Rattle.std.specs.Prelude.{slice_index_or, slice_range};
ghost use Rattle.ftl_deps.specs.reads.Meant.{meant};
ghost use Rattle.ftl_visit.specs.passes.Runs.{IsCut, runs};
ghost use Rattle.ftl_visit.specs.passes.VisitRows.{visits_of};

use crate::visits::{RuleIndex, VisitOp, visit_list};
use ftl_schedule::PassKind;
use std::alloc::{AllocError, Global};
use std::marker::Model;

/// The visits of all classes in one pass, side by side. Contracts see the visit of each class.
#[derive(Drop)]
pub struct PassVisits {
    ops: Vec<VisitOp>,
    starts: Vec<usize>,
}

impl Model for PassVisits {
    ghost use Rattle.std.specs.Prelude.{List};
    ghost use Rattle.ftl_visit.specs.declared.visits.visit_op.VisitOp.{VisitOp};

    ghost Value = { List (List VisitOp) };

    ghost use Rattle.ftl_visit.specs.passes.Runs.{IsCut, runs};

    ghost view = { λ v. runs v.starts.items v.ops.items };

    ghost invariant = { λ v. IsCut v.starts.items v.ops.items };
}

impl PassVisits {
    /// The visits of a pass of this kind with this list of attributes.
    pub fn new(
        alloc: Global,
        index: &RuleIndex<'_>,
        kind: PassKind,
        attrs: &[u32],
    ) -> Result<PassVisits, AllocError>
        ensures visits { IfOk result (λ v. v ≡ visits_of (meant index.now) kind attrs.now) }
    {
        let mut ops = Vec::new(alloc);
        let mut starts = Vec::new(alloc);
        starts.push(0)?;
        for class in 0..index.checked().class_count() {
            let visit = visit_list(alloc, index, kind, attrs, class)?;
            add_run(&mut ops, &mut starts, visit.as_slice())?;
        }
        Ok(PassVisits { ops, starts })
    }

    /// The visit of a class.
    pub fn visit(&self, class: u32) -> &[VisitOp]
        requires class { class < length self.now }
        ensures visit { result.now ≡ slice_index_or self.now class [] }
    {
        let starts = self.starts.as_slice();
        let start = starts[class as usize];
        let end = starts[class as usize + 1];
        part_of(self.ops.as_slice(), start, end)
    }
}

fn part_of(ops: &[VisitOp], start: usize, end: usize) -> &[VisitOp]
    requires order { start ≤ end }
    requires within { end ≤ length ops.now }
    ensures part { result.now ≡ slice_range ops.now start end }
{
    &ops[start..end]
}

/// Adds a run behind those that are there.
fn add_run(
    ops: &mut Vec<VisitOp>,
    starts: &mut Vec<usize>,
    run: &[VisitOp],
) -> Result<(), AllocError>
    requires cut { IsCut starts.old.items ops.old.items }
    ensures cut { OnOk result (IsCut starts.new.items ops.new.items) }
    ensures added { OnOk result (runs starts.new.items ops.new.items
        ≡ runs starts.old.items ops.old.items ++ run.now ∷ []) }
{
    ops.extend_from_slice(run)?;
    starts.push(ops.len())?;
    Ok(())
}
