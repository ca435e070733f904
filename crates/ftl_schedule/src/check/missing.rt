//! The first computed attribute without an entry.

ghost use Rattle.std.specs.Prelude.{◌≡◌};
ghost use Rattle.ftl_order.specs.orders.Schedule.{entries};
ghost use Rattle.ftl_schedule.specs.stages.Stages.{stages_of};
ghost use Rattle.ftl_order.specs.faults.FirstFault.{first_missing, missing_fault};
ghost use Rattle.ftl_deps.specs.reads.Meant.{meant};

use crate::check::kinds::{attribute_count, is_input};
use crate::places::Placed;
use ftl_checked::Checked;
use ftl_order::VerifyFault;

/// The first computed attribute by number that has no entry.
#[tactic(auto, using(crate::proofs::check::FaultsAlong::number_steps))]
pub fn first_missing(checked: &Checked, placed: &Placed) -> Option<VerifyFault>
    ensures fault { result ≡ first_missing (meant checked.now) (entries (stages_of placed.now)) }
{
    for attr in 0..attribute_count(checked) {
        if let Some(fault) = missing_fault(checked, placed, attr) {
            return Some(fault);
        }
    }
    None
}

fn missing_fault(checked: &Checked, placed: &Placed, attr: u32) -> Option<VerifyFault>
    ensures fault { result
        ≡ missing_fault (meant checked.now) (entries (stages_of placed.now)) attr }
{
    if !is_input(checked, attr) && !placed.has_entry(attr) {
        Some(VerifyFault::Missing { attr })
    } else {
        None
    }
}
