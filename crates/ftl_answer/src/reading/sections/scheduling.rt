//! The schedule of a text, or the automatic one.

ghost use Rattle.std.specs.Prelude.{◌≡◌, ◌≤◌, length, IfOk, IfSome};
ghost use Rattle.ftl_model.specs.layout.Limits.{most_page_bytes};
ghost use Rattle.ftl_answer.specs.answers.Texts.{schedule};
ghost use Rattle.ftl_answer.specs.reading.sections.Outcomes.{IsOutcome};

use crate::reading::sections::automatic::automatic_schedule;
use crate::reading::sections::decision::Undecided;
use crate::reading::sections::written::written_schedule;
use ftl_checked::Checked;
use ftl_nest_check::AcceptedNests;
use ftl_page::Text;
use std::alloc::Global;

/// The schedule that the text spells, or the automatic one where there is none.
#[inline(never)]
pub fn schedule_of<'a>(
    alloc: Global,
    checked: &'a Checked,
    text: Option<Text>,
) -> Result<AcceptedNests<'a>, Undecided>
    requires short { IfSome text (λ t. length t ≤ most_page_bytes) }
    ensures outcome { IsOutcome (schedule checked.now text) (λ s. s.schedule) result }
    ensures grammar { IfOk result (λ s. s.checked ≡ checked.now) }
{
    match text {
        None => automatic_schedule(alloc, checked),
        Some(text) => written_schedule(alloc, checked, text.into_string()),
    }
}
