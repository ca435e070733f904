//! Laws of printed schedules.

ghost use Rattle.ftl_schedule.specs.printing.ReadBack.{OfTextsAreReadBack, PrintedAreReadBack};
ghost use Rattle.ftl_schedule.specs.printing.ReadBack.{ReadAreReadBack};

use crate::text::canonical_schedules;
use ftl_meaning::faultless_grammars_are_lawful;

/// A law: a schedule's canonical text is read as the schedule again, where it can be written, where
/// it may be accepted for a grammar that was read from a text, and where it was read itself.
pub fn printed_schedules()
    ensures read_back { PrintedAreReadBack }
    ensures of_texts { OfTextsAreReadBack }
    ensures read { ReadAreReadBack }
{
    canonical_schedules();
    faultless_grammars_are_lawful();
}
