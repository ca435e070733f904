//! Laws of printed schedules with nests.

ghost use Rattle.ftl_nest_text.specs.printing.NestReadBack.{OfTextsNestsAreReadBack};
ghost use Rattle.ftl_nest_text.specs.printing.NestReadBack.{PrintedNestsAreReadBack};
ghost use Rattle.ftl_nest_text.specs.printing.NestReadBack.{ReadNestsAreReadBack};

use crate::text::canonical_nesting_schedules;
use ftl_meaning::faultless_grammars_are_lawful;

/// A law: a schedule's canonical text is read as the schedule again, where it can be written, where
/// it may be accepted for a grammar that was read from a text, and where it was read itself.
pub fn printed_nesting_schedules()
    ensures read_back { PrintedNestsAreReadBack }
    ensures of_texts { OfTextsNestsAreReadBack }
    ensures read { ReadNestsAreReadBack }
{
    canonical_nesting_schedules();
    faultless_grammars_are_lawful();
}
