//! Laws of the syntax.

ghost use Rattle.std.specs.Prelude.{◌≡◌, ℕ};
ghost use Rattle.ftl_tokens.specs.scanner.Tokenized.{Tokenized};
ghost use Rattle.ftl_tokens.specs.reading.Reader.{Tokens};
ghost use Rattle.ftl_tokens.specs.reading.Place.{IsFaultPlace};
ghost use Rattle.ftl_nest_text.specs.syntax.NestSpelling.{SpellsNestingSchedule};
ghost use Rattle.ftl_nest_text.specs.declared.syntax.types.WrittenNestingSchedule as nesting;

/// A law: no tokens spell two schedules.
pub fn one_written_nesting_schedule()
    ensures same { (tokens : Tokens) (s t : nesting.WrittenNestingSchedule)
        → SpellsNestingSchedule tokens s → SpellsNestingSchedule tokens t → s ≡ t }
{}

/// A law: the tokens of a text go wrong at one byte at most.
pub fn one_nesting_place()
    ensures same { (scanned : Tokenized) (at other : ℕ)
        → IsFaultPlace SpellsNestingSchedule scanned at
        → IsFaultPlace SpellsNestingSchedule scanned other → at ≡ other }
{}
