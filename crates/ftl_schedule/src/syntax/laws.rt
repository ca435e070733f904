//! Laws of the syntax.

ghost use Rattle.std.specs.Prelude.{◌≡◌, ℕ};
ghost use Rattle.ftl_tokens.specs.scanner.Tokenized.{Tokenized};
ghost use Rattle.ftl_tokens.specs.reading.Reader.{Tokens};
ghost use Rattle.ftl_tokens.specs.reading.Place.{IsFaultPlace};
ghost use Rattle.ftl_schedule.specs.syntax.Spelling.{SpellsSchedule};
ghost use Rattle.ftl_schedule.specs.declared.syntax.types.WrittenSchedule.{WrittenSchedule};

/// A law: no tokens spell two schedules.
pub fn one_written_schedule()
    ensures same { (tokens : Tokens) (s t : WrittenSchedule)
        → SpellsSchedule tokens s → SpellsSchedule tokens t → s ≡ t }
{}

/// A law: the tokens of a text go wrong at one byte at most.
pub fn one_place()
    ensures same { (scanned : Tokenized) (at other : ℕ) → IsFaultPlace SpellsSchedule scanned at
        → IsFaultPlace SpellsSchedule scanned other → at ≡ other }
{}
