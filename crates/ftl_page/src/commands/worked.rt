//! Laws on words that were typed out by hand.

ghost use Rattle.std.specs.Prelude.{◌≡◌, [], ◌∷◌, None, Some, codes};
ghost use Rattle.ftl_page.specs.commands.Commands.{command_of};
ghost use Rattle.ftl_page.specs.declared.commands.command.Command.TheVariants as command;
ghost use Rattle.ftl_page.specs.workers.Solvings.{solving};

/// A law: words that are a command, and which.
pub fn words_that_are_commands()
    ensures run_alone { command_of (codes "run" ∷ [])
        ≡ Some (command.Run (solving 1 64)) }
    ensures workers { command_of (codes "run" ∷ codes "--workers" ∷ codes "4" ∷ [])
        ≡ Some (command.Run (solving 4 64)) }
    ensures equals { command_of (codes "run" ∷ codes "--workers=64" ∷ codes "--grain=1" ∷ [])
        ≡ Some (command.Run (solving 64 1)) }
    ensures zeros { command_of (codes "run" ∷ codes "--grain" ∷ codes "0000063" ∷ [])
        ≡ Some (command.Run (solving 1 63)) }
    ensures largest { command_of (codes "run" ∷ codes "--grain" ∷ codes "1048576" ∷ [])
        ≡ Some (command.Run (solving 1 1048576)) }
    ensures dashes { command_of (codes "run" ∷ codes "--" ∷ [])
        ≡ Some (command.Run (solving 1 64)) }
    ensures check { command_of (codes "check" ∷ [])
        ≡ Some (command.Check) }
    ensures schedule { command_of (codes "schedule" ∷ [])
        ≡ Some (command.Schedule) }
    ensures explain { command_of (codes "explain" ∷ [])
        ≡ Some (command.Explain) }
    ensures demand { command_of (codes "demand" ∷ [])
        ≡ Some (command.Demand) }
    ensures dashes_of_demand { command_of (codes "demand" ∷ codes "--" ∷ [])
        ≡ Some (command.Demand) }
    ensures edit { command_of (codes "edit" ∷ [])
        ≡ Some (command.Edit (solving 1 64)) }
    ensures workers_of_edit { command_of (codes "edit" ∷ codes "--workers" ∷ codes "8"
        ∷ codes "--grain=1" ∷ []) ≡ Some (command.Edit (solving 8 1)) }
    ensures sample { command_of (codes "sample" ∷ codes "8" ∷ [])
        ≡ Some (command.Sample 8 (codes "flow") (solving 1 64)) }
    ensures sample_of { command_of (codes "sample" ∷ codes "200000" ∷ codes "--workers" ∷ codes "2"
        ∷ codes "--grammar" ∷ codes "stack" ∷ [])
        ≡ Some (command.Sample 200000 (codes "stack") (solving 2 64)) }
{}

/// A law: words that are no command.
pub fn words_that_are_none()
    ensures nothing { command_of [] ≡ None }
    ensures empty_word { command_of (codes "" ∷ []) ≡ None }
    ensures unknown { command_of (codes "help" ∷ []) ≡ None }
    ensures help { command_of (codes "run" ∷ codes "--help" ∷ []) ≡ None }
    ensures positional { command_of (codes "run" ∷ codes "page" ∷ []) ≡ None }
    ensures twice { command_of (codes "run" ∷ codes "--workers" ∷ codes "1" ∷ codes "--workers"
        ∷ codes "1" ∷ []) ≡ None }
    ensures negative { command_of (codes "run" ∷ codes "--workers" ∷ codes "-4" ∷ []) ≡ None }
    ensures no_value { command_of (codes "run" ∷ codes "--workers" ∷ []) ≡ None }
    ensures no_text { command_of (codes "run" ∷ codes "--workers=" ∷ []) ≡ None }
    ensures prefix { command_of (codes "run" ∷ codes "--work" ∷ codes "4" ∷ []) ≡ None }
    ensures no_worker { command_of (codes "run" ∷ codes "--workers" ∷ codes "0" ∷ []) ≡ None }
    ensures many_workers { command_of (codes "run" ∷ codes "--workers" ∷ codes "65" ∷ []) ≡ None }
    ensures large_grain { command_of (codes "run" ∷ codes "--grain" ∷ codes "1048577" ∷ []) ≡ None }
    ensures eight_digits { command_of (codes "run" ∷ codes "--workers" ∷ codes "00000064" ∷ [])
        ≡ None }
    ensures plus { command_of (codes "run" ∷ codes "--workers" ∷ codes "+4" ∷ []) ≡ None }
    ensures grammar { command_of (codes "run" ∷ codes "--grammar" ∷ codes "flow" ∷ []) ≡ None }
    ensures options_of_check { command_of (codes "check" ∷ codes "--workers" ∷ codes "1" ∷ [])
        ≡ None }
    ensures options_of_schedule { command_of (codes "schedule" ∷ codes "--grain" ∷ codes "1" ∷ [])
        ≡ None }
    ensures options_of_explain { command_of (codes "explain" ∷ codes "--workers" ∷ codes "1" ∷ [])
        ≡ None }
    ensures words_of_explain { command_of (codes "explain" ∷ codes "x" ∷ []) ≡ None }
    ensures options_of_demand { command_of (codes "demand" ∷ codes "--workers" ∷ codes "2" ∷ [])
        ≡ None }
    ensures words_of_demand { command_of (codes "demand" ∷ codes "x" ∷ []) ≡ None }
    ensures no_worker_of_edit { command_of (codes "edit" ∷ codes "--workers" ∷ codes "0" ∷ [])
        ≡ None }
    ensures grammar_of_edit { command_of (codes "edit" ∷ codes "--grammar" ∷ codes "flow" ∷ [])
        ≡ None }
    ensures words_of_edit { command_of (codes "edit" ∷ codes "x" ∷ []) ≡ None }
    ensures no_size { command_of (codes "sample" ∷ []) ≡ None }
    ensures no_piece { command_of (codes "sample" ∷ codes "0" ∷ []) ≡ None }
    ensures many_pieces { command_of (codes "sample" ∷ codes "200001" ∷ []) ≡ None }
    ensures size_as_option { command_of (codes "sample" ∷ codes "--grammar" ∷ codes "flow" ∷ [])
        ≡ None }
    ensures unknown_grammar { command_of (codes "sample" ∷ codes "8" ∷ codes "--grammar"
        ∷ codes "page" ∷ []) ≡ None }
    ensures two_sizes { command_of (codes "sample" ∷ codes "8" ∷ codes "8" ∷ []) ≡ None }
{}
