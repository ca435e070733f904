//! Laws that hold reads and first writers against lists that were typed out by hand.

ghost use Rattle.std.specs.Prelude.{◌≡◌, ℕ, [], ◌∷◌, map, Some, None};
ghost use Rattle.ftl_model.specs.layout.Notes.{notes};
ghost use Rattle.ftl_model.specs.layout.Stack.{stack};
ghost use Rattle.ftl_order.specs.dependencies.DepReads.{dep_table};
ghost use Rattle.ftl_order.specs.dependencies.Writers.{first_writer};
ghost use Rattle.ftl_order.specs.dependencies.Worked as worked;

/// A law: the reads of each rule of the stack grammar.
pub fn reads_of_stack()
    ensures table { dep_table stack ≡ worked.stack_table }
{}

/// A law: the reads of each rule of the grammar of notes, in each form.
pub fn reads_of_notes()
    ensures table { dep_table notes ≡ worked.notes_table }
{}

/// A law: the first writers of reads of that grammar.
pub fn first_writers_of_notes()
    ensures head_size { first_writer notes 0 worked.head_size ≡ Some 5 }
    ensures last_w { first_writer notes 0 worked.last_w ≡ Some 4 }
    ensures own_base { first_writer notes 0 worked.own_base ≡ Some 0 }
    ensures prev_x { first_writer notes 0 worked.prev_x ≡ Some 2 }
    ensures this_gap { first_writer notes 0 worked.this_gap ≡ None }
    ensures own_shift { first_writer notes 2 worked.own_shift ≡ Some 1 }
{}
