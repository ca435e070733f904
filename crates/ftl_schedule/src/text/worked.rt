//! A law: canonical texts that were typed by hand.

ghost use Rattle.std.specs.Prelude.{◌≡◌, [], ◌∷◌, ◌++◌, codes};
ghost use Rattle.ftl_schedule.specs.declared.syntax.kind.PassKind.TheVariants.{BottomUp, TopDown};
ghost use Rattle.ftl_schedule.specs.syntax.Trees.{attribute_name, written_pass, written_schedule};
ghost use Rattle.ftl_schedule.specs.syntax.Trees.{written_stage};
ghost use Rattle.ftl_schedule.specs.text.ScheduleText.{schedule_text};

/// A law: the texts of three schedules, the first without stages.
pub fn canonical_texts_by_hand()
    ensures empty { schedule_text (written_schedule []) ≡ [] }
    ensures stages { schedule_text (written_schedule
        (written_stage (written_pass BottomUp (attribute_name (codes "Page") (codes "h") ∷ []) ∷ [])
        ∷ written_stage (written_pass TopDown [] ∷ []) ∷ []))
        ≡ codes "bottomup { Page.h } ;\ntopdown { }\n" }
    ensures beside { schedule_text (written_schedule (written_stage
        (written_pass TopDown (attribute_name (codes "Box") (codes "x") ∷ [])
        ∷ written_pass TopDown (attribute_name (codes "Box") (codes "y") ∷ []) ∷ []) ∷ []))
        ≡ codes "topdown { Box.x } || topdown { Box.y }\n" }
{}
