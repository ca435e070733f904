//! A law: canonical texts that were typed by hand.

ghost use Rattle.std.specs.Prelude.{◌≡◌, [], ◌++◌, codes};
ghost use Rattle.ftl_nest_text.specs.syntax.NestTrees.{nesting_schedule};
ghost use Rattle.ftl_nest_text.specs.syntax.NestWorked.{nest_beside, nest_of_none, two_nests};
ghost use Rattle.ftl_nest_text.specs.text.NestText.{nesting_schedule_text};

/// A law: the texts of four schedules, the first without stages.
pub fn nest_texts_by_hand()
    ensures empty { nesting_schedule_text (nesting_schedule []) ≡ [] }
    ensures stages { nesting_schedule_text two_nests
        ≡ codes "bottomup { Page.h } nest Row { topdown { A.b } ; bottomup { C.d } || topdown { } }"
        ++ codes " ;\ntopdown { } nest Row { }\n" }
    ensures beside { nesting_schedule_text nest_beside
        ≡ codes "topdown { Box.x } nest Row { inorder { Cell.y } } || inorder { }\n" }
    ensures none { nesting_schedule_text nest_of_none ≡ codes "bottomup { } nest nest { }\n" }
{}
