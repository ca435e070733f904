//! Texts that say the same answer the same.

ghost use Rattle.std.specs.Prelude.{ℕ, List, Some};
ghost use Rattle.ftl_answer.specs.answers.Stages.{hands_on};
ghost use Rattle.ftl_answer.specs.answers.Texts as texts;
ghost use Rattle.ftl_base.specs.declared.width.Width.{Width};
ghost use Rattle.ftl_base.specs.Widths.{greatest_of_width};
ghost use Rattle.ftl_edits.specs.declared.meaning.types.Edit.{Edit};
ghost use Rattle.ftl_meaning.specs.faults.Checked.{CheckedGrammar};
ghost use Rattle.ftl_model.specs.layout.Tree.{Forest};
ghost use Rattle.ftl_nest_check.specs.declared.stages.types.NestingSchedule.{NestingSchedule};
ghost use Rattle.ftl_page_printing.specs.pages.Alike.{SaysSame};

/// A law: what a text of a section is read as depends on what its tokens say alone. So the sections
/// of a page in canonical form are read as what the canonical texts are read as.
pub fn texts_that_say_the_same()
    ensures grammar { (width : Width) (c : CheckedGrammar) (text other : List ℕ)
        → SaysSame 2147483647 text other → texts.grammar width other (hands_on c)
        → texts.grammar width text (hands_on c) }
    ensures schedule { (c : CheckedGrammar) (s : NestingSchedule) (text other : List ℕ)
        → SaysSame 2147483647 text other → texts.schedule c (Some other) (hands_on s)
        → texts.schedule c (Some text) (hands_on s) }
    ensures document { (c : CheckedGrammar) (t : Forest) (text other : List ℕ)
        → SaysSame (greatest_of_width c.width) text other
        → texts.grown_tree c other (hands_on t) → texts.grown_tree c text (hands_on t) }
    ensures edits { (c : CheckedGrammar) (t : Forest) (es : List Edit) (text other : List ℕ)
        → SaysSame (greatest_of_width c.width) text other
        → texts.edits c t other (hands_on es) → texts.edits c t text (hands_on es) }
{}
