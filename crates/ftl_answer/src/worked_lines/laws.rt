//! Laws on lines.

ghost use Rattle.std.specs.Prelude.{◌≡◌, [], ◌∷◌, None, Some, codes};
ghost use Rattle.ftl_document.specs.declared.faults.fault.DocFault.TheVariants as fault;
ghost use Rattle.ftl_meaning.specs.declared.formulas.read_name.ReadName.TheVariants as read;
ghost use Rattle.ftl_meaning.specs.faults.Worked.{stack};
ghost use Rattle.ftl_meaning.specs.declared.faults.fault.What.TheVariants as what;
ghost use Rattle.ftl_noncircular.specs.declared.search.fault.CircularFault.TheVariants as circle;
ghost use Rattle.ftl_answer.specs.refusals.CircularLines.{circular_line};
ghost use Rattle.ftl_answer.specs.refusals.DocumentLines.{document_line};
ghost use Rattle.ftl_edits.specs.declared.meaning.fault.EditFault.TheVariants as edit;
ghost use Rattle.ftl_answer.specs.answers.Answers.{touched_line};
ghost use Rattle.ftl_answer.specs.refusals.EditLines.{edit_line};
ghost use Rattle.ftl_answer.specs.refusals.GrammarLines.{what_text};
ghost use Rattle.ftl_answer.specs.refusals.Names.{read_text};
ghost use Rattle.ftl_step_value.specs.declared.limits.faults.fault.PlanFault.TheVariants as plan;
ghost use Rattle.ftl_answer.specs.refusals.PageLines.{too_long_line, words_line};
ghost use Rattle.ftl_answer.specs.refusals.PlanLines.{plan_line};
ghost use Rattle.ftl_answer.specs.refusals.ScheduleLines.{stuck_line, verify_line};
ghost use Rattle.ftl_order.specs.declared.faults.fault.VerifyFault.TheVariants as verify;

/// A law: lines of documents of the stack grammar.
pub fn lines_of_documents()
    ensures class { document_line stack (fault.UnknownClass 1 (codes "Row"))
        ≡ codes "refused document: node 1 unknown class Row" }
    ensures interface { document_line stack (fault.WrongInterface 1 0 1)
        ≡ codes "refused document: node 1 class Sheet is not of Box" }
    ensures twice { document_line stack (fault.FieldTwice 1 (codes "iw"))
        ≡ codes "refused document: node 1 field iw twice" }
    ensures missing { document_line stack (fault.FieldMissing 1 (codes "iw"))
        ≡ codes "refused document: node 1 field iw missing" }
    ensures field { document_line stack (fault.UnknownField 2 (codes "z"))
        ≡ codes "refused document: node 2 unknown field z" }
    ensures form { document_line stack (fault.FieldForm 1 (codes "kids"))
        ≡ codes "refused document: node 1 field kids has a wrong form" }
    ensures order { document_line stack (fault.FieldOrder 0 (codes "body"))
        ≡ codes "refused document: node 0 field body out of order" }
    ensures syntax { document_line stack (fault.Syntax 15)
        ≡ codes "refused document: syntax at 15" }
    ensures deep { document_line stack (fault.TooDeep 9218)
        ≡ codes "refused document: too deep at 9218" }
    ensures nodes { document_line stack (fault.TooManyNodes 1048577)
        ≡ codes "refused document: too many nodes: 1048577" }
    ensures instances { document_line stack (fault.TooManyInstances 33554433)
        ≡ codes "refused document: too many instances: 33554433" }
    ensures stage_reads { plan_line (plan.TooManyReads 2 67108865)
        ≡ codes "refused document: too many reads in stage 2: 67108865" }
    ensures step_reads { plan_line (plan.StepTooWide 1 1048577)
        ≡ codes "refused document: too many reads of one rule in stage 1: 1048577" }
{}

/// A law: lines of schedules of the stack grammar.
pub fn lines_of_schedules()
    ensures twice { verify_line stack (verify.Twice 3) ≡ codes "refused schedule: Box.w twice" }
    ensures missing { verify_line stack (verify.Missing 2)
        ≡ codes "refused schedule: Box.y missing" }
    ensures itself { verify_line stack (verify.Unordered 4 4)
        ≡ codes "refused schedule: Column self.h reads Column self.h unordered" }
    ensures later { verify_line stack (verify.Unordered 6 1)
        ≡ codes "refused schedule: Column kids.y reads Sheet body.x unordered" }
    ensures stuck { stuck_line stack (0 ∷ 4 ∷ []) ≡ codes "refused schedule: stuck Page.h Box.h" }
{}

/// A law: lines of the stack grammar, if this came back to itself.
pub fn lines_of_circles()
    ensures own { circular_line stack (circle.Circular 1 None 4)
        ≡ codes "refused grammar: Column self.h may depend on itself" }
    ensures kids { circular_line stack (circle.Circular 1 (Some 0) 2)
        ≡ codes "refused grammar: Column kids.y may depend on itself" }
{}

/// A law: lines that refuse edits, and the line on those that are touched.
pub fn lines_of_edits()
    ensures syntax { edit_line (edit.Syntax 12) ≡ codes "refused edits: syntax at 12" }
    ensures many { edit_line (edit.TooMany 1048577)
        ≡ codes "refused edits: too many: 1048577" }
    ensures node { edit_line (edit.UnknownNode 1) ≡ codes "refused edits: edit 1 has no node" }
    ensures input { edit_line (edit.UnknownInput 10)
        ≡ codes "refused edits: edit 10 has no input" }
    ensures touched { touched_line 12 ≡ codes "touched=12\n" }
{}

/// A law: lines of words and of long pages, and what grammars may have only so much of.
pub fn other_lines()
    ensures words { words_line ≡ codes "refused words" }
    ensures too_long { too_long_line ≡ codes "refused page: too long" }
    ensures interfaces { what_text what.Interfaces ≡ codes "interfaces" }
    ensures attributes { what_text what.Attributes ≡ codes "attributes" }
    ensures children { what_text what.Children ≡ codes "children" }
    ensures reads { what_text what.Reads ≡ codes "reads" }
    ensures own { read_text (read.Own (codes "b")) ≡ codes "self.b" }
    ensures this { read_text (read.This (codes "b")) ≡ codes "this.b" }
    ensures of { read_text (read.Of (codes "c") (codes "b")) ≡ codes "c.b" }
{}
