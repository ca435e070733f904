//! Laws on lines that were typed out by hand.

ghost use Rattle.std.specs.Prelude.{◌≡◌, codes};
ghost use Rattle.ftl_meaning.specs.declared.formulas.read_name.ReadName.TheVariants as read;
ghost use Rattle.ftl_meaning.specs.declared.faults.fault.GrammarFault.TheVariants as fault;
ghost use Rattle.ftl_meaning.specs.declared.faults.fault.What.TheVariants as what;
ghost use Rattle.ftl_page.specs.declared.sections.fault.PageFault.TheVariants as page;
ghost use Rattle.ftl_page.specs.declared.sections.fault.Section.TheVariants as section;
ghost use Rattle.ftl_schedule.specs.declared.names.fault.ScheduleFault.TheVariants as schedule;
ghost use Rattle.ftl_tokens.specs.declared.scanner.fault.TokenFault.TheVariants as token;
ghost use Rattle.ftl_grammar.specs.declared.reading.fault.SyntaxFault.TheVariants as syntax;
ghost use Rattle.ftl_answer.specs.refusals.GrammarLines.{grammar_line};
ghost use Rattle.ftl_answer.specs.refusals.PageLines.{page_line};
ghost use Rattle.ftl_answer.specs.refusals.ScheduleLines.{schedule_line};
ghost use Rattle.ftl_answer.specs.refusals.TextLines.{syntax_line, token_line};
ghost use Rattle.ftl_answer.specs.refusals.WorkedRules.{h, y};

/// A law: lines of pages.
pub fn lines_of_pages()
    ensures not_text { page_line page.NotText
        ≡ codes "refused page: not UTF-8" }
    ensures version { page_line page.BadVersion
        ≡ codes "refused page: first line is not %page 1" }
    ensures unknown { page_line (page.UnknownSection 4)
        ≡ codes "refused page: unknown section at line 4" }
    ensures twice { page_line (page.SectionTwice section.Schedule 12)
        ≡ codes "refused page: section schedule twice at line 12" }
    ensures shipped { page_line (page.UnknownShipped 2)
        ≡ codes "refused page: unknown grammar at line 2" }
    ensures stray { page_line (page.StrayText 3)
        ≡ codes "refused page: stray text at line 3" }
    ensures missing { page_line (page.NoSection section.Document)
        ≡ codes "refused page: no section document" }
{}

/// A law: lines of grammars.
pub fn lines_of_grammars()
    ensures classes { grammar_line (fault.TooMany what.Classes 129)
        ≡ codes "refused grammar: too many classes: 129" }
    ensures all { grammar_line (fault.TooMany what.AllAttributes 2049)
        ≡ codes "refused grammar: too many attributes in all: 2049" }
    ensures twice_named { grammar_line (fault.TwiceNamed (codes "Page"))
        ≡ codes "refused grammar: name Page twice" }
    ensures root { grammar_line (fault.RootMissing (codes "Page"))
        ≡ codes "refused grammar: root Page is no interface" }
    ensures unknown_name { grammar_line (fault.UnknownName (codes "Box"))
        ≡ codes "refused grammar: unknown name Box" }
    ensures inherits { grammar_line (fault.RootInherits (codes "Page"))
        ≡ codes "refused grammar: root Page inherits" }
    ensures not_assignable { grammar_line (fault.NotAssignable y)
        ≡ codes "refused grammar: Column kids.y is not assignable" }
    ensures form { grammar_line (fault.BadForm h)
        ≡ codes "refused grammar: Column self.h has a wrong form" }
    ensures twice_ruled { grammar_line (fault.TwiceRuled h)
        ≡ codes "refused grammar: Column self.h has two rules" }
    ensures read { grammar_line (fault.BadRead y (read.Prev (codes "h")))
        ≡ codes "refused grammar: Column kids.y must not read prev.h" }
    ensures last { grammar_line (fault.BadRead h (read.Last (codes "kids") (codes "y")))
        ≡ codes "refused grammar: Column self.h must not read last kids.y" }
    ensures accumulator { grammar_line (fault.BadRead h read.Acc)
        ≡ codes "refused grammar: Column self.h must not read acc" }
    ensures no_rule { grammar_line (fault.MissingRule h)
        ≡ codes "refused grammar: Column self.h has no rule" }
{}

/// A law: lines of texts and of schedules as they are read.
pub fn lines_of_texts()
    ensures character { token_line section.Document (token.BadChar 17)
        ≡ codes "refused document: bad character at 17" }
    ensures number { token_line section.Schedule (token.NumberTooLarge 0)
        ≡ codes "refused schedule: number too large at 0" }
    ensures deep { syntax_line (syntax.TooDeep 119) ≡ codes "refused grammar: too deep at 119" }
    ensures syntax { syntax_line (syntax.Syntax 5) ≡ codes "refused grammar: syntax at 5" }
    ensures schedule { schedule_line (schedule.Syntax 17)
        ≡ codes "refused schedule: syntax at 17" }
    ensures passes { schedule_line (schedule.TooManyPasses 2049)
        ≡ codes "refused schedule: too many passes: 2049" }
    ensures beside { schedule_line (schedule.TooManyBeside 3 5)
        ≡ codes "refused schedule: too many passes in stage 3: 5" }
    ensures attribute { schedule_line (schedule.UnknownAttribute (codes "Page") (codes "z"))
        ≡ codes "refused schedule: unknown attribute Page.z" }
    ensures host { schedule_line (schedule.UnknownHost (codes "Pillar"))
        ≡ codes "refused schedule: unknown class Pillar" }
    ensures open_nest { schedule_line (schedule.OpenNest (codes "Column"))
        ≡ codes "refused schedule: nest Column is not closed" }
    ensures side { schedule_line (schedule.NestAttribute (codes "Slot") (codes "pw"))
        ≡ codes "refused schedule: Slot.pw on the wrong side of a nest" }
{}
