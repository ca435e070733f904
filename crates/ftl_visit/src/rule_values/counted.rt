//! Running rule code, and how often it was run.
ghost use Rattle.std.specs.Prelude.{◌≡◌, ◌≤◌, ◌+◌, ℕ, [], length, min, IfSome};
ghost use Rattle.std.specs.Option.{IsSome};
ghost use Rattle.ftl_base.specs.Widths.{greatest_of_width};
ghost use Rattle.ftl_visit.specs.rule_code.Depth.{depth_of};
ghost use Rattle.ftl_visit.specs.rule_code.Machine.{Computes};
ghost use Rattle.ftl_model.specs.layout.Values.{Value};
ghost use Rattle.ftl_visit.specs.compiled.RuleCode.{code_at, read_count};
ghost use Rattle.ftl_visit.specs.declared.compiled.part.Part.{Part as PartOfRule};

use crate::compiled::{Part, Programs, run_code};
use ftl_base::{CodeStack, Val};
use std::marker::Model;

/// The code of rules, and how often it was run. Contracts see both.
#[derive(Drop)]
pub struct Runner<'a> {
    programs: &'a Programs,
    runs: u64,
}

impl<'a> Model for Runner<'a> {
    ghost use Rattle.ftl_visit.specs.rule_values.Runs.{CountedCode};

    ghost Value = { CountedCode };

    ghost view = { λ r. record { programs = r.programs.now; runs = r.runs } };
}

impl<'a> Runner<'a> {
    /// Nothing was run yet.
    pub fn new(programs: &'a Programs) -> Runner<'a>
        ensures programs { result.programs ≡ programs.now }
        ensures runs { result.runs ≡ 0 }
    {
        Runner { programs, runs: 0 }
    }

    /// The same code, as often run so far; the two count on their own.
    pub fn copied(&self) -> Runner<'a>
        ensures same { result ≡ self.now }
    {
        Runner {
            programs: self.programs,
            runs: self.runs,
        }
    }

    /// How often code was run; it ends at the greatest number of 64 bits.
    pub fn runs(&self) -> u64
        ensures runs { result ≡ self.now.runs }
    {
        self.runs
    }

    /// A room that is enough for the code of each part.
    pub fn max_stack(&self) -> u32
        ensures room { result ≡ self.now.programs.max_stack }
        ensures enough { (rule : ℕ) (part : PartOfRule) → IfSome (code_at self.now.programs rule part)
            (λ code. depth_of code ≤ result) }
    {
        self.programs.max_stack()
    }

    /// How many reads the code of a part takes.
    pub fn read_count(&self, rule: u32, part: Part) -> u32
        requires part { IsSome (code_at self.now.programs rule part) }
        ensures count { IfSome (code_at self.now.programs rule part)
            (λ code. result ≡ read_count code) }
    {
        self.programs.code(rule, part).unwrap().read_count()
    }

    /// Runs the code of a part of a rule, which counts as one run.
    pub fn run(
        &mut self,
        rule: u32,
        part: Part,
        reads: &[Option<Val>],
        acc: Val,
        stack: &mut CodeStack,
    ) -> Val
        requires part { IsSome (code_at self.old.programs rule part) }
        requires reads { IfSome (code_at self.old.programs rule part)
            (λ code. length reads.now ≡ read_count code) }
        requires room { IfSome (code_at self.old.programs rule part)
            (λ code. depth_of code ≤ stack.old.room) }
        // what it gives
        ensures value { IfSome (code_at self.old.programs rule part) (λ code. (v : Value)
            → Computes (greatest_of_width self.old.programs.width) acc code reads.now v
            → result ≡ v) }
        ensures runs { self.new.runs ≡ min (self.old.runs + 1) 18446744073709551615 }
        // what stays
        ensures programs { self.new.programs ≡ self.old.programs }
        ensures empty { stack.new.entries ≡ [] }
        ensures room { stack.new.room ≡ stack.old.room }
    {
        self.runs = self.runs.saturating_add(1);
        let code = self.programs.code(rule, part).unwrap();
        run_code(&code, reads, acc, stack)
    }
}
