//! The code of all rules.
ghost use Rattle.std.specs.Prelude.{◌≡◌, ◌≤◌, ℕ, IfSome, slice_get};
ghost use Rattle.std.specs.Option.{option_and_then, option_map};
ghost use Rattle.ftl_base.specs.Widths.{greatest_of_width};
ghost use Rattle.ftl_visit.specs.rule_code.Depth.{depth_of, Stands};
ghost use Rattle.ftl_visit.specs.compiled.Pieces.{IsBuilt, IsRunnable, codes_in, piece, range_of};
ghost use Rattle.ftl_visit.specs.compiled.RuleCode.{code_at, part_code, read_count};
ghost use Rattle.ftl_visit.specs.declared.compiled.part.Part.{Part as PartOfRule};

use crate::compiled::built::Built;
use crate::compiled::part::Part;
use crate::compiled::part_code::Code;
use crate::compiled::ranges::{CodeRange, RuleRanges};
use ftl_base::Width;
use std::marker::Model;

/// The code of a grammar's rules. Contracts see the code of each, with the width of its numbers and
/// the room that is enough for any.
#[derive(Drop)]
pub struct Programs {
    width: Width,
    built: Built,
}

impl Model for Programs {
    ghost use Rattle.ftl_base.specs.Widths.{greatest_of_width};
    ghost use Rattle.ftl_visit.specs.compiled.Pieces.{IsBuilt, codes_in};
    ghost use Rattle.ftl_visit.specs.compiled.RuleCode.{Compiled};

    ghost Value = { Compiled };

    ghost view = { λ p. record {
      width = p.width;
      rules = codes_in p.built;
      max_stack = p.built.max_stack;
    } };

    ghost invariant = { λ p. IsBuilt (greatest_of_width p.width) p.built };
}

impl Programs {
    pub(crate) fn new(width: Width, built: Built) -> Programs
        requires built { IsBuilt (greatest_of_width width) built }
        ensures width { result.width ≡ width }
        ensures rules { result.rules ≡ codes_in built }
    {
        Programs { width, built }
    }

    /// The code of a part of a rule; none exactly where the rule has no such part.
    pub fn code(&self, rule: u32, part: Part) -> Option<Code<'_>>
        ensures code { option_map (λ c. c.code) result ≡ code_at self.now rule part }
        ensures width { IfSome result (λ c. c.width ≡ self.now.width) }
        ensures room { IfSome result (λ c. depth_of c.code ≤ self.now.max_stack) }
    {
        let range = range_at(self.width, &self.built, rule, part)?;
        let code = &self.built.instructions[range.start..range.end];
        let kept = &self.built.instructions[range.kept_start..range.kept_end];
        Some(Code::new(self.width, code, kept, range.reads))
    }

    /// A room that is enough for the code of each part.
    pub fn max_stack(&self) -> u32
        ensures room { result ≡ self.now.max_stack }
        ensures enough { (rule : ℕ) (part : PartOfRule) → IfSome (code_at self.now rule part)
            (λ code. depth_of code ≤ result) }
    {
        room_of(&self.built)
    }
}

/// The room that is enough for the code of each part.
fn room_of(built: &Built) -> u32
    ensures room { result ≡ built.now.max_stack }
    ensures enough { (greatest : ℕ) → IsBuilt greatest built.now → (rule : ℕ) (part : PartOfRule)
        → IfSome (option_and_then (part_code part) (slice_get (codes_in built.now) rule))
        (λ code. depth_of code ≤ result) }
{
    built.max_stack
}

/// Where the code of a part of a rule lies.
#[tactic(auto, using(crate::proofs::compiled::Laying::found_steps))]
fn range_at(width: Width, built: &Built, rule: u32, part: Part) -> Option<CodeRange>
    requires built { IsBuilt (greatest_of_width width) built.now }
    ensures piece { option_map (piece built.now.instructions.items) result
        ≡ option_and_then (part_code part) (slice_get (codes_in built.now) rule) }
    ensures runs { IfSome result (IsRunnable (greatest_of_width width)
        built.now.instructions.items built.now.max_stack) }
{
    let _ = width;
    let ranges = built.rules.get(rule as usize)?;
    part_range(*ranges, part)
}

fn part_range(ranges: RuleRanges, part: Part) -> Option<CodeRange>
    ensures range { result ≡ range_of part ranges }
{
    match (part, ranges) {
        (Part::Plain, RuleRanges::Plain(range))
        | (Part::First, RuleRanges::FirstThen(range, _))
        | (Part::Then, RuleRanges::FirstThen(_, range))
        | (Part::From, RuleRanges::Fold(range, _))
        | (Part::With, RuleRanges::Fold(_, range)) => Some(range),
        _ => None,
    }
}
