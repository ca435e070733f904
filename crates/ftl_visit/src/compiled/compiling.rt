//! The code of a grammar.
ghost use Rattle.std.specs.Prelude.{◌≡◌, ◌++◌, map, IfOk, OnOk};
ghost use Rattle.std.specs.List.{All};
ghost use Rattle.ftl_base.specs.Widths.{greatest_of_width};
ghost use Rattle.ftl_visit.specs.compiled.Compilable.{HasCode, IsCompilableClass, IsCompilableRule};
ghost use Rattle.ftl_visit.specs.compiled.Pieces.{IsBuilt, codes_in};
ghost use Rattle.ftl_visit.specs.compiled.RuleCode.{class_codes, rule_code, rule_codes};

use crate::compiled::built::{Built, push_rule};
use crate::compiled::programs::Programs;
use crate::compiled::spelled::has_code;
use ftl_base::Width;
use ftl_checked::Checked;
use ftl_grammar::{Class, Rule};
use std::alloc::{AllocError, Global};

/// Makes the code of each part of each rule.
pub fn compile(alloc: Global, checked: &Checked) -> Result<Programs, AllocError>
    ensures width { IfOk result (λ p. p.width ≡ checked.now.width) }
    ensures rules { IfOk result (λ p. p.rules ≡ rule_codes checked.now.grammar) }
    // what a plan asks for
    ensures code { HasCode checked.now.grammar }
{
    let grammar = checked.grammar();
    has_code(grammar);
    let width = checked.width();
    let built = build(alloc, width, grammar.classes.as_slice())?;
    Ok(Programs::new(width, built))
}

fn build(alloc: Global, width: Width, classes: &[Class]) -> Result<Built, AllocError>
    requires code { All IsCompilableClass classes.now }
    ensures codes { IfOk result (λ b. codes_in b ≡ class_codes classes.now) }
    ensures built { IfOk result (λ b. IsBuilt (greatest_of_width width) b) }
{
    let mut built = Built {
        instructions: Vec::new(alloc),
        rules: Vec::new(alloc),
        max_stack: 0,
    };
    for class in classes {
        push_rules(alloc, width, class.rules.as_slice(), &mut built)?;
    }
    Ok(built)
}

fn push_rules(
    alloc: Global,
    width: Width,
    rules: &[Rule],
    built: &mut Built,
) -> Result<(), AllocError>
    requires code { All IsCompilableRule rules.now }
    requires built { IsBuilt (greatest_of_width width) built.old }
    ensures codes { OnOk result (codes_in built.new
        ≡ codes_in built.old ++ map (λ r. rule_code r.body) rules.now) }
    ensures built { OnOk result (IsBuilt (greatest_of_width width) built.new) }
{
    for rule in rules {
        push_rule(alloc, width, &rule.body, built)?;
    }
    Ok(())
}
