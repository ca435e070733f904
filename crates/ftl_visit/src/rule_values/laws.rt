//! What running the code of a rule's parts gives.

ghost use Rattle.std.specs.Prelude.{◌≡◌, ℕ, List, length};
ghost use Rattle.std.specs.Option.{is_some};
ghost use Rattle.ftl_base.specs.Widths.{greatest_of_width};
ghost use Rattle.ftl_model.specs.layout.AttributeGrammar.{Occurrence, reads_in};
ghost use Rattle.ftl_model.specs.layout.Values.{Value};
ghost use Rattle.ftl_meaning.specs.faults.Checked.{CheckedGrammar};
ghost use Rattle.ftl_visit.specs.rule_code.Machine.{Computes};
ghost use Rattle.ftl_visit.specs.declared.rule_code.instruction.Instruction.{Instruction};
ghost use Rattle.ftl_meaning.specs.grammars.Meaning.{Sight};
ghost use Rattle.ftl_visit.specs.compiled.RuleCode.{read_count};
ghost use Rattle.ftl_visit.specs.declared.compiled.part.Part.{Part};
ghost use Rattle.ftl_visit.specs.rule_values.PartValues.{IsCodeOf, IsRuleOf, code_of_part};
ghost use Rattle.ftl_visit.specs.rule_values.PartValues.{has_part};
ghost use Rattle.ftl_visit.specs.rule_values.PartValues.{meant_rule, part_of, part_value};
ghost use Rattle.ftl_visit.specs.rule_values.PartValues.{value_by_parts};
ghost use Rattle.ftl_visit.specs.rule_values.PartValues.{values_read};

/// A law: there is code for each part that a rule has, and for no other. It takes as many reads as
/// the part has. On what they give it computes the value of the part, with what a fold has so far;
/// and the value of the rule is made of those of its parts.
pub fn parts_give_the_rule()
    ensures has { (c : CheckedGrammar) (rule : ℕ) → IsRuleOf c rule → (which : Part)
        → is_some (code_of_part c rule which)
        ≡ has_part (meant_rule c rule).parts (part_of which) }
    ensures takes { (c : CheckedGrammar) (rule : ℕ) (which : Part) (code : List Instruction)
        → IsCodeOf c rule which code
        → read_count code ≡ length (reads_in (meant_rule c rule).parts (part_of which)) }
    ensures computes { (c : CheckedGrammar) (rule : ℕ) (which : Part) (code : List Instruction)
        → IsCodeOf c rule which code → (x : Sight)
        → Computes (greatest_of_width c.width) x.so_far code
        (values_read (meant_rule c rule).parts (part_of which) x)
        (part_value c rule (part_of which) x) }
    ensures value { (c : CheckedGrammar) (rule : ℕ) → IsRuleOf c rule
        → (kids : ℕ → ℕ) (number : ℕ) (values : Occurrence → Value)
        → (meant_rule c rule).value kids number values
        ≡ value_by_parts (meant_rule c rule).parts (part_value c rule) kids number values }
{}
