//! The rules of one attribute, and of lists of attributes.
ghost use Rattle.std.specs.Prelude.{◌≡◌, ◌<◌, ◌++◌, Some, None, flat_map, length, OnOk, Option};
ghost use Rattle.std.specs.Option.{option_map, option_to_list};
ghost use Rattle.ftl_deps.specs.reads.Meant.{meant};
ghost use Rattle.ftl_meaning.specs.grammars.GrammarOf.{declaration_at, sort_of};
ghost use Rattle.ftl_visit.specs.visits.Visits.{inherited_rule, inherited_rules, local_rule};
ghost use Rattle.ftl_visit.specs.visits.Visits.{locals};
ghost use Rattle.ftl_visit.specs.visits.Visits.{children, child_block, child_blocks, rule_in};
ghost use Rattle.ftl_visit.specs.visits.Visits.{rules_by_key, operations_for, synthesized_rule};
ghost use Rattle.ftl_visit.specs.visits.Visits.{synthesized_rules};
ghost use Rattle.ftl_visit.specs.declared.visits.visit_op.VisitOp.TheVariants.{Rule};

use crate::visits::rule_index::RuleIndex;
use crate::visits::visit_op::{VisitOp, VisitOps};
use ftl_checked::Checked;
use ftl_grammar::AttrKind;
use std::alloc::AllocError;

/// The rules for all attributes, by key.
pub(crate) fn add_rules(
    index: &RuleIndex<'_>,
    class: u32,
    attrs: &[u32],
    ops: &mut VisitOps,
) -> Result<(), AllocError>
    requires within { class < length index.now.grammar.classes }
    ensures added { OnOk result (ops.new
        ≡ ops.old ++ rules_by_key (meant index.now) class attrs.now) }
{
    for attr in attrs {
        add_rules_for(index, class, *attr, ops)?;
    }
    Ok(())
}

fn add_rules_for(
    index: &RuleIndex<'_>,
    class: u32,
    attr: u32,
    ops: &mut VisitOps,
) -> Result<(), AllocError>
    requires within { class < length index.now.grammar.classes }
    ensures added { OnOk result (ops.new
        ≡ ops.old ++ operations_for (meant index.now) class ((meant index.now).sort attr) attr) }
{
    match kind_of(index.checked(), attr) {
        AttrKind::Input => Ok(()),
        AttrKind::Inh => add_kid_rules(index, class, attr, ops),
        AttrKind::Syn | AttrKind::Local => add_rule(index.own(class, attr), ops),
    }
}

/// The rules for an attribute of the kids, child by child.
fn add_kid_rules(
    index: &RuleIndex<'_>,
    class: u32,
    attr: u32,
    ops: &mut VisitOps,
) -> Result<(), AllocError>
    requires within { class < length index.now.grammar.classes }
    ensures added { OnOk result (ops.new ≡ ops.old
        ++ flat_map (λ c. rule_in (meant index.now) class (Some c) attr)
        (children (meant index.now) class)) }
{
    for child in 0..index.checked().child_count(class) {
        add_rule(index.kid(class, child, attr), ops)?;
    }
    Ok(())
}

/// The locals, by key.
pub(crate) fn add_locals(
    index: &RuleIndex<'_>,
    class: u32,
    attrs: &[u32],
    ops: &mut VisitOps,
) -> Result<(), AllocError>
    ensures added { OnOk result (ops.new ≡ ops.old ++ locals (meant index.now) class attrs.now) }
{
    for attr in attrs {
        add_local(index, class, *attr, ops)?;
    }
    Ok(())
}

fn add_local(
    index: &RuleIndex<'_>,
    class: u32,
    attr: u32,
    ops: &mut VisitOps,
) -> Result<(), AllocError>
    ensures added { OnOk result (ops.new
        ≡ ops.old ++ local_rule (meant index.now) class ((meant index.now).sort attr) attr) }
{
    match kind_of(index.checked(), attr) {
        AttrKind::Local => add_rule(index.own(class, attr), ops),
        AttrKind::Input | AttrKind::Inh | AttrKind::Syn => Ok(()),
    }
}

/// The synthesized attributes, by key.
pub(crate) fn add_synthesized(
    index: &RuleIndex<'_>,
    class: u32,
    attrs: &[u32],
    ops: &mut VisitOps,
) -> Result<(), AllocError>
    ensures added { OnOk result (ops.new
        ≡ ops.old ++ synthesized_rules (meant index.now) class attrs.now) }
{
    for attr in attrs {
        add_synthesized_rule(index, class, *attr, ops)?;
    }
    Ok(())
}

fn add_synthesized_rule(
    index: &RuleIndex<'_>,
    class: u32,
    attr: u32,
    ops: &mut VisitOps,
) -> Result<(), AllocError>
    ensures added { OnOk result (ops.new
        ≡ ops.old ++ synthesized_rule (meant index.now) class ((meant index.now).sort attr) attr) }
{
    match kind_of(index.checked(), attr) {
        AttrKind::Syn => add_rule(index.own(class, attr), ops),
        AttrKind::Input | AttrKind::Inh | AttrKind::Local => Ok(()),
    }
}

/// What is done for the kids of each child in turn.
pub(crate) fn add_blocks(
    index: &RuleIndex<'_>,
    class: u32,
    attrs: &[u32],
    ops: &mut VisitOps,
) -> Result<(), AllocError>
    requires within { class < length index.now.grammar.classes }
    ensures added { OnOk result (ops.new
        ≡ ops.old ++ child_blocks (meant index.now) class attrs.now) }
{
    for child in 0..index.checked().child_count(class) {
        add_block(index, class, child, attrs, ops)?;
    }
    Ok(())
}

fn add_block(
    index: &RuleIndex<'_>,
    class: u32,
    child: u32,
    attrs: &[u32],
    ops: &mut VisitOps,
) -> Result<(), AllocError>
    ensures added { OnOk result (ops.new
        ≡ ops.old ++ child_block (meant index.now) class attrs.now child) }
{
    ops.push(VisitOp::Begin(child))?;
    add_inherited(index, class, child, attrs, ops)?;
    ops.push(VisitOp::Visit(child))
}

/// The inherited attributes of the kids in a child, by key.
fn add_inherited(
    index: &RuleIndex<'_>,
    class: u32,
    child: u32,
    attrs: &[u32],
    ops: &mut VisitOps,
) -> Result<(), AllocError>
    ensures added { OnOk result (ops.new
        ≡ ops.old ++ inherited_rules (meant index.now) class child attrs.now) }
{
    for attr in attrs {
        add_inherited_rule(index, class, child, *attr, ops)?;
    }
    Ok(())
}

fn add_inherited_rule(
    index: &RuleIndex<'_>,
    class: u32,
    child: u32,
    attr: u32,
    ops: &mut VisitOps,
) -> Result<(), AllocError>
    ensures added { OnOk result (ops.new ≡ ops.old
        ++ inherited_rule (meant index.now) class child ((meant index.now).sort attr) attr) }
{
    match kind_of(index.checked(), attr) {
        AttrKind::Inh => add_rule(index.kid(class, child, attr), ops),
        AttrKind::Input | AttrKind::Syn | AttrKind::Local => Ok(()),
    }
}

fn add_rule(rule: Option<u32>, ops: &mut VisitOps) -> Result<(), AllocError>
    ensures added { OnOk result (ops.new ≡ ops.old ++ option_to_list (option_map Rule rule)) }
{
    if let Some(rule) = rule {
        ops.push(VisitOp::Rule(rule))?;
    }
    Ok(())
}

/// The kind of an attribute; past the end that of an input.
#[tactic(auto, using(ftl_deps::proofs::reads::AttrKinds::kind_steps))]
fn kind_of(checked: &Checked, attr: u32) -> AttrKind
    ensures kind { result ≡ (declaration_at checked.now.grammar attr).kind }
{
    if attr < checked.attr_count() {
        checked.attr(attr).kind
    } else {
        AttrKind::Input
    }
}
