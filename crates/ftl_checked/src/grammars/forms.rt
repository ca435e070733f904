//! What a rule defines, and which expressions it has where.
ghost use Rattle.std.specs.Prelude.{◌≡◌, ℕ, ◌<◌, length, IfSome, IfOk};
ghost use Rattle.std.specs.Option.{option_map, option_and_then};
ghost use Rattle.ftl_checked.specs.declarations.FlatRules.{body_in};
ghost use Rattle.ftl_meaning.specs.faults.Counts.{HasSmallCounts};
ghost use Rattle.ftl_meaning.specs.faults.FirstFault.{rule_name};
ghost use Rattle.ftl_meaning.specs.faults.Numbering.{class_at, class_attributes, child_attributes};
ghost use Rattle.ftl_meaning.specs.faults.Numbering.{child_at, find_attribute, find_child};
ghost use Rattle.ftl_grammar.specs.declared.syntax.rules.Grammar.{Grammar};
ghost use Rattle.ftl_meaning.specs.faults.RuleForms.{form_of, is_inherited};
ghost use Rattle.ftl_meaning.specs.faults.RuleForms.{is_synthesized_or_local};
ghost use Rattle.ftl_meaning.specs.faults.RuleForms.{kid_slot, own_slot, parts_of, slot_by};
ghost use Rattle.ftl_meaning.specs.faults.RuleForms.{slot_of};
ghost use Rattle.ftl_checked.specs.grammars.Slots.{IsFormIn, IsSlotIn, parts_in, slot_in};
ghost use Rattle.ftl_checked.specs.lookup.Tables.{tables_of};

use crate::declarations::{FlatBody, FlatExpr};
use crate::grammars::reading::At;
use crate::grammars::slots::RuleSlot;
use crate::lookup::{Tables, child, child_of, class, class_attr, inherits, shared_attr};
use ftl_grammar::{AttrKind, Grammar, Target};

/// An expression of a rule, with its position.
#[derive(Drop)]
pub struct Part<'a> {
    pub at: At,
    pub expr: &'a FlatExpr<'a>,
}

/// The expressions of a rule, in the order of the text.
#[derive(Drop)]
pub struct RuleForm<'a> {
    pub first: Part<'a>,
    pub second: Option<Part<'a>>,
}

/// What a target stands for, where a rule may have it.
pub(crate) fn slot(
    grammar: &Grammar,
    tables: &Tables,
    class: u32,
    target: &Target,
) -> Option<RuleSlot>
    requires small { HasSmallCounts grammar.now }
    requires tables { tables.now ≡ tables_of grammar.now }
    requires within { class < length grammar.now.classes }
    ensures slot { option_map slot_in result ≡ slot_of grammar.now class target.now }
    ensures child { IfSome result (IsSlotIn grammar.now class) }
{
    match target {
        Target::Own(attr) => own(grammar, tables, class, attr.text()),
        Target::Of(name, attr) => kid(grammar, tables, class, name.text(), attr.text()),
    }
}

fn own(grammar: &Grammar, tables: &Tables, class: u32, attr: &str) -> Option<RuleSlot>
    requires small { HasSmallCounts grammar.now }
    requires tables { tables.now ≡ tables_of grammar.now }
    requires within { class < length grammar.now.classes }
    ensures slot { option_map slot_in result
        ≡ option_and_then (slot_by is_synthesized_or_local own_slot)
        (find_attribute attr.now (class_attributes grammar.now class)) }
    ensures child { IfSome result (IsSlotIn grammar.now class) }
{
    match class_attr(grammar, tables, class, attr) {
        Some(found) => {
            if is_own(found.kind) {
                Some(RuleSlot::Own(found.number))
            } else {
                None
            }
        }
        None => None,
    }
}

fn kid(grammar: &Grammar, tables: &Tables, class: u32, name: &str, attr: &str) -> Option<RuleSlot>
    requires small { HasSmallCounts grammar.now }
    requires tables { tables.now ≡ tables_of grammar.now }
    requires within { class < length grammar.now.classes }
    ensures slot { option_map slot_in result ≡ option_and_then (λ c. option_and_then
        (slot_by is_inherited (kid_slot c.0)) (find_attribute attr.now
        (child_attributes grammar.now c.1))) (find_child grammar.now class name.now) }
    ensures child { IfSome result (IsSlotIn grammar.now class) }
{
    match child(grammar, tables, class, name) {
        Some(found) => match shared_attr(grammar, tables, found.info.interface, attr) {
            Some(attr) => {
                if inherits(attr.kind) {
                    Some(RuleSlot::Kid(found.number, attr.number))
                } else {
                    None
                }
            }
            None => None,
        },
        None => None,
    }
}

pub(crate) fn is_own(kind: AttrKind) -> bool
    ensures own { result ≡ is_synthesized_or_local kind }
{
    match kind {
        AttrKind::Syn | AttrKind::Local => true,
        AttrKind::Inh | AttrKind::Input => false,
    }
}

/// The expressions of a rule for this slot, where it has a right form.
pub(crate) fn form<'a>(
    grammar: &Grammar,
    tables: &Tables,
    class: u32,
    slot: RuleSlot,
    body: &'a FlatBody<'a>,
) -> Option<RuleForm<'a>>
    requires tables { tables.now ≡ tables_of grammar.now }
    requires within { class < length grammar.now.classes }
    requires slot { IsSlotIn grammar.now class slot }
    ensures form { option_map parts_in result
        ≡ option_map parts_of (form_of grammar.now class (slot_in slot) (body_in body.now)) }
    ensures children { IfSome result (IsFormIn grammar.now class) }
{
    match slot {
        RuleSlot::Own(_) => own_form(grammar, tables, class, body),
        RuleSlot::Kid(kid, _) => {
            let many = child_of(grammar, tables, class, kid).many;
            kid_form(kid, many, body)
        }
    }
}

fn own_form<'a>(
    grammar: &Grammar,
    tables: &Tables,
    class: u32,
    body: &'a FlatBody<'a>,
) -> Option<RuleForm<'a>>
    requires tables { tables.now ≡ tables_of grammar.now }
    requires within { class < length grammar.now.classes }
    ensures form { (a : ℕ) → option_map parts_in result
        ≡ option_map parts_of (form_of grammar.now class (own_slot a) (body_in body.now)) }
    ensures children { IfSome result (IsFormIn grammar.now class) }
{
    match body {
        FlatBody::Plain(expr) => Some(one(At::ForSelf, expr)),
        FlatBody::FirstThen(_, _) => None,
        FlatBody::Fold(name, start, step) => match child(grammar, tables, class, name.text()) {
            Some(found) => {
                if found.info.many {
                    Some(two(At::ForSelf, start, At::InStep(found.number), step))
                } else {
                    None
                }
            }
            None => None,
        },
    }
}

fn kid_form<'a>(kid: u32, many: bool, body: &'a FlatBody<'a>) -> Option<RuleForm<'a>>
    ensures form { (g : Grammar) (k a : ℕ) → many ≡ (child_at g k kid).many
        → option_map parts_in result
        ≡ option_map parts_of (form_of g k (kid_slot kid a) (body_in body.now)) }
    ensures children { (g : Grammar) (k : ℕ) → kid < length (class_at g k).children
        → IfSome result (IsFormIn g k) }
{
    match body {
        FlatBody::Plain(expr) => {
            if many {
                Some(one(At::ForKids(kid), expr))
            } else {
                Some(one(At::ForSingle, expr))
            }
        }
        FlatBody::FirstThen(first, later) => {
            if many {
                Some(two(At::ForKids(kid), first, At::ForLater(kid), later))
            } else {
                None
            }
        }
        FlatBody::Fold(_, _, _) => None,
    }
}

fn one<'a>(at: At, expr: &'a FlatExpr<'a>) -> RuleForm<'a>
    ensures first { result.first ≡ record { at = at; expr = expr.entry } }
    ensures second { result.second ≡ None }
{
    RuleForm {
        first: Part { at, expr },
        second: None,
    }
}

fn two<'a>(at: At, first: &'a FlatExpr<'a>, then: At, second: &'a FlatExpr<'a>) -> RuleForm<'a>
    ensures first { result.first ≡ record { at = at; expr = first.entry } }
    ensures second { result.second ≡ Some (record { at = then; expr = second.entry }) }
{
    RuleForm {
        first: Part { at, expr: first },
        second: Some(Part {
            at: then,
            expr: second,
        }),
    }
}
