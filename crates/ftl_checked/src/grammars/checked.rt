//! A lawful grammar, with its numbers.
ghost use Rattle.std.specs.Prelude.{◌≡◌, ◌<◌, None, length, map, IfOk};
ghost use Rattle.std.specs.Option.{option_map};
ghost use Rattle.ftl_grammar.specs.reading.Readable.{CanBeRead};
ghost use Rattle.ftl_meaning.specs.faults.Allowed.{leaf_of};
ghost use Rattle.ftl_meaning.specs.faults.Checked.{all_attributes, all_rules, attribute_at};
ghost use Rattle.ftl_meaning.specs.faults.Checked.{attribute_info, attribute_named};
ghost use Rattle.ftl_meaning.specs.faults.Checked.{child_info, class_named, field_named};
ghost use Rattle.ftl_meaning.specs.faults.Checked.{owner_name_of, rule_info_at};
ghost use Rattle.ftl_meaning.specs.faults.Counts.{HasSmallCounts};
ghost use Rattle.ftl_meaning.specs.faults.FirstFault.{first_fault};
ghost use Rattle.ftl_meaning.specs.faults.Kinds.{HasKinds};
ghost use Rattle.ftl_checked.specs.grammars.Positions.{IsWithin, position_of};
ghost use Rattle.ftl_checked.specs.grammars.ReadNumbers.{leaf_in, leaves_in, rule_leaves_at};
ghost use Rattle.ftl_checked.specs.grammars.Kept.{IsKept};
ghost use Rattle.ftl_meaning.specs.faults.Numbering.{class_at, child_at, interface_number};
ghost use Rattle.ftl_meaning.specs.faults.Numbering.{interface_of};
ghost use Rattle.ftl_meaning.specs.faults.RuleNames.{rule_name_at};
ghost use Rattle.ftl_checked.specs.lookup.Tables.{tables_of};

use crate::grammars::numbered_read::{NumberedRead, PartReads, number_of};
use crate::grammars::reading::At;
use crate::grammars::rules::CheckedRules;
use crate::lookup::{
    Tables, attr_name, attribute_in, child_of, class_table, field_in, owner_name, rule_name,
};
use ftl_base::Width;
use ftl_grammar::Grammar;
use ftl_meaning::{AttrInfo, ChildInfo, Field, ReadRef, RuleInfo, RuleName};
use ftl_tokens::Name;
use sqlite_items::Items;
use std::alloc::{AllocError, Global};
use std::marker::Model;

/// A lawful grammar with the width of its numbers. Contracts see both.
#[derive(Drop)]
pub struct Checked {
    grammar: Grammar,
    width: Width,
    tables: Tables,
    attrs: Items<AttrInfo>,
    rules: Items<RuleInfo>,
    reads: Items<Items<PartReads>>,
    root: u32,
}

impl Model for Checked {
    ghost use Rattle.std.specs.Coded.{codes};
    ghost use Rattle.ftl_grammar.specs.contracts.syntax.expression.Expr as e;
    ghost use Rattle.ftl_meaning.specs.faults.Checked.{CheckedGrammar};
    ghost use Rattle.ftl_checked.specs.grammars.Kept.{IsKept};

    ghost Value = { CheckedGrammar };

    ghost coded = { Prim.hlevel (codes, e.the_row.coded) };

    ghost view = { λ c. record { grammar = c.grammar; width = c.width } };

    ghost invariant = { λ c. IsKept c.grammar c.tables c.attrs c.rules c.reads c.root };
}

impl Checked {
    pub(crate) fn new(
        grammar: Grammar,
        width: Width,
        tables: Tables,
        attrs: Items<AttrInfo>,
        rules: CheckedRules,
        root: u32,
    ) -> Checked
        requires kept { IsKept grammar tables attrs rules.infos rules.reads root }
        ensures grammar { result.grammar ≡ grammar }
        ensures width { result.width ≡ width }
    {
        Checked {
            grammar,
            width,
            tables,
            attrs,
            rules: rules.infos,
            reads: rules.reads,
            root,
        }
    }

    pub fn grammar(&self) -> &Grammar
        ensures grammar { result.now ≡ self.now.grammar }
        ensures lawful { first_fault self.now.grammar ≡ None }
        ensures readable { CanBeRead self.now.grammar }
        ensures kinds { HasKinds self.now.grammar }
    {
        &self.grammar
    }

    pub(crate) fn tables(&self) -> &Tables
        ensures tables { result.now ≡ tables_of self.now.grammar }
        ensures small { HasSmallCounts self.now.grammar }
    {
        &self.tables
    }

    pub fn width(&self) -> Width
        ensures width { result ≡ self.now.width }
    {
        self.width
    }

    /// The number of the root's interface.
    pub fn root(&self) -> u32
        ensures root { result ≡ interface_number self.now.grammar self.now.grammar.root }
    {
        self.root
    }

    pub fn interface_count(&self) -> u32
        ensures count { result ≡ length self.now.grammar.interfaces }
    {
        self.grammar.interfaces.len() as u32
    }

    pub fn class_count(&self) -> u32
        ensures count { result ≡ length self.now.grammar.classes }
    {
        self.grammar.classes.len() as u32
    }

    pub fn attr_count(&self) -> u32
        ensures count { result ≡ length (all_attributes self.now.grammar) }
    {
        self.attrs.len() as u32
    }

    pub fn rule_count(&self) -> u32
        ensures count { result ≡ length (all_rules self.now.grammar) }
    {
        self.rules.len() as u32
    }

    /// The number of a class's interface.
    pub fn interface_of(&self, class: u32) -> u32
        requires within { class < length self.now.grammar.classes }
        ensures interface { result ≡ interface_of self.now.grammar class }
    {
        class_table(&self.grammar, &self.tables, class).interface
    }

    pub fn attr(&self, attr: u32) -> AttrInfo
        requires within { attr < length (all_attributes self.now.grammar) }
        ensures info { result
            ≡ attribute_info self.now.grammar (attribute_at self.now.grammar attr) }
    {
        self.attrs.as_slice()[attr as usize]
    }

    /// The name of an attribute.
    pub fn attr_name(&self, attr: u32) -> &Name
        requires within { attr < length (all_attributes self.now.grammar) }
        ensures name { result.now ≡ (attribute_at self.now.grammar attr).decl.name }
    {
        attr_name(&self.grammar, &self.tables, self.attr(attr), attr)
    }

    /// The name of the interface or class that declares an attribute.
    pub fn owner_name(&self, attr: u32) -> &Name
        requires within { attr < length (all_attributes self.now.grammar) }
        ensures name { result.now
            ≡ owner_name_of self.now.grammar (attribute_at self.now.grammar attr) }
    {
        owner_name(&self.grammar, self.attr(attr), attr)
    }

    pub fn class_name(&self, class: u32) -> &Name
        requires within { class < length self.now.grammar.classes }
        ensures name { result.now ≡ (class_at self.now.grammar class).name }
    {
        &self.grammar.classes.as_slice()[class as usize].name
    }

    pub fn child_count(&self, class: u32) -> u32
        requires within { class < length self.now.grammar.classes }
        ensures count { result ≡ length (class_at self.now.grammar class).children }
    {
        self.grammar.classes.as_slice()[class as usize]
            .children
            .len() as u32
    }

    pub fn child(&self, class: u32, child: u32) -> ChildInfo
        requires within { class < length self.now.grammar.classes }
        requires child { child < length (class_at self.now.grammar class).children }
        ensures info { result
            ≡ child_info self.now.grammar (child_at self.now.grammar class child) }
    {
        child_of(&self.grammar, &self.tables, class, child)
    }

    pub fn rule(&self, rule: u32) -> RuleInfo
        requires within { rule < length (all_rules self.now.grammar) }
        ensures info { result ≡ rule_info_at self.now.grammar rule }
    {
        self.rules.as_slice()[rule as usize]
    }

    /// What a rule reads, part by part in the order of the text.
    pub fn rule_reads(&self, rule: u32) -> &[PartReads]
        requires within { rule < length (all_rules self.now.grammar) }
        ensures reads { map leaves_in result.now ≡ rule_leaves_at self.now.grammar rule }
    {
        self.reads.as_slice()[rule as usize].as_slice()
    }

    /// What a read stands for in an expression of this class in this position; none where it may
    /// not stand there.
    pub fn read_number(&self, class: u32, at: At, read: &ReadRef<'_>) -> Option<NumberedRead>
        requires within { class < length self.now.grammar.classes }
        requires at { IsWithin self.now.grammar class at }
        ensures leaf { option_map leaf_in result
            ≡ leaf_of self.now.grammar class (position_of at) read.now }
    {
        number_of(&self.grammar, &self.tables, class, at, read)
    }

    /// What a rule defines, by name, as faults name it.
    pub fn rule_name(&self, alloc: Global, rule: u32) -> Result<RuleName, AllocError>
        requires within { rule < length (all_rules self.now.grammar) }
        ensures name { IfOk result (λ r. r ≡ rule_name_at self.now.grammar rule) }
    {
        rule_name(alloc, &self.grammar, self.rule(rule).class, rule)
    }

    /// The class of this name.
    pub fn find_class(&self, name: &str) -> Option<u32>
        ensures class { result ≡ class_named self.now.grammar name.now }
    {
        self.tables.class_names.place(name)
    }

    /// The computed attribute that a schedule names so, by its owner's name and its own: an `inh`
    /// or `syn` of the interface, or a `local` of the class.
    pub fn find_attribute(&self, owner: &str, attr: &str) -> Option<u32>
        ensures attribute { result ≡ attribute_named self.now.grammar owner.now attr.now }
    {
        attribute_in(&self.grammar, &self.tables, owner, attr)
    }

    /// The input or child that a field of this name is, of a node of this class.
    pub fn find_field(&self, class: u32, name: &str) -> Option<Field>
        requires within { class < length self.now.grammar.classes }
        ensures field { result ≡ field_named self.now.grammar class name.now }
    {
        field_in(&self.grammar, &self.tables, class, name)
    }
}
