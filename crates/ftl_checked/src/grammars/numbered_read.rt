//! What the reads of rules are, by number.
ghost use Rattle.std.specs.Prelude.{◌≡◌, ◌<◌, length};
ghost use Rattle.std.specs.Option.{option_and_then, option_map};
ghost use Rattle.ftl_model.specs.layout.AttributeGrammar.{self_read};
ghost use Rattle.ftl_meaning.specs.faults.Allowed.{last_leaf, leaf_by, leaf_of, prev_form};
ghost use Rattle.ftl_meaning.specs.faults.Allowed.{single_leaf, this_form};
ghost use Rattle.ftl_meaning.specs.faults.Counts.{HasSmallCounts};
ghost use Rattle.ftl_checked.specs.grammars.Positions.{IsWithin, position_of};
ghost use Rattle.ftl_meaning.specs.faults.Numbering.{child_at, child_attributes, class_at};
ghost use Rattle.ftl_meaning.specs.faults.Numbering.{class_attributes, find_attribute, find_child};
ghost use Rattle.ftl_checked.specs.grammars.ReadNumbers.{leaf_in};
ghost use Rattle.ftl_checked.specs.lookup.Tables.{tables_of};

use crate::grammars::reading::{At, reads_acc, reads_last};
use crate::lookup::{Tables, child, child_of, class_attr, shared_attr};
use ftl_grammar::Grammar;
use ftl_meaning::{ReadKind, ReadRef};
use sqlite_items::Items;

/// What a name in a rule stands for: the child, if there is one, and the attribute.
#[derive(Clone, Copy, Debug, PartialEq, Eq)]
pub enum NumberedRead {
    /// Of the node itself.
    Own(u32),
    /// Of a single child.
    Single(u32, u32),
    /// Of the kid that a fold has come to.
    Each(u32, u32),
    /// Of the kid that the rule is for.
    This(u32, u32),
    /// Of the kid before that one.
    Prev(u32, u32),
    /// Of the last kid.
    Last(u32, u32),
    /// What a fold has so far.
    Acc,
}

/// The reads of an expression of a rule, in the order of the text, with its position.
#[derive(Drop)]
pub struct PartReads {
    pub at: At,
    pub reads: Items<NumberedRead>,
}

/// What a read stands for in an expression of this class in this position; none where it may not
/// stand there, or names nothing.
pub(crate) fn number_of(
    grammar: &Grammar,
    tables: &Tables,
    class: u32,
    at: At,
    read: &ReadRef<'_>,
) -> Option<NumberedRead>
    requires small { HasSmallCounts grammar.now }
    requires tables { tables.now ≡ tables_of grammar.now }
    requires within { class < length grammar.now.classes }
    requires at { IsWithin grammar.now class at }
    ensures leaf { option_map leaf_in result
        ≡ leaf_of grammar.now class (position_of at) read.now }
{
    match read.kind() {
        ReadKind::Own(attr) => own_number(grammar, tables, class, attr.text()),
        ReadKind::This(attr) => this_number(grammar, tables, class, at, attr.text()),
        ReadKind::Prev(attr) => prev_number(grammar, tables, class, at, attr.text()),
        ReadKind::Of(name, attr) => {
            single_number(grammar, tables, class, name.text(), attr.text())
        }
        ReadKind::Last(name, attr) => {
            if reads_last(at) {
                last_number(grammar, tables, class, name.text(), attr.text())
            } else {
                None
            }
        }
        ReadKind::Acc => {
            if reads_acc(at) {
                Some(NumberedRead::Acc)
            } else {
                None
            }
        }
    }
}

fn own_number(grammar: &Grammar, tables: &Tables, class: u32, attr: &str) -> Option<NumberedRead>
    requires small { HasSmallCounts grammar.now }
    requires tables { tables.now ≡ tables_of grammar.now }
    requires within { class < length grammar.now.classes }
    ensures leaf { option_map leaf_in result
        ≡ leaf_by self_read attr.now (class_attributes grammar.now class) }
{
    match class_attr(grammar, tables, class, attr) {
        Some(found) => Some(NumberedRead::Own(found.number)),
        None => None,
    }
}

/// The number of an attribute of a child's interface.
fn kid_number(grammar: &Grammar, tables: &Tables, class: u32, kid: u32, attr: &str) -> Option<u32>
    requires small { HasSmallCounts grammar.now }
    requires tables { tables.now ≡ tables_of grammar.now }
    requires within { class < length grammar.now.classes }
    requires kid { kid < length (class_at grammar.now class).children }
    ensures number { result ≡ option_map (λ a. a.0) (find_attribute attr.now
        (child_attributes grammar.now (child_at grammar.now class kid))) }
{
    let info = child_of(grammar, tables, class, kid);
    match shared_attr(grammar, tables, info.interface, attr) {
        Some(found) => Some(found.number),
        None => None,
    }
}

/// The attribute of the kid at hand, where there is one.
fn this_number(
    grammar: &Grammar,
    tables: &Tables,
    class: u32,
    at: At,
    attr: &str,
) -> Option<NumberedRead>
    requires small { HasSmallCounts grammar.now }
    requires tables { tables.now ≡ tables_of grammar.now }
    requires within { class < length grammar.now.classes }
    requires at { IsWithin grammar.now class at }
    ensures leaf { option_map leaf_in result ≡ option_and_then
        (λ form. leaf_by (form.1 form.0) attr.now (child_attributes grammar.now
        (child_at grammar.now class form.0))) (this_form (position_of at)) }
{
    match at {
        At::ForSelf | At::ForSingle => None,
        At::ForKids(kid) | At::ForLater(kid) => {
            match kid_number(grammar, tables, class, kid, attr) {
                Some(attr) => Some(NumberedRead::This(kid, attr)),
                None => None,
            }
        }
        At::InStep(kid) => match kid_number(grammar, tables, class, kid, attr) {
            Some(attr) => Some(NumberedRead::Each(kid, attr)),
            None => None,
        },
    }
}

/// The attribute of the kid before, where there may be one.
fn prev_number(
    grammar: &Grammar,
    tables: &Tables,
    class: u32,
    at: At,
    attr: &str,
) -> Option<NumberedRead>
    requires small { HasSmallCounts grammar.now }
    requires tables { tables.now ≡ tables_of grammar.now }
    requires within { class < length grammar.now.classes }
    requires at { IsWithin grammar.now class at }
    ensures leaf { option_map leaf_in result ≡ option_and_then
        (λ form. leaf_by (form.1 form.0) attr.now (child_attributes grammar.now
        (child_at grammar.now class form.0))) (prev_form (position_of at)) }
{
    match at {
        At::ForLater(kid) => match kid_number(grammar, tables, class, kid, attr) {
            Some(attr) => Some(NumberedRead::Prev(kid, attr)),
            None => None,
        },
        At::ForSelf | At::ForSingle | At::ForKids(_) | At::InStep(_) => None,
    }
}

/// The attribute of a single child.
fn single_number(
    grammar: &Grammar,
    tables: &Tables,
    class: u32,
    name: &str,
    attr: &str,
) -> Option<NumberedRead>
    requires small { HasSmallCounts grammar.now }
    requires tables { tables.now ≡ tables_of grammar.now }
    requires within { class < length grammar.now.classes }
    ensures leaf { option_map leaf_in result ≡ option_and_then (single_leaf grammar.now attr.now)
        (find_child grammar.now class name.now) }
{
    match child(grammar, tables, class, name) {
        Some(found) => {
            if found.info.many {
                return None;
            }
            match shared_attr(grammar, tables, found.info.interface, attr) {
                Some(attr) => Some(NumberedRead::Single(found.number, attr.number)),
                None => None,
            }
        }
        None => None,
    }
}

/// The attribute of a list's last kid.
fn last_number(
    grammar: &Grammar,
    tables: &Tables,
    class: u32,
    name: &str,
    attr: &str,
) -> Option<NumberedRead>
    requires small { HasSmallCounts grammar.now }
    requires tables { tables.now ≡ tables_of grammar.now }
    requires within { class < length grammar.now.classes }
    ensures leaf { option_map leaf_in result ≡ option_and_then (last_leaf grammar.now attr.now)
        (find_child grammar.now class name.now) }
{
    match child(grammar, tables, class, name) {
        Some(found) => {
            if !found.info.many {
                return None;
            }
            match shared_attr(grammar, tables, found.info.interface, attr) {
                Some(attr) => Some(NumberedRead::Last(found.number, attr.number)),
                None => None,
            }
        }
        None => None,
    }
}
