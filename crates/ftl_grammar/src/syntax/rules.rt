//! Grammars as they are written: interfaces, and classes with their rules.

use crate::syntax::expression::Expr;
use ftl_tokens::Name;
use sqlite_items::Items;

#[derive(Drop)]
pub struct Grammar {
    /// The name of the root's interface.
    pub root: Name,
    /// The interfaces, in their order in the text.
    pub interfaces: InterfaceList,
    /// The classes, in their order in the text.
    pub classes: ClassList,
}

pub type InterfaceList = Items<Interface>;

pub type ClassList = Items<Class>;

/// What a grammar is made of, after its root.
#[derive(Drop)]
pub enum Declaration {
    Interface(Interface),
    Class(Class),
}

#[derive(Drop)]
pub struct Interface {
    pub name: Name,
    pub attrs: AttrDecls,
    /// The attributes after `show`.
    pub shown: NameList,
}

pub type AttrDecls = Items<AttrDecl>;

pub type NameList = Items<Name>;

#[derive(Drop)]
pub struct Class {
    pub name: Name,
    /// The name of its interface.
    pub interface: Name,
    /// Its own attributes.
    pub attrs: AttrDecls,
    pub children: ChildList,
    pub rules: RuleList,
}

pub type ChildList = Items<Child>;

pub type RuleList = Items<Rule>;

#[derive(Drop)]
pub struct AttrDecl {
    pub kind: AttrKind,
    pub name: Name,
}

/// The word that an attribute is declared with.
#[derive(Clone, Copy, Debug, PartialEq, Eq)]
pub enum AttrKind {
    Inh,
    Syn,
    Input,
    Local,
}

#[derive(Drop)]
pub struct Child {
    pub name: Name,
    /// The name of its interface.
    pub interface: Name,
    /// Whether it is a list: its interface stands in square brackets.
    pub many: bool,
}

#[derive(Drop)]
pub struct Rule {
    pub target: Target,
    pub body: Body,
}

/// The attribute that a rule gives a value.
#[derive(Drop)]
pub enum Target {
    /// Of the node itself: `self`.
    Own(Name),
    /// Of the child with the first name.
    Of(Name, Name),
}

#[derive(Drop)]
pub enum Body {
    Plain(Expr),
    /// `first` an expression `then` another
    FirstThen(Expr, Expr),
    /// `fold` a child `from` an expression `with` another
    Fold(Name, Expr, Expr),
}
