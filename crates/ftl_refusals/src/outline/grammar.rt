//! The parts of a grammar.

use crate::tokens::kind_at;
use ftl_tokens::{Kind, TokenizedText};
use std::alloc::{AllocError, Global};

/// What stands at a token of a grammar.
#[derive(Clone, Copy, PartialEq, Eq)]
pub enum Role {
    /// The name after `root`.
    Root,
    /// The name of an interface that is declared.
    Interface,
    /// The name of a class that is declared.
    Class,
    /// The interface of a class.
    ClassInterface,
    /// An `inh` that is declared.
    Inherited,
    /// A `syn` that is declared.
    Synthesized,
    /// An `input` that is declared.
    Input,
    /// A `local` that is declared.
    Local,
    /// A name after `show`.
    Shown,
    /// A child that is declared.
    Child,
    /// The interface of a single child.
    SingleOf,
    /// The interface of a list of children.
    ListOf,
    /// What a rule gives a value, as `self.w`.
    Target,
    /// A read, as `this.w`.
    Read,
    /// A read of a list's last kid, behind the word `last`.
    LastRead,
    /// The list that a `fold` goes over.
    FoldList,
}

/// A token of a grammar that plays a role.
#[derive(Clone, Copy)]
pub struct Part {
    pub role: Role,
    /// The token.
    pub token: usize,
    /// The token that names the interface or the class in which it stands.
    pub owner: usize,
    /// In a rule the token at which its target begins.
    pub rule: usize,
}

/// In what the tokens stand that come next.
#[derive(Clone, Copy)]
enum Within {
    Root,
    Head,
    Declared(Role),
    Members,
    Body,
}

/// The parts of a grammar, in the order of its tokens.
pub fn grammar_parts(alloc: Global, scanned: &TokenizedText) -> Result<Vec<Part>, AllocError> {
    let mut parts = Vec::new(alloc);
    let mut within = Within::Members;
    let mut owner = 0;
    let mut rule = 0;
    for k in 0..scanned.list().len() {
        within = within_after(within, kind_at(scanned, k));
        if let Some(role) = role_at(scanned, within, k) {
            owner = if is_owner(role) { k } else { owner };
            rule = if role == Role::Target { k } else { rule };
            parts.push(Part {
                role,
                token: k,
                owner,
                rule,
            })?;
        }
    }
    Ok(parts)
}

fn is_owner(role: Role) -> bool {
    role == Role::Interface || role == Role::Class
}

/// In what the tokens stand from one of this kind on.
fn within_after(within: Within, kind: Option<Kind>) -> Within {
    match kind {
        Some(Kind::Root) => Within::Root,
        Some(Kind::Interface | Kind::Class) => Within::Head,
        Some(Kind::Inh) => Within::Declared(Role::Inherited),
        Some(Kind::Syn) => Within::Declared(Role::Synthesized),
        Some(Kind::Input) => Within::Declared(Role::Input),
        Some(Kind::Local) => Within::Declared(Role::Local),
        Some(Kind::Show) => Within::Declared(Role::Shown),
        Some(Kind::Semicolon | Kind::LeftBrace | Kind::RightBrace) => Within::Members,
        Some(Kind::Assign) => Within::Body,
        _ => within,
    }
}

/// The role of token `k`, if it plays one.
fn role_at(scanned: &TokenizedText, within: Within, k: usize) -> Option<Role> {
    let kind = kind_at(scanned, k)?;
    let before = kind_before(scanned, k);
    let after = kind_at(scanned, k.saturating_add(1));
    match within {
        Within::Root if kind == Kind::Name => Some(Role::Root),
        Within::Head if kind == Kind::Name => head_role(before),
        Within::Declared(role) if kind == Kind::Name => Some(role),
        Within::Members if is_owner_of_read(kind) => member_role(before, after),
        Within::Body if is_owner_of_read(kind) => body_role(before, after),
        _ => None,
    }
}

/// The kind of the token before token `k`.
fn kind_before(scanned: &TokenizedText, k: usize) -> Option<Kind> {
    match k.checked_sub(1) {
        Some(before) => kind_at(scanned, before),
        None => None,
    }
}

fn is_owner_of_read(kind: Kind) -> bool {
    match kind {
        Kind::Name | Kind::SelfWord | Kind::This | Kind::Prev => true,
        _ => false,
    }
}

fn head_role(before: Option<Kind>) -> Option<Role> {
    match before {
        Some(Kind::Interface) => Some(Role::Interface),
        Some(Kind::Class) => Some(Role::Class),
        Some(Kind::Colon) => Some(Role::ClassInterface),
        _ => None,
    }
}

/// The role of a name in a child's declaration or before the `:=` of a rule.
fn member_role(before: Option<Kind>, after: Option<Kind>) -> Option<Role> {
    match (before, after) {
        (Some(Kind::Dot), _) => None,
        (Some(Kind::Colon), _) => Some(Role::SingleOf),
        (Some(Kind::LeftBracket), _) => Some(Role::ListOf),
        (_, Some(Kind::Colon)) => Some(Role::Child),
        (_, Some(Kind::Dot)) => Some(Role::Target),
        _ => None,
    }
}

/// The role of a name behind the `:=` of a rule.
fn body_role(before: Option<Kind>, after: Option<Kind>) -> Option<Role> {
    match (before, after) {
        (Some(Kind::Dot), _) => None,
        (Some(Kind::Fold), _) => Some(Role::FoldList),
        (Some(Kind::Last), Some(Kind::Dot)) => Some(Role::LastRead),
        (_, Some(Kind::Dot)) => Some(Role::Read),
        _ => None,
    }
}
