//! Searches among the parts of a grammar.

use crate::outline::grammar::{Part, Role};
use crate::tokens::word_at;
use ftl_tokens::TokenizedText;

/// A grammar's tokens with their parts.
#[derive(Drop)]
pub struct Outline<'t> {
    pub tokens: &'t TokenizedText,
    pub parts: &'t [Part],
}

/// A child of a class: the token that declares it, its interface, and whether it is a list.
#[derive(Clone, Copy)]
pub struct ChildOf<'t> {
    pub token: usize,
    pub interface: &'t str,
    pub list: bool,
}

impl<'t> Outline<'t> {
    /// The text of a token.
    pub fn word(&self, k: usize) -> &'t str {
        word_at(self.tokens, k)
    }

    /// The name behind the `.` that follows a token.
    pub fn member(&self, k: usize) -> &'t str {
        word_at(self.tokens, k.saturating_add(2))
    }

    /// Whether the part stands in the interface or class of this name.
    pub fn is_in(&self, part: &Part, owner: &str) -> bool {
        self.word(part.owner) == owner
    }

    /// The first part that plays this role and has this name, wherever it stands.
    pub fn declared(&self, role: Role, name: &str) -> Option<Part> {
        for part in self.parts {
            if part.role == role && self.word(part.token) == name {
                return Some(*part);
            }
        }
        None
    }

    /// The first part of an interface or class that plays this role and has this name.
    pub fn part(&self, role: Role, owner: &str, name: &str) -> Option<Part> {
        for part in self.parts {
            if part.role == role && self.is_in(part, owner) && self.word(part.token) == name {
                return Some(*part);
            }
        }
        None
    }

    /// The first part of an interface or class that plays this role.
    pub fn first(&self, role: Role, owner: &str) -> Option<Part> {
        for part in self.parts {
            if part.role == role && self.is_in(part, owner) {
                return Some(*part);
            }
        }
        None
    }

    /// The declaration of an attribute by an interface or a class itself.
    pub fn attribute(&self, owner: &str, name: &str) -> Option<Part> {
        for part in self.parts {
            if is_attribute(part.role) && self.is_in(part, owner) && self.word(part.token) == name {
                return Some(*part);
            }
        }
        None
    }

    /// The interface of a class; no text where there is no such class.
    pub fn interface_of(&self, class: &str) -> &'t str {
        match self.first(Role::ClassInterface, class) {
            Some(part) => self.word(part.token),
            None => "",
        }
    }

    /// The declaration of an attribute that nodes of a class have.
    pub fn attribute_of_class(&self, class: &str, name: &str) -> Option<Part> {
        match self.attribute(class, name) {
            Some(part) => Some(part),
            None => self.attribute(self.interface_of(class), name),
        }
    }

    /// The rules of a class for a target, of which the first `before` are left out.
    pub fn rule(&self, class: &str, owner: &str, name: &str, before: usize) -> Option<Part> {
        let mut left = before;
        for part in self.parts {
            if self.is_rule(part, class, owner, name) {
                if left == 0 {
                    return Some(*part);
                }
                left = left.saturating_sub(1);
            }
        }
        None
    }

    /// Whether the part is the target `owner.name` of a rule of the class.
    pub fn is_rule(&self, part: &Part, class: &str, owner: &str, name: &str) -> bool {
        part.role == Role::Target
            && self.is_in(part, class)
            && self.word(part.token) == owner
            && self.member(part.token) == name
    }
}

/// Whether a part of this role declares an attribute.
pub fn is_attribute(role: Role) -> bool {
    match role {
        Role::Inherited | Role::Synthesized | Role::Input | Role::Local => true,
        _ => false,
    }
}

/// The child of this name that a class declares.
pub fn child_of<'t>(outline: &Outline<'t>, class: &str, name: &str) -> Option<ChildOf<'t>> {
    let child = outline.part(Role::Child, class, name)?;
    let single = outline.word(child.token.saturating_add(2));
    if single == "[" {
        return Some(ChildOf {
            token: child.token,
            interface: outline.word(child.token.saturating_add(3)),
            list: true,
        });
    }
    Some(ChildOf {
        token: child.token,
        interface: single,
        list: false,
    })
}
