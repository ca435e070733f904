//! The nodes that are open, in one another.

ghost use Rattle.std.specs.Prelude.{◌≡◌, ◌<◌, ◌++◌, ◌∷◌, [], length, drop, IsNone, IsTrue, OnOk};
ghost use Rattle.std.specs.Option.{option_to_list};
ghost use Rattle.ftl_document.specs.syntax.Braces.{deepest};
ghost use Rattle.ftl_document.specs.pass.Left.{at_child, at_kid};

use crate::pass::passed::Standing;
use crate::syntax::DEEPEST;
use std::alloc::{AllocError, Global};
use std::marker::Model;

/// What is open of a node: its braces alone, or also the list of a child, whose next node stands
/// so.
#[derive(Clone, Copy)]
pub(crate) enum Within {
    Braces,
    List(Standing),
}

/// A node of this class whose inputs were taken, and the child of it that comes next, behind the
/// list that is open where one is.
#[derive(Clone, Copy)]
pub(crate) struct OpenNode {
    pub(crate) class: u32,
    pub(crate) node: u32,
    pub(crate) child: u32,
    pub(crate) within: Within,
}

impl OpenNode {
    /// Where this child comes next.
    #[inline(always)]
    pub(crate) fn with_child(self, child: u32) -> OpenNode
        ensures child { result ≡ at_child self.class self.node child }
    {
        OpenNode {
            class: self.class,
            node: self.node,
            child,
            within: Within::Braces,
        }
    }

    /// Where this node of a list comes next, and then this child.
    #[inline(always)]
    pub(crate) fn with_kid(self, child: u32, kid: Standing) -> OpenNode
        ensures kid { result ≡ at_kid self.class self.node child kid }
    {
        OpenNode {
            class: self.class,
            node: self.node,
            child,
            within: Within::List(kid),
        }
    }
}

/// Open nodes in one another. Contracts see them from the innermost one on.
#[derive(Drop)]
pub(crate) struct OpenNodes {
    nodes: Vec<OpenNode>,
}

impl Model for OpenNodes {
    ghost use Rattle.std.specs.Prelude.{List, reverse};
    ghost use Rattle.ftl_document.specs.declared.pass.open_nodes.OpenNode.{OpenNode};

    ghost Value = { List OpenNode };

    ghost view = { λ s. reverse s.nodes.items };
}

impl OpenNodes {
    pub(crate) fn new(alloc: Global) -> OpenNodes
        ensures empty { result ≡ [] }
    {
        OpenNodes {
            nodes: Vec::new(alloc),
        }
    }

    /// Whether one more may be open.
    #[inline(always)]
    pub(crate) fn has_room(&self) -> bool
        ensures room { IsTrue result → length self.now < deepest }
    {
        self.nodes.len() < DEEPEST
    }

    #[inline(always)]
    pub(crate) fn push(&mut self, node: OpenNode) -> Result<(), AllocError>
        ensures pushed { OnOk result (self.new ≡ node ∷ self.old) }
    {
        self.nodes.push(node)?;
        Ok(())
    }

    /// The innermost one.
    #[inline(always)]
    pub(crate) fn innermost(&self) -> Option<OpenNode>
        ensures innermost { self.now ≡ option_to_list result ++ drop 1 self.now }
        ensures ended { IsNone result → self.now ≡ [] }
    {
        self.nodes.last().copied()
    }

    /// Puts one in the place of the innermost one.
    #[inline(always)]
    pub(crate) fn replace(&mut self, node: OpenNode)
        requires some { 0 < length self.old }
        ensures replaced { self.new ≡ node ∷ drop 1 self.old }
    {
        let last = self.nodes.len() - 1;
        self.nodes[last] = node;
    }

    /// Takes the innermost one away.
    #[inline(always)]
    pub(crate) fn close(&mut self)
        ensures closed { self.new ≡ drop 1 self.old }
    {
        self.nodes.pop();
    }
}
