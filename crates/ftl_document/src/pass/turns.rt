//! The nodes of a document, as they come. Those that are open stand on a stack, and each turn takes
//! what comes next in the innermost one.

ghost use Rattle.std.specs.Prelude.{◌≡◌, ◌<◌, ◌∷◌, drop, length, OnOk};
ghost use Rattle.ftl_document.specs.pass.Left.{AreKnown, IsLeft, IsNodeTurn, IsTurn};
ghost use Rattle.ftl_document.specs.pass.Left.{at_child, at_kid};
ghost use Rattle.ftl_document.specs.pass.Parts.{state_of};
ghost use Rattle.ftl_document.specs.pass.Steps.{IsReady};

use crate::pass::nodes::Pass;
use crate::pass::open_nodes::{OpenNode, OpenNodes, Within};
use crate::pass::passed::{Passed, Standing};
use crate::syntax::MOST_NODES;
use ftl_tokens::{Kind, ReadFault};
use ftl_tree::Place;

impl<'g> Pass<'g> {
    /// Takes what is left of all open nodes. Each turn takes at least a byte, so that there are as
    /// many turns as it takes.
    pub(crate) fn finish(
        &self,
        stack: &mut OpenNodes,
        passed: &mut Passed<'_>,
    ) -> Result<(), ReadFault>
        requires ready { IsReady self.now }
        requires known { AreKnown self.now.checked.now.grammar stack.old }
        ensures left { OnOk result (IsLeft self.now.checked.now.grammar self.now.greatest stack.old
            (state_of self.now.greatest passed.old) (state_of self.now.greatest passed.new)) }
    {
        for _ in 0..passed.rest.len() + 1 {
            match stack.innermost() {
                Some(node) => self.turn(node, stack, passed)?,
                None => return Ok(()),
            }
        }
        Err(ReadFault::Refused)
    }

    /// Takes what comes next in this node, in which no other one is open.
    #[inline(always)]
    fn turn(
        &self,
        node: OpenNode,
        stack: &mut OpenNodes,
        passed: &mut Passed<'_>,
    ) -> Result<(), ReadFault>
        requires ready { IsReady self.now }
        requires innermost { stack.old ≡ node ∷ drop 1 stack.old }
        requires known { AreKnown self.now.checked.now.grammar stack.old }
        ensures turn { OnOk result (IsTurn self.now.checked.now.grammar self.now.greatest
            stack.old (state_of self.now.greatest passed.old)
            stack.new (state_of self.now.greatest passed.new)) }
    {
        match node.within {
            Within::List(kid) => self.kid(kid, node, stack, passed),
            Within::Braces => self.child(node, stack, passed),
        }
    }

    /// Takes a node of its list, which stands so, or `]`.
    #[inline(always)]
    fn kid(
        &self,
        kid: Standing,
        node: OpenNode,
        stack: &mut OpenNodes,
        passed: &mut Passed<'_>,
    ) -> Result<(), ReadFault>
        requires ready { IsReady self.now }
        requires innermost { stack.old ≡ node ∷ drop 1 stack.old }
        requires known { AreKnown self.now.checked.now.grammar stack.old }
        ensures turn { OnOk result (IsTurn self.now.checked.now.grammar self.now.greatest
            (at_kid node.class node.node node.child kid ∷ drop 1 stack.old)
            (state_of self.now.greatest passed.old)
            stack.new (state_of self.now.greatest passed.new)) }
    {
        if passed.ends() {
            stack.replace(node.with_child(node.child));
            return passed.mark(Kind::RightBracket);
        }
        if kid.place.kid >= MOST_NODES {
            return Err(ReadFault::Refused);
        }
        stack.replace(node.with_kid(node.child, kid.with_kid(kid.place.kid + 1)));
        self.node(kid, stack, passed)
    }

    /// Takes the name of its next child, and the node that stands there or `[`; or `}`.
    #[inline(always)]
    fn child(
        &self,
        node: OpenNode,
        stack: &mut OpenNodes,
        passed: &mut Passed<'_>,
    ) -> Result<(), ReadFault>
        requires ready { IsReady self.now }
        requires innermost { stack.old ≡ node ∷ drop 1 stack.old }
        requires known { AreKnown self.now.checked.now.grammar stack.old }
        ensures turn { OnOk result (IsTurn self.now.checked.now.grammar self.now.greatest
            (at_child node.class node.node node.child ∷ drop 1 stack.old)
            (state_of self.now.greatest passed.old)
            stack.new (state_of self.now.greatest passed.new)) }
    {
        if node.child >= self.checked.child_count(node.class) {
            stack.close();
            return passed.mark(Kind::RightBrace);
        }
        self.child_name(node.class, node.child, passed)?;
        let info = self.checked.child(node.class, node.child);
        let next = Standing {
            wanted: info.interface,
            parent: node.node,
            place: Place {
                child: node.child,
                kid: 0,
            },
        };
        if info.many {
            stack.replace(node.with_kid(node.child + 1, next));
            passed.mark(Kind::LeftBracket)
        } else {
            stack.replace(node.with_child(node.child + 1));
            self.node(next, stack, passed)
        }
    }

    /// Takes a node that stands so in the innermost open one: as far as its children, with which it
    /// is open, or all of it where its class has none.
    #[inline(always)]
    pub(crate) fn node(
        &self,
        next: Standing,
        stack: &mut OpenNodes,
        passed: &mut Passed<'_>,
    ) -> Result<(), ReadFault>
        requires ready { IsReady self.now }
        requires known { AreKnown self.now.checked.now.grammar stack.old }
        ensures turn { OnOk result (IsNodeTurn self.now.checked.now.grammar self.now.greatest next
            stack.old (state_of self.now.greatest passed.old)
            stack.new (state_of self.now.greatest passed.new)) }
    {
        if !stack.has_room() {
            return Err(ReadFault::Refused);
        }
        let class = self.class(next.wanted, passed)?;
        passed.mark(Kind::LeftBrace)?;
        let node = passed.add_node(next, class, self.width(class))?;
        self.inputs(class, passed)?;
        self.children(class, node, stack, passed)
    }

    /// Opens a node, whose children come next, or where its class has none, takes `}`.
    #[inline(always)]
    fn children(
        &self,
        class: u32,
        node: u32,
        stack: &mut OpenNodes,
        passed: &mut Passed<'_>,
    ) -> Result<(), ReadFault>
        requires ready { IsReady self.now }
        requires class { class < length self.now.checked.now.grammar.classes }
        requires known { AreKnown self.now.checked.now.grammar stack.old }
        ensures turn { OnOk result (IsTurn self.now.checked.now.grammar self.now.greatest
            (at_child class node 0 ∷ stack.old) (state_of self.now.greatest passed.old)
            stack.new (state_of self.now.greatest passed.new)) }
    {
        if self.checked.child_count(class) == 0 {
            return passed.mark(Kind::RightBrace);
        }
        stack.push(OpenNode {
            class,
            node,
            child: 0,
            within: Within::Braces,
        })?;
        Ok(())
    }
}
