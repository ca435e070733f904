//! How far a pass has come.

ghost use Rattle.std.specs.Prelude.{◌≡◌, ℕ, ◌≤◌, ◌∷◌, [], length, IfOk, IsTrue, OnOk};
ghost use Rattle.ftl_tokens.specs.scanner.Tokenized.{name, fixed};
ghost use Rattle.ftl_grammar.specs.declared.syntax.rules.Grammar.{Grammar};
ghost use Rattle.ftl_meaning.specs.faults.Numbering.{class_attributes};
ghost use Rattle.ftl_document.specs.pass.Good.{before, entered, IsPlainName};
ghost use Rattle.ftl_document.specs.pass.Parts.{first_state, standing_at, state_of};
ghost use Rattle.ftl_document.specs.pass.Good.{IsDone};

use crate::nodes::MOST_INSTANCES;
use crate::pass::tokens::{past_gap, past_mark, past_name};
use crate::syntax::MOST_NODES;
use ftl_tokens::{Kind, ReadFault};
use ftl_tree::{NodeRow, Place};
use std::alloc::{AllocError, Global};

/// As few bytes as a node takes in most documents. Rows for so many nodes as the text then has are
/// reserved at once, so that they are seldom made anew as they grow. Room that is left is not
/// touched.
const NODE_BYTES: usize = 22;

/// As few bytes as an input takes in most documents, by which room for inputs is reserved likewise.
/// No page is so long that this is more than a tree may have.
const INPUT_BYTES: usize = 13;

/// The bytes that are left, and of the nodes that began before them the rows in the tree, the
/// inputs, and how many attributes they have.
#[derive(Drop)]
pub(crate) struct Passed<'a> {
    pub(crate) rest: &'a [u8],
    pub(crate) rows: Vec<NodeRow>,
    pub(crate) inputs: Vec<i64>,
    pub(crate) count: u64,
    /// The class of the last node of each interface.
    pub(crate) classes: Vec<u32>,
}

/// Where a node stands: the interface that is wanted there, its parent, and its place there.
#[derive(Clone, Copy)]
pub(crate) struct Standing {
    pub(crate) wanted: u32,
    pub(crate) parent: u32,
    pub(crate) place: Place,
}

impl Standing {
    /// Where another kid of the same child stands.
    pub(crate) fn with_kid(self, kid: u32) -> Standing
        ensures next { result ≡ standing_at self.wanted self.parent self.place.child kid }
    {
        Standing {
            wanted: self.wanted,
            parent: self.parent,
            place: Place {
                child: self.place.child,
                kid,
            },
        }
    }
}

impl<'a> Passed<'a> {
    /// Before all of a text.
    pub(crate) fn new(
        alloc: Global,
        text: &'a [u8],
        interfaces: u32,
    ) -> Result<Passed<'a>, AllocError>
        ensures first { (greatest : ℕ) → IfOk result (λ p. state_of greatest p
            ≡ first_state greatest text.now) }
    {
        Ok(Passed {
            rest: text,
            rows: Vec::with_capacity(alloc, (text.len() / NODE_BYTES).min(MOST_NODES as usize))?,
            inputs: Vec::with_capacity(alloc, text.len() / INPUT_BYTES)?,
            count: 0,
            classes: vec![in alloc; 0; interfaces as usize]?,
        })
    }

    /// The class of the last node of this interface, any where none came.
    #[inline(always)]
    pub(crate) fn last_class(&self, interface: u32) -> u32 {
        self.classes.get(interface as usize).copied().unwrap_or(0)
    }

    pub(crate) fn set_class(&mut self, interface: u32, class: u32)
        ensures same { (greatest : ℕ) → state_of greatest self.new ≡ state_of greatest self.old }
    {
        if let Some(last) = self.classes.get_mut(interface as usize) {
            *last = class;
        }
    }

    /// Takes a mark.
    #[inline(always)]
    pub(crate) fn mark(&mut self, kind: Kind) -> Result<(), ReadFault>
        ensures mark { (greatest : ℕ) → OnOk result (state_of greatest self.old
            ≡ before (fixed kind ∷ []) (state_of greatest self.new)) }
    {
        match past_mark(self.rest, kind) {
            Some(rest) => {
                self.rest = rest;
                Ok(())
            }
            None => Err(ReadFault::Refused),
        }
    }

    /// Takes a name and `=`.
    #[inline(always)]
    pub(crate) fn field(&mut self, text: &[u8]) -> Result<(), ReadFault>
        requires plain { IsPlainName text.now }
        ensures field { (greatest : ℕ) → OnOk result (state_of greatest self.old
            ≡ before (name text.now ∷ fixed Kind.Equals ∷ []) (state_of greatest self.new)) }
    {
        match past_name(self.rest, text) {
            Some(rest) => {
                self.rest = rest;
                self.mark(Kind::Equals)
            }
            None => Err(ReadFault::Refused),
        }
    }

    /// Whether all bytes are taken, and no limit is passed.
    #[tactic(auto, using(crate::proofs::pass::Starts::tokens_end))]
    pub(crate) fn is_done(&self) -> bool
        ensures done { IsTrue result → (greatest : ℕ) → IsDone (state_of greatest self.now) }
    {
        past_gap(self.rest).is_empty()
            && self.count <= MOST_INSTANCES
            && self.rows.len() <= MOST_NODES as usize
    }

    /// Whether `]` comes next. White space and comments before it are taken.
    #[inline(always)]
    pub(crate) fn ends(&mut self) -> bool
        ensures same { (greatest : ℕ) → state_of greatest self.new ≡ state_of greatest self.old }
    {
        self.rest = past_gap(self.rest);
        !self.rest.is_empty() && self.rest[0] == b']'
    }

    /// Adds a node of this class, which has so many attributes. Its number.
    #[inline(always)]
    pub(crate) fn add_node(
        &mut self,
        next: Standing,
        class: u32,
        width: u32,
    ) -> Result<u32, ReadFault>
        requires width { width ≤ 128 }
        ensures number { IfOk result (λ n. n ≡ length self.old.rows.items) }
        ensures entered { (g : Grammar) (greatest : ℕ) → width ≡ length (class_attributes g class)
            → OnOk result (state_of greatest self.new ≡ entered g class next.parent
            next.place.child next.place.kid (state_of greatest self.old)) }
    {
        let number = self.rows.len();
        if number >= MOST_NODES as usize || self.count > MOST_INSTANCES {
            return Err(ReadFault::Refused);
        }
        self.rows.push(NodeRow {
            class,
            parent: next.parent,
            place: next.place,
        })?;
        self.count += width as u64;
        Ok(number as u32)
    }
}
