//! Builders of pages.

ghost use Rattle.std.specs.Prelude.{◌≡◌, ◌↔◌, true, false, IfOk, IsTrue, OnErr, OnOk};
ghost use Rattle.std.specs.List.{All};
ghost use Rattle.ftl_base.specs.Widths.{greatest_of_width};
ghost use Rattle.ftl_building.specs.building.Calls.{closed, with_number, with_open_kid};
ghost use Rattle.ftl_building.specs.building.Calls.{with_open_list, with_open_node};
ghost use Rattle.ftl_building.specs.building.PartDocument.{document_node, document_so_far, in_node};
ghost use Rattle.ftl_building.specs.building.PartDocument.{is_whole};
ghost use Rattle.ftl_building.specs.building.PartSizes.{TakesField, TakesKid, TakesNode};
ghost use Rattle.ftl_document.specs.nodes.Found.{AreRowsOf, IsWritten};
ghost use Rattle.ftl_document.specs.syntax.Sizes.{RowIsWithin};
ghost use Rattle.ftl_document.specs.syntax.Written.{WrittenNode, no_fields};
ghost use Rattle.ftl_answer.specs.reading.sections.WrittenTrees.{built_tree};
ghost use Rattle.maugzeris.specs.building.PageParts.{TakesNumber, changed, page_part};
ghost use Rattle.maugzeris.specs.pages.PageState.{page_read};
ghost use Rattle.maugzeris.specs.refusals.Answers.{Answers};

use crate::pages::{Page, is_number, of_tree};
use crate::refusals::{Refusal, refusal_of};
use crate::rules::Rules;
use ftl_answer::reading::tree_of_document;
use ftl_building::{DocumentBuilder, numbers_stay_within};
use ftl_document::WrittenDocument;
use std::alloc::{AllocError, Global};
use std::marker::Model;

/// A page while it is built. At first its root is open, without a field. A call adds a field or a
/// node of a list to what is open innermost, or closes that; each has a test beside it that tells
/// whether it may be made. Names mean nothing until `finish`: what is wrong with them is refused
/// there. After want of memory all is as before the call.
#[derive(Drop)]
pub struct Builder<'a> {
    rules: &'a Rules<'a>,
    document: DocumentBuilder<'a>,
}

impl<'a> Model for Builder<'a> {
    ghost use Rattle.std.specs.Coded.{codes};
    ghost use Rattle.ftl_grammar.specs.contracts.syntax.expression.Expr as e;
    ghost use Rattle.ftl_building.specs.building.PartCode.{part_code};
    ghost use Rattle.maugzeris.specs.building.PageParts.{HasNumbers, PagePart, page_part};

    ghost Value = { PagePart };

    ghost coded = { Prim.hlevel (codes, e.the_row.coded, part_code) };

    ghost view = { λ b. page_part b.rules.now b.document };

    ghost invariant = { λ b. HasNumbers (page_part b.rules.now b.document) };
}

impl<'a> Rules<'a> {
    /// Begins a page whose root is of this class.
    pub fn build(&'a self, alloc: Global, class: &'a str) -> Builder<'a>
        ensures start { result
            ≡ page_part self.now (in_node (document_node class.now no_fields)) }
    {
        Builder {
            rules: self,
            document: DocumentBuilder::new(alloc, class),
        }
    }
}

impl<'a> Builder<'a> {
    /// Whether a list may come, as a field: a node is open innermost, and there is room.
    pub fn takes_list(&self) -> bool
        ensures takes { IsTrue result ↔ TakesField self.now.document }
    {
        self.document.takes_field()
    }

    /// Whether this number may come, as a field: so is it, and the number is in the range of the
    /// grammar's width.
    pub fn takes_number(&self, value: i64) -> bool
        ensures takes { IsTrue result ↔ TakesNumber self.now value }
    {
        self.document.takes_field() && is_number(self.rules.grammar().checked().width(), value)
    }

    /// Whether a node may come, as a field: fewer than 512 nodes are open, too, and there are fewer
    /// than 1048576.
    pub fn takes_node(&self) -> bool
        ensures takes { IsTrue result ↔ TakesNode self.now.document }
    {
        self.document.takes_node()
    }

    /// Whether a node of a list may come: a list is open innermost, and there is room, likewise.
    pub fn takes_kid(&self) -> bool
        ensures takes { IsTrue result ↔ TakesKid self.now.document }
    {
        self.document.takes_kid()
    }

    /// Whether the root alone is open.
    pub fn is_whole(&self) -> bool
        ensures whole { result ≡ is_whole self.now.document }
    {
        self.document.is_whole()
    }

    /// Adds an input of the open node.
    pub fn number(&mut self, name: &'a str, value: i64) -> Result<(), AllocError>
        requires takes { TakesNumber self.old value }
        ensures number { OnOk result (self.new ≡ changed (with_number name.now value) self.old) }
        ensures unchanged { OnErr result (self.new ≡ self.old) }
    {
        numbers_stay_within();
        self.document.number(name, value)
    }

    /// Opens the node in a single child of the open node.
    pub fn open_node(&mut self, name: &'a str, class: &'a str) -> Result<(), AllocError>
        requires takes { TakesNode self.old.document }
        ensures node { OnOk result
            (self.new ≡ changed (with_open_node name.now class.now) self.old) }
        ensures unchanged { OnErr result (self.new ≡ self.old) }
    {
        self.document.open_node(name, class)
    }

    /// Opens the list in a list child of the open node.
    pub fn open_list(&mut self, name: &'a str) -> Result<(), AllocError>
        requires takes { TakesField self.old.document }
        ensures list { OnOk result (self.new ≡ changed (with_open_list name.now) self.old) }
        ensures unchanged { OnErr result (self.new ≡ self.old) }
    {
        self.document.open_list(name)
    }

    /// Opens a node of the open list.
    pub fn open_kid(&mut self, class: &'a str) -> Result<(), AllocError>
        requires takes { TakesKid self.old.document }
        ensures kid { OnOk result (self.new ≡ changed (with_open_kid class.now) self.old) }
        ensures unchanged { OnErr result (self.new ≡ self.old) }
    {
        self.document.open_kid(class)
    }

    /// Closes the node or the list that is open innermost.
    pub fn close(&mut self)
        requires more { is_whole self.old.document ≡ false }
        ensures closed { self.new ≡ changed closed self.old }
    {
        numbers_stay_within();
        self.document.close();
    }

    /// The page, or the refusal of a document with these nodes and fields. It is not laid out yet.
    pub fn finish(self, alloc: Global) -> Result<Page<'a>, Refusal>
        requires whole { is_whole self.document ≡ true }
        ensures outcome { Answers (built_tree self.entry.rules.checked self.entry.rules.schedule
            (document_so_far self.entry.document)) (λ p. p.tree) result }
        ensures read { IfOk result (λ p. p ≡ page_read self.entry.rules p.tree) }
    {
        numbers_stay_within();
        let Builder { rules, document } = self;
        of_document(alloc, rules, &document.finish())
    }
}

/// The page of a document that is written.
fn of_document<'a>(
    alloc: Global,
    rules: &'a Rules<'a>,
    document: &WrittenDocument<'_>,
) -> Result<Page<'a>, Refusal>
    requires written { IsWritten document.now }
    requires within { All (RowIsWithin (greatest_of_width rules.now.checked.width))
        document.now.rows }
    ensures outcome { (node : WrittenNode) → AreRowsOf node document.now
        → Answers (built_tree rules.now.checked rules.now.schedule node) (λ p. p.tree) result }
    ensures read { IfOk result (λ p. p ≡ page_read rules.now p.tree) }
{
    match tree_of_document(alloc, rules.grammar().checked(), rules.schedule(), document) {
        Ok(tree) => Ok(of_tree(alloc, rules, tree)?),
        Err(end) => Err(refusal_of(end)),
    }
}
