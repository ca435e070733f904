//! What a node has: its attributes, and which of these are inputs.

ghost use Rattle.std.specs.Prelude.{◌≡◌, ◌≢◌, ◌<◌, ◌↔◌, Contains, IsTrue, MatchOption};
ghost use Rattle.std.specs.List.{All};
ghost use Rattle.ftl_base.specs.Widths.{greatest_of_width};
ghost use Rattle.ftl_deps.specs.reads.Meant.{meant};
ghost use Rattle.ftl_edits.specs.meaning.Editable.{IsEditOf};
ghost use Rattle.ftl_meaning.specs.faults.Checked.{attribute_at};
ghost use Rattle.ftl_meaning.specs.grammars.GrammarOf.{names_of};
ghost use Rattle.ftl_model.specs.layout.AttributeGrammar.{attributes_of, class_inputs};
ghost use Rattle.ftl_model.specs.layout.Tree.{size};
ghost use Rattle.ftl_model.specs.layout.TreeOf.{IsInput};
ghost use Rattle.ftl_tree.specs.boxes.Shows.{node_shows};
ghost use Rattle.maugzeris.specs.pages.PageState.{HasAttribute, class_on, edit, tree_on};

use crate::pages::page::Page;
use ftl_base::Width;
use ftl_schedule::is_input;
use ftl_tree::shown_by;

impl<'a> Page<'a> {
    /// The name of a node's class.
    pub fn class_name(&self, node: u32) -> &str
        requires node { node < size self.now.tree }
        ensures name { result.now
            ≡ (names_of self.now.checked.grammar).class_name (class_on self.now node) }
    {
        let _known = self.tree();
        let class = self.class(node);
        self.grammar().checked().class_name(class).text()
    }

    /// The attributes of a node: those of its interface, then those of its class.
    pub fn attributes(&self, node: u32) -> &[u32]
        requires node { node < size self.now.tree }
        ensures attributes { result.now
            ≡ attributes_of (meant self.now.checked) (class_on self.now node) }
        ensures known { All (HasAttribute self.now node) result.now }
    {
        let _known = self.tree();
        let class = self.class(node);
        self.grammar().attributes(class)
    }

    /// The attributes that a node shows, in the order of their declaration.
    pub fn shown(&self, node: u32) -> &[u32]
        requires node { node < size self.now.tree }
        ensures shown { result.now ≡ node_shows (tree_on self.now) node }
        ensures known { All (HasAttribute self.now node) result.now }
    {
        shown_by(self.grammar().shown(), self.tree(), node)
    }

    /// Whether a node has the attribute.
    pub fn has_attribute(&self, node: u32, attr: u32) -> bool
        requires node { node < size self.now.tree }
        ensures has { IsTrue result ↔ HasAttribute self.now node attr }
    {
        self.attributes(node).contains(&attr)
    }

    /// The name of an attribute of a node.
    pub fn attribute_name(&self, node: u32, attr: u32) -> &str
        requires node { node < size self.now.tree }
        requires attribute { HasAttribute self.now node attr }
        ensures name { result.now ≡ (attribute_at self.now.checked.grammar attr).decl.name }
    {
        let _known = self.tree();
        self.grammar().checked().attr_name(attr).text()
    }

    /// The attribute of a node that has this name.
    pub fn find_attribute(&self, node: u32, name: &str) -> Option<u32>
        requires node { node < size self.now.tree }
        ensures named { MatchOption result
            (All (λ a. (attribute_at self.now.checked.grammar a).decl.name ≢ name.now)
            (attributes_of (meant self.now.checked) (class_on self.now node)))
            (λ a. HasAttribute self.now node a
            × ((attribute_at self.now.checked.grammar a).decl.name ≡ name.now)) }
    {
        for attr in self.attributes(node) {
            if self.attribute_name(node, *attr) == name {
                return Some(*attr);
            }
        }
        None
    }

    /// Whether the attribute is an input of a node.
    pub fn is_input(&self, node: u32, attr: u32) -> bool
        requires node { node < size self.now.tree }
        ensures input { IsTrue result ↔ Contains
            (class_inputs (meant self.now.checked) (class_on self.now node)) attr }
    {
        self.has_attribute(node, attr) && is_input(self.grammar().checked(), attr)
    }

    /// Whether `set_input` takes this number for the attribute of a node: the attribute is an input
    /// of that node, and the number in the range of the grammar's width.
    pub fn takes(&self, node: u32, attr: u32, value: i64) -> bool
        ensures takes { IsTrue result ↔ IsEditOf (tree_on self.now) (edit node attr value) }
    {
        if node >= self.node_count() || !self.is_input(node, attr) {
            return false;
        }
        is_number(self.grammar().checked().width(), value)
    }
}

/// Whether an input of this width may have the number.
pub(crate) fn is_number(width: Width, value: i64) -> bool
    ensures number { IsTrue result ↔ IsInput (greatest_of_width width) value }
{
    match width {
        Width::Narrow => value >= -2147483647 && value <= 2147483647,
        Width::Wide => value >= -140737488355327 && value <= 140737488355327,
    }
}
