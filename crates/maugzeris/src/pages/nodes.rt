//! The nodes of pages, one by one.

ghost use Rattle.std.specs.Prelude.{◌≡◌, ◌<◌, ◌↔◌, length, IsTrue, slice_index};
ghost use Rattle.std.specs.Iterator.{YieldsFirstBy, item_count};
ghost use Rattle.std.specs.Option.{option_map};
ghost use Rattle.ftl_meaning.specs.faults.Checked.{attribute_at};
ghost use Rattle.ftl_meaning.specs.grammars.GrammarOf.{names_of};
ghost use Rattle.ftl_model.specs.layout.Path.{node_at, number_of, parent_of};
ghost use Rattle.ftl_model.specs.layout.Tree.{size};
ghost use Rattle.ftl_tree.specs.boxes.Shows.{node_shows};
ghost use Rattle.maugzeris.specs.pages.NodesLeft.{nodes_left};
ghost use Rattle.maugzeris.specs.pages.PageState.{IsLaidOut, class_on, tree_on, value_on};

use crate::pages::page::Page;
use ftl_base::Val;

/// A node of a page.
#[derive(Clone, Copy)]
pub struct Node<'p> {
    page: &'p Page<'p>,
    number: u32,
    ghost known: { number < size page.now.tree },
}

impl<'p> Node<'p> {
    /// Its number in preorder.
    pub fn number(&self) -> u32
        ensures number { result ≡ self.now.number }
    {
        self.number
    }

    /// The number of its class.
    pub fn class(&self) -> u32
        ensures class { result ≡ class_on self.now.page.now self.now.number }
    {
        self.page.class(self.number)
    }

    /// The number of its parent; none of the root.
    pub fn parent(&self) -> Option<u32>
        ensures parent { result ≡ option_map (number_of self.now.page.now.tree)
            (parent_of (node_at self.now.page.now.tree self.now.number)) }
    {
        self.page.parent(self.number)
    }

    /// The name of its class.
    pub fn class_name(&self) -> &'p str
        ensures name { result.now ≡ (names_of self.now.page.now.checked.grammar).class_name
            (class_on self.now.page.now self.now.number) }
    {
        self.page.class_name(self.number)
    }

    /// Whether the page was laid out.
    pub fn is_laid_out(&self) -> bool
        ensures laid_out { IsTrue result ↔ IsLaidOut self.now.page.now }
    {
        self.page.is_laid_out()
    }

    /// The attributes that it shows, in the order of their declaration.
    pub fn shown(&self) -> &'p [u32]
        ensures shown { result.now ≡ node_shows (tree_on self.now.page.now) self.now.number }
    {
        self.page.shown(self.number)
    }

    /// The name of an attribute that it shows, by the place among these.
    pub fn shown_name(&self, place: usize) -> &'p str
        requires place { place < length (node_shows (tree_on self.now.page.now) self.now.number) }
        ensures name { let shown = node_shows (tree_on self.now.page.now) self.now.number in
            result.now
            ≡ (attribute_at self.now.page.now.checked.grammar (slice_index shown place)).decl.name }
    {
        let _known = self.page.tree();
        let attr = self.shown()[place];
        self.page.attribute_name(self.number, attr)
    }

    /// The value of an attribute that it shows, by the place among these.
    pub fn shown_value(&self, place: usize) -> Val
        requires laid_out { IsLaidOut self.now.page.now }
        requires place { place < length (node_shows (tree_on self.now.page.now) self.now.number) }
        ensures value { result ≡ value_on self.now.page.now self.now.number
            (slice_index (node_shows (tree_on self.now.page.now) self.now.number) place) }
    {
        let _known = self.page.tree();
        let attr = self.shown()[place];
        self.page.value(self.number, attr)
    }
}

/// The nodes of a page from one on, in preorder.
#[derive(Drop)]
pub struct Nodes<'p> {
    page: &'p Page<'p>,
    next: u32,
}

impl<'a> Page<'a> {
    /// The nodes in preorder.
    pub fn nodes<'p>(&'p self) -> Nodes<'p>
        ensures page { result.page.now ≡ self.now }
        ensures all { result.next ≡ 0 }
    {
        Nodes {
            page: self,
            next: 0,
        }
    }
}

impl<'p> Iterator for Nodes<'p> {
    type Item = Node<'p>;

    ghost next_gives = { YieldsFirstBy (λ n. n.number) nodes_left };

    ghost remaining = { item_count nodes_left };

    fn next(&mut self) -> Option<Node<'p>> {
        if self.next >= self.page.node_count() {
            return None;
        }
        let number = self.next;
        self.next += 1;
        Some(Node {
            page: self.page,
            number,
        })
    }
}
