//! Where nodes stand below their parents.

ghost use Rattle.std.specs.Prelude.{◌≡◌, ◌<◌, length, OnSome};
ghost use Rattle.std.specs.Option.{option_map};
ghost use Rattle.ftl_meaning.specs.faults.Numbering.{child_at, class_at};
ghost use Rattle.ftl_model.specs.layout.Tree.{size};
ghost use Rattle.maugzeris.specs.pages.Places.{child_name_on, child_on, kid_on};

use crate::pages::page::Page;
use ftl_grammar::Child;

impl<'a> Page<'a> {
    /// The name of the child in which a node stands; none of the root.
    pub fn child_name(&self, node: u32) -> Option<&str>
        requires node { node < size self.now.tree }
        ensures name { option_map (λ s. s.now) result ≡ child_name_on self.now node }
    {
        match self.child(node) {
            Some(child) => Some(child.name.text()),
            None => None,
        }
    }

    /// As which of the kids of a list a node stands, from 0; none of the root, and of a node that
    /// stands in a single child.
    pub fn kid(&self, node: u32) -> Option<u32>
        requires node { node < size self.now.tree }
        ensures kid { result ≡ kid_on self.now node }
    {
        match self.child(node) {
            Some(child) if child.many => Some(self.tree().place(node).kid),
            _ => None,
        }
    }

    /// The child in which a node stands, as the class of its parent declares it.
    fn child(&self, node: u32) -> Option<&Child>
        requires node { node < size self.now.tree }
        ensures child { option_map (λ c. c.now) result ≡ child_on self.now node }
        ensures below { OnSome result (0 < node) }
    {
        let _known = self.tree();
        let parent = self.parent(node)?;
        let class = self.class(parent);
        let child = self.tree().place(node).child;
        Some(self.declared_child(class, child))
    }

    /// The child of this number of a class.
    fn declared_child(&self, class: u32, child: u32) -> &Child
        requires class { class < length self.now.checked.grammar.classes }
        requires child { child < length (class_at self.now.checked.grammar class).children }
        ensures child { result.now ≡ child_at self.now.checked.grammar class child }
    {
        let classes = self.grammar().checked().grammar().classes.as_slice();
        &classes[class as usize].children.as_slice()[child as usize]
    }
}
