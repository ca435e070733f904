//! The values of pages, and their boxes.

ghost use Rattle.std.specs.Prelude.{◌≡◌, ◌<◌, length, map, IfOk};
ghost use Rattle.ftl_answer.specs.answers.Answers.{boxes_of};
ghost use Rattle.ftl_meaning.specs.grammars.GrammarOf.{names_of};
ghost use Rattle.ftl_deps.specs.reads.Meant.{meant};
ghost use Rattle.ftl_model.specs.layout.Boxes.{shows_overflow};
ghost use Rattle.ftl_model.specs.layout.Table.{instance_count, value_in};
ghost use Rattle.ftl_model.specs.layout.Tree.{size};
ghost use Rattle.ftl_tree.specs.boxes.WordValues.{value_of_word};
ghost use Rattle.maugzeris.specs.pages.PageState.{HasAttribute, IsLaidOut, value_on, values_on};

use crate::pages::page::Page;
use ftl_base::Val;
use ftl_run::calls::words_of;
use ftl_tree::{Printed, print_boxes, shows_overflow};
use std::alloc::{AllocError, Global};

impl<'a> Page<'a> {
    /// The value of an attribute of a node, as it was last laid out.
    pub fn value(&self, node: u32, attr: u32) -> Val
        requires laid_out { IsLaidOut self.now }
        requires node { node < size self.now.tree }
        requires attribute { HasAttribute self.now node attr }
        ensures value { result ≡ value_on self.now node attr }
    {
        let cell = self.tree().instance(node, attr);
        self.cells()[cell as usize]
    }

    /// The boxes of the page, as the program prints them.
    pub fn boxes(&self, alloc: Global) -> Result<Vec<u8>, AllocError>
        requires laid_out { IsLaidOut self.now }
        ensures text { IfOk result (λ v. v.items
            ≡ boxes_of self.now.checked self.now.tree (values_on self.now)) }
    {
        let words = self.words(alloc)?;
        let Printed { text, overflows: _ } = print_boxes(alloc, self.tree(), words.as_slice())?;
        Ok(text)
    }

    /// Whether a shown value is Overflow, with which the program ends with status 8.
    pub fn shows_overflow(&self, alloc: Global) -> Result<bool, AllocError>
        requires laid_out { IsLaidOut self.now }
        ensures shown { IfOk result (λ any. any ≡ shows_overflow
            (names_of self.now.checked.grammar) self.now.tree
            (value_in (meant self.now.checked) self.now.tree (values_on self.now))) }
    {
        let words = self.words(alloc)?;
        shows_overflow(alloc, self.tree(), words.as_slice())
    }

    /// The words of the values.
    fn words(&self, alloc: Global) -> Result<Vec<u64>, AllocError>
        requires laid_out { IsLaidOut self.now }
        ensures words { IfOk result (λ v. map value_of_word v.items ≡ values_on self.now) }
        ensures count { IfOk result (λ v. length v.items
            ≡ instance_count (meant self.now.checked) self.now.tree) }
    {
        words_of(alloc, self.cells())
    }

    /// The values of all instances.
    fn cells(&self) -> &[Val]
        requires laid_out { IsLaidOut self.now }
        ensures values { result.now ≡ values_on self.now }
        ensures count { length result.now ≡ instance_count (meant self.now.checked) self.now.tree }
    {
        self.values.as_slice()
    }
}
