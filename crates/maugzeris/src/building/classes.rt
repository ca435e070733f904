//! The classes of a grammar.

ghost use Rattle.std.specs.Prelude.{◌≡◌, ◌<◌};
ghost use Rattle.ftl_deps.specs.reads.Meant.{meant};
ghost use Rattle.ftl_meaning.specs.faults.Checked.{class_named};
ghost use Rattle.ftl_meaning.specs.faults.Numbering.{class_at};

use crate::rules::Rules;

impl<'a> Rules<'a> {
    /// How many classes the grammar has. They are numbered from 0, in the order of the text.
    pub fn class_count(&self) -> u32
        ensures count { result ≡ (meant self.now.checked).class_count }
    {
        self.grammar().checked().class_count()
    }

    /// The name of a class.
    pub fn class_name(&self, class: u32) -> &'a str
        requires class { class < (meant self.now.checked).class_count }
        ensures name { result.now ≡ (class_at self.now.checked.grammar class).name }
    {
        self.grammar().checked().class_name(class).text()
    }

    /// The class of a name.
    pub fn find_class(&self, name: &str) -> Option<u32>
        ensures class { result ≡ class_named self.now.checked.grammar name.now }
    {
        self.grammar().checked().find_class(name)
    }
}
