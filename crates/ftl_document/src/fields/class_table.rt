//! The fields that the nodes of a class have.

ghost use Rattle.std.specs.Prelude.{◌≡◌, ◌++◌, ◌<◌, length, map, filter, IfOk, OnOk};
ghost use Rattle.std.specs.List.{position};
ghost use Rattle.std.specs.Str.{bytes_eq};
ghost use Rattle.ftl_model.specs.lists.Lists.{AreDistinct};
ghost use Rattle.ftl_meaning.specs.faults.Checked.{is_input};
ghost use Rattle.ftl_meaning.specs.faults.Numbering.{class_at, interface_at, interface_of};
ghost use Rattle.ftl_document.specs.faults.FirstFault.{input_names, needed_names};
ghost use Rattle.ftl_document.specs.fields.OwnFields.{names_of_inputs};

use ftl_checked::{Checked, NameTable};
use ftl_grammar::{AttrDecl, AttrKind, Child, Class, Grammar};
use ftl_tokens::Name;
use sqlite_items::Items;
use std::alloc::{AllocError, Global};

/// The names of the inputs of a class, its interface's first, and then of its children. Each is
/// found by its text.
#[derive(Drop)]
pub struct ClassFields {
    pub names: NameTable,
    /// How many of them are inputs.
    pub inputs: u32,
}

impl ClassFields {
    /// The place of the name with this text. The name at `expected` is tried before it is looked up.
    pub(crate) fn place(&self, expected: u32, text: &str) -> Option<u32>
        requires differ { AreDistinct self.now.names }
        ensures place { result ≡ position (bytes_eq text.now) self.now.names }
    {
        let names = self.names.names();
        if (expected as usize) < names.len() && names[expected as usize].text() == text {
            return Some(expected);
        }
        self.names.place(text)
    }
}

/// The names of a class.
pub fn class_fields(alloc: Global, checked: &Checked, class: u32) -> Result<ClassFields, AllocError>
    requires within { class < length checked.now.grammar.classes }
    ensures names { IfOk result (λ t. t.names ≡ needed_names checked.now.grammar class) }
    ensures inputs { IfOk result (λ t. t.inputs ≡ length (input_names checked.now.grammar class)) }
{
    let grammar = checked.grammar();
    let interface = checked.interface_of(class);
    let mut names = inputs_of(alloc, grammar, interface as usize, class as usize)?;
    let inputs = names.len() as u32;
    add_children_of(&mut names, grammar, class as usize)?;
    let names = NameTable::new(alloc, names)?;
    Ok(ClassFields { names, inputs })
}

/// The names of the inputs of a class.
#[tactic(auto, using(crate::proofs::fields::ClassNames::inputs_are))]
fn inputs_of(
    alloc: Global,
    grammar: &Grammar,
    interface: usize,
    class: usize,
) -> Result<Items<Name>, AllocError>
    requires within { class < length grammar.now.classes }
    requires interface { interface ≡ interface_of grammar.now class }
    ensures names { IfOk result (λ names. names ≡ input_names grammar.now class) }
{
    let mut names = Items::new(alloc);
    add_shared(&mut names, grammar, interface)?;
    add_inputs(&mut names, class_of(grammar, class).attrs.as_slice())?;
    Ok(names)
}

fn add_children_of(
    names: &mut Items<Name>,
    grammar: &Grammar,
    class: usize,
) -> Result<(), AllocError>
    requires within { class < length grammar.now.classes }
    ensures names { OnOk result (names.new
        ≡ names.old ++ map (λ c. c.name) (class_at grammar.now class).children) }
{
    add_children(names, class_of(grammar, class).children.as_slice())
}

fn class_of(grammar: &Grammar, class: usize) -> &Class
    requires within { class < length grammar.now.classes }
    ensures class { result.now ≡ class_at grammar.now class }
{
    &grammar.classes.as_slice()[class]
}

#[tactic(auto, using(crate::proofs::fields::ClassNames::none_past))]
fn add_shared(
    names: &mut Items<Name>,
    grammar: &Grammar,
    interface: usize,
) -> Result<(), AllocError>
    ensures names { OnOk result (names.new ≡ names.old
        ++ names_of_inputs (interface_at grammar.now interface).attrs) }
{
    if interface >= grammar.interfaces.len() {
        return Ok(());
    }
    add_inputs(
        names,
        grammar.interfaces.as_slice()[interface].attrs.as_slice(),
    )
}

fn add_inputs(names: &mut Items<Name>, attrs: &[AttrDecl]) -> Result<(), AllocError>
    ensures names { OnOk result (names.new ≡ names.old ++ names_of_inputs attrs.now) }
{
    for attr in attrs {
        if is_input(attr.kind) {
            names.push(attr.name.copy()?)?;
        }
    }
    Ok(())
}

fn add_children(names: &mut Items<Name>, children: &[Child]) -> Result<(), AllocError>
    ensures names { OnOk result (names.new ≡ names.old ++ map (λ c. c.name) children.now) }
{
    for child in children {
        names.push(child.name.copy()?)?;
    }
    Ok(())
}

fn is_input(kind: AttrKind) -> bool
    ensures input { result ≡ is_input kind }
{
    match kind {
        AttrKind::Input => true,
        AttrKind::Inh | AttrKind::Syn | AttrKind::Local => false,
    }
}
