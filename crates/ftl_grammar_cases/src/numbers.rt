//! Attributes and classes, a line each.

use crate::names::write_attribute;
use ftl_checked::{Checked, ChildInfo};
use ftl_grammar::AttrKind;
use std::alloc::AllocError;
use std::fmt::Write;

/// The attributes, by number: with their owners, the words that declare them and whether they are
/// shown.
pub(crate) fn write_attributes(out: &mut String, checked: &Checked) -> Result<(), AllocError> {
    for attr in 0..checked.attr_count() {
        let info = checked.attr(attr);
        write!(out, "attribute {attr} ")?;
        write_attribute(out, checked, attr)?;
        out.push_str(kind_word(info.kind))?;
        out.push_str(word_if(info.of_class, " own"))?;
        out.push_str(word_if(info.shown, " shown"))?;
        out.push('\n')?;
    }
    Ok(())
}

/// The word, where it holds.
fn word_if(holds: bool, word: &'static str) -> &'static str {
    if holds { word } else { "" }
}

fn kind_word(kind: AttrKind) -> &'static str {
    match kind {
        AttrKind::Inh => " inh",
        AttrKind::Syn => " syn",
        AttrKind::Input => " input",
        AttrKind::Local => " local",
    }
}

/// The classes, by number: with the numbers of their interfaces, and their children with theirs.
pub(crate) fn write_classes(out: &mut String, checked: &Checked) -> Result<(), AllocError> {
    for class in 0..checked.class_count() {
        let (name, interface) = (checked.class_name(class), checked.interface_of(class));
        write!(out, "class {class} {} of {interface}", name.text())?;
        for child in 0..checked.child_count(class) {
            write_child(out, child, checked.child(class, child))?;
        }
        out.push('\n')?;
    }
    Ok(())
}

fn write_child(out: &mut String, child: u32, info: ChildInfo) -> Result<(), AllocError> {
    let many = word_if(info.many, " list");
    write!(out, ", child {child} of {}{many}", info.interface)
}
