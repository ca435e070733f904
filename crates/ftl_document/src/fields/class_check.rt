//! The class of a node.

ghost use Rattle.std.specs.Prelude.{◌≡◌};
ghost use Rattle.ftl_meaning.specs.faults.Checked.{class_named};
ghost use Rattle.ftl_document.specs.fields.Placed.{FindsClass};

use crate::faults::DocFault;
use crate::syntax::NameRef;
use ftl_checked::Checked;
use ftl_tokens::Name;
use std::alloc::Global;

/// The number of a node's class, where the class is known and of the interface that is wanted. The
/// class `guess` is tried before the name is looked up.
pub fn known_class(
    alloc: Global,
    checked: &Checked,
    number: u32,
    wanted: u32,
    guess: u32,
    class: &NameRef<'_>,
) -> Result<u32, DocFault>
    ensures class { FindsClass checked.now.grammar number wanted class.now result }
{
    let Some(found) = find_class(checked, guess, class.text()) else {
        let name = Name::new(alloc, class.text())?;
        return Err(DocFault::UnknownClass { node: number, name });
    };
    let interface = checked.interface_of(found);
    if interface != wanted {
        return Err(DocFault::WrongInterface {
            node: number,
            class: found,
            wanted,
        });
    }
    Ok(found)
}

/// The class of this name.
fn find_class(checked: &Checked, guess: u32, name: &str) -> Option<u32>
    ensures class { result ≡ class_named checked.now.grammar name.now }
{
    let classes = checked.grammar().classes.as_slice();
    if (guess as usize) < classes.len() && classes[guess as usize].name.text() == name {
        return Some(guess);
    }
    checked.find_class(name)
}
