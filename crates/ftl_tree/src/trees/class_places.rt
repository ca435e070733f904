//! The places of attributes among those of their classes.
ghost use Rattle.std.specs.Prelude.{◌≡◌, ◌+◌, ◌++◌, ◌<◌, ◌≤◌, length, IfOk, OnOk};
ghost use Rattle.std.specs.List.{range_with_len};
ghost use Rattle.ftl_deps.specs.reads.Meant.{meant};
ghost use Rattle.ftl_meaning.specs.faults.Numbering.{class_at, interface_at, interface_of};
ghost use Rattle.ftl_tree.specs.rows.ClassRows.{AreAttributePlaces};
ghost use Rattle.ftl_tree.specs.trees.OwnerPlaces.{own_places, shared_places};

use ftl_checked::Checked;
use std::alloc::{AllocError, Global};

/// The place of each attribute among those of each class that has it. The attributes of an
/// interface come first in all of its classes, so one number serves them all.
pub fn attribute_places(alloc: Global, checked: &Checked) -> Result<Vec<u32>, AllocError>
    ensures places { IfOk result (λ v. AreAttributePlaces (meant checked.now) v.items) }
{
    let _lawful = checked.grammar();
    let mut places = Vec::with_capacity(alloc, checked.attr_count() as usize)?;
    add_shared(checked, &mut places)?;
    add_own(checked, &mut places)?;
    Ok(places)
}

fn add_shared(checked: &Checked, places: &mut Vec<u32>) -> Result<(), AllocError>
    ensures added { OnOk result (places.new.items
        ≡ places.old.items ++ shared_places checked.now.grammar) }
{
    let interfaces = checked.grammar().interfaces.as_slice();
    for interface in interfaces {
        add_run(places, 0, interface.attrs.len() as u32)?;
    }
    Ok(())
}

fn add_own(checked: &Checked, places: &mut Vec<u32>) -> Result<(), AllocError>
    ensures added { OnOk result (places.new.items
        ≡ places.old.items ++ own_places checked.now.grammar) }
{
    for class in 0..checked.class_count() {
        add_run(
            places,
            shared_width(checked, class),
            own_width(checked, class),
        )?;
    }
    Ok(())
}

// How many attributes the interface of a class has.
fn shared_width(checked: &Checked, class: u32) -> u32
    requires class { class < length checked.now.grammar.classes }
    ensures width { result ≡ length (interface_at checked.now.grammar
        (interface_of checked.now.grammar class)).attrs }
    ensures few { result ≤ 64 }
{
    let interface = checked.interface_of(class) as usize;
    let interfaces = checked.grammar().interfaces.as_slice();
    interfaces[interface].attrs.len() as u32
}

// How many attributes a class has of its own.
fn own_width(checked: &Checked, class: u32) -> u32
    requires class { class < length checked.now.grammar.classes }
    ensures width { result ≡ length (class_at checked.now.grammar class).attrs }
    ensures few { result ≤ 64 }
{
    let classes = checked.grammar().classes.as_slice();
    classes[class as usize].attrs.len() as u32
}

// So many numbers, from the first on.
fn add_run(places: &mut Vec<u32>, first: u32, count: u32) -> Result<(), AllocError>
    requires few { first + count ≤ 4294967295 }
    ensures added { OnOk result (places.new.items
        ≡ places.old.items ++ range_with_len first count) }
{
    for k in 0..count {
        places.push(first + k)?;
    }
    Ok(())
}
