//! Owners, interfaces and classes by number.

ghost use Rattle.std.specs.Prelude.{[], ◌≡◌, ◌↔◌, ◌<◌, true, length, Contains, IfOk};
ghost use Rattle.ftl_deps.specs.reads.Meant.{meant};
ghost use Rattle.ftl_meaning.specs.faults.Checked.{all_attributes};
ghost use Rattle.ftl_noncircular.specs.search.Shapes.{ArePorts};
ghost use Rattle.ftl_noncircular.specs.search.Tables.{IsKid, IsOwnerOf, IsTable, is_port};
ghost use Rattle.ftl_noncircular.specs.search.Tables.{no_kid, no_owner, port_sort};

use crate::search::shape::{Kid, Owner};
use ftl_checked::Checked;
use ftl_grammar::AttrKind;
use sqlite_items::Items;
use std::alloc::{AllocError, Global};

/// Who declares each attribute.
pub(crate) fn owners_of(alloc: Global, checked: &Checked) -> Result<Items<Owner>, AllocError>
    ensures owners { IfOk result (IsTable (IsOwnerOf checked.now.grammar) no_owner
        (length (all_attributes checked.now.grammar))) }
{
    let mut owners = Items::new(alloc);
    for attr in 0..checked.attr_count() {
        let info = checked.attr(attr);
        owners.push(Owner {
            of_class: info.of_class,
            number: info.owner,
        })?;
    }
    Ok(owners)
}

/// The inherited attributes of each interface, or the synthesized ones.
pub(crate) fn all_ports(
    alloc: Global,
    checked: &Checked,
    from_above: bool,
) -> Result<Items<Items<u32>>, AllocError>
    ensures ports { IfOk result (IsTable
        (λ i. ArePorts (meant checked.now) i (port_sort from_above))
        [] (meant checked.now).interface_count) }
{
    let mut all = Items::new(alloc);
    for interface in 0..checked.interface_count() {
        all.push(ports_of(alloc, checked, interface, from_above)?)?;
    }
    Ok(all)
}

/// Those of an interface.
fn ports_of(
    alloc: Global,
    checked: &Checked,
    interface: u32,
    from_above: bool,
) -> Result<Items<u32>, AllocError>
    requires interface { interface < (meant checked.now).interface_count }
    ensures ports { IfOk result (ArePorts (meant checked.now) interface (port_sort from_above)) }
{
    let _lawful = checked.grammar();
    let mut ports = Items::new(alloc);
    for attr in 0..checked.attr_count() {
        if is_port_of(checked, interface, attr, from_above) {
            ports.push(attr)?;
        }
    }
    Ok(ports)
}

/// Whether an attribute is one of them.
fn is_port_of(checked: &Checked, interface: u32, attr: u32, from_above: bool) -> bool
    requires interface { interface < (meant checked.now).interface_count }
    requires attr { attr < length (all_attributes checked.now.grammar) }
    ensures port { (result ≡ true) ↔ (Contains ((meant checked.now).shared interface) attr
        × ((meant checked.now).sort attr ≡ port_sort from_above)) }
{
    let _lawful = checked.grammar();
    let info = checked.attr(attr);
    if info.of_class {
        return false;
    }
    if info.owner != interface {
        return false;
    }
    is_port(from_above, info.kind)
}

fn is_port(from_above: bool, kind: AttrKind) -> bool
    ensures port { result ≡ is_port from_above kind }
{
    match kind {
        AttrKind::Inh => from_above,
        AttrKind::Syn => !from_above,
        AttrKind::Input | AttrKind::Local => false,
    }
}

/// The interface of each class.
pub(crate) fn interfaces_of(alloc: Global, checked: &Checked) -> Result<Items<u32>, AllocError>
    ensures interfaces { IfOk result (IsTable (λ k i. i ≡ (meant checked.now).interface k) 0
        (meant checked.now).class_count) }
{
    let mut interfaces = Items::new(alloc);
    for class in 0..checked.class_count() {
        interfaces.push(checked.interface_of(class))?;
    }
    Ok(interfaces)
}

/// The children of each class.
pub(crate) fn all_kids(alloc: Global, checked: &Checked) -> Result<Items<Items<Kid>>, AllocError>
    ensures kids { IfOk result (IsTable (λ k. IsTable (IsKid (meant checked.now) k) no_kid
        ((meant checked.now).child_count k)) [] (meant checked.now).class_count) }
{
    let mut all = Items::new(alloc);
    for class in 0..checked.class_count() {
        all.push(kids_of(alloc, checked, class)?)?;
    }
    Ok(all)
}

/// The children of a class.
fn kids_of(alloc: Global, checked: &Checked, class: u32) -> Result<Items<Kid>, AllocError>
    requires class { class < (meant checked.now).class_count }
    ensures kids { IfOk result (IsTable (IsKid (meant checked.now) class) no_kid
        ((meant checked.now).child_count class)) }
{
    let mut kids = Items::new(alloc);
    for child in 0..checked.child_count(class) {
        let info = checked.child(class, child);
        kids.push(Kid {
            interface: info.interface,
            many: info.many,
        })?;
    }
    Ok(kids)
}
