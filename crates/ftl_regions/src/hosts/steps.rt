//! The steps from classes, and from their interfaces, to the interfaces of their children.

ghost use Rattle.std.specs.Prelude.{◌≡◌, ◌+◌, ◌<◌, IfOk};
ghost use Rattle.ftl_deps.specs.reads.Meant.{meant};
ghost use Rattle.ftl_regions.specs.hosts.Steps.{AreStepsBelow};

use ftl_checked::Checked;
use lane_rows::BitMatrix;
use std::alloc::{AllocError, Global};

/// The steps of all classes.
pub(crate) fn steps_of(alloc: Global, checked: &Checked) -> Result<BitMatrix, AllocError>
    ensures steps { IfOk result
        (AreStepsBelow (meant checked.now) (meant checked.now).class_count) }
{
    let _lawful = checked.grammar();
    let size = checked.interface_count() + checked.class_count();
    let mut steps = BitMatrix::new(alloc, size)?;
    for class in 0..checked.class_count() {
        add_steps(checked, class, &mut steps);
    }
    Ok(steps)
}

/// Adds the steps of a class.
fn add_steps(checked: &Checked, class: u32, steps: &mut BitMatrix)
    requires class { class < (meant checked.now).class_count }
    requires steps { AreStepsBelow (meant checked.now) class steps.old }
    ensures steps { AreStepsBelow (meant checked.now) (class + 1) steps.new }
{
    let _lawful = checked.grammar();
    let interface = checked.interface_of(class);
    let host = checked.interface_count() + class;
    for child in 0..checked.child_count(class) {
        let below = checked.child(class, child).interface;
        steps.put(interface, below);
        steps.put(host, below);
    }
}
