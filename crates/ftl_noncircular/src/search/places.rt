//! The places of attributes among those of their owners.

ghost use Rattle.std.specs.Prelude.{◌≡◌, ◌++◌, ◌≤◌, IfOk, OnOk};
ghost use Rattle.std.specs.List.{range_with_len};
ghost use Rattle.ftl_noncircular.specs.search.Tables.{own_places, shared_places};

use ftl_checked::Checked;
use sqlite_items::Items;
use std::alloc::{AllocError, Global};

/// The place of the first attribute of a class's own.
const FIRST_OWN: u32 = 64;

/// The place of each attribute.
pub(crate) fn places_of(alloc: Global, checked: &Checked) -> Result<Items<u32>, AllocError>
    ensures places { IfOk result (λ places. places
        ≡ shared_places checked.now.grammar ++ own_places checked.now.grammar) }
{
    let mut places = Items::new(alloc);
    add_shared(checked, &mut places)?;
    add_own(checked, &mut places)?;
    Ok(places)
}

fn add_shared(checked: &Checked, places: &mut Items<u32>) -> Result<(), AllocError>
    ensures added { OnOk result (places.new ≡ places.old ++ shared_places checked.now.grammar) }
{
    let interfaces = checked.grammar().interfaces.as_slice();
    for interface in interfaces {
        add_run(places, 0, interface.attrs.len())?;
    }
    Ok(())
}

fn add_own(checked: &Checked, places: &mut Items<u32>) -> Result<(), AllocError>
    ensures added { OnOk result (places.new ≡ places.old ++ own_places checked.now.grammar) }
{
    let classes = checked.grammar().classes.as_slice();
    for class in classes {
        add_run(places, FIRST_OWN, class.attrs.len())?;
    }
    Ok(())
}

// So many numbers, from the first on.
fn add_run(places: &mut Items<u32>, first: u32, count: usize) -> Result<(), AllocError>
    requires first { first ≤ 64 }
    requires few { count ≤ 64 }
    ensures added { OnOk result (places.new ≡ places.old ++ range_with_len first count) }
{
    for k in 0..count {
        places.push(first + k as u32)?;
    }
    Ok(())
}
