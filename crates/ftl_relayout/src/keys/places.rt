//! What the keys of an attribute's instances have in common, made once for a grammar.
ghost use Rattle.std.specs.Prelude.{◌≡◌, IfOk};
ghost use Rattle.ftl_relayout.specs.keys.KeyPlaces.{AreKeyPlaces, IsKeyPlace};

use crate::keys::sorts::kind_of;
use ftl_checked::Checked;
use ftl_grammar::AttrKind;
use ftl_schedule::{Accepted, PassKind, attribute_count};
use std::alloc::{AllocError, Global};

/// Where a schedule has an attribute, and of which kind that is.
#[derive(Clone, Copy)]
pub(crate) struct KeyPlace {
    pub stage: usize,
    /// The kind of its pass.
    pub pass: PassKind,
    pub index: usize,
    pub kind: AttrKind,
}

/// Those of all attributes, by number.
pub(crate) fn key_places(
    alloc: Global,
    checked: &Checked,
    accepted: &Accepted<'_>,
) -> Result<Vec<KeyPlace>, AllocError>
    ensures places { IfOk result (λ v. AreKeyPlaces checked.now accepted.now.schedule v.items) }
{
    let mut places = Vec::new(alloc);
    for attr in 0..attribute_count(checked) {
        places.push(key_place(checked, accepted, attr))?;
    }
    Ok(places)
}

fn key_place(checked: &Checked, accepted: &Accepted<'_>, attr: u32) -> KeyPlace
    ensures place { IsKeyPlace checked.now accepted.now.schedule attr result }
{
    let place = accepted.schedule_place(attr);
    KeyPlace {
        stage: place.stage,
        pass: place.kind,
        index: place.index,
        kind: kind_of(checked, attr),
    }
}
