//! The rows of a tree that is built, in preorder.
ghost use Rattle.std.specs.Prelude.{◌≡◌, ◌≤◌, ◌<◌, ◌+◌, ◌++◌, length, IfOk};
ghost use Rattle.ftl_deps.specs.reads.Meant.{meant};
ghost use Rattle.ftl_example.specs.pairs.PairMeant.{pair_meant};
ghost use Rattle.ftl_example.specs.sizes.PlaceTable.{IsKnownPair};
ghost use Rattle.ftl_example.specs.trees.BuiltRows.{kid_rows, row_at, site_rows};
ghost use Rattle.ftl_example.specs.trees.WantsMeant.{built, wants_meant};

use crate::pairs::RefusedPair;
use crate::sizes::child_count;
use crate::trees::choices::{class_for, kids_for};
use crate::trees::site::Site;
use crate::trees::tables::Tables;
use crate::trees::want::{Want, Wants};
use ftl_checked::Checked;
use ftl_tree::{NodeRow, Place};
use std::alloc::AllocError;

/// Adds the rows of what is to be built at a site, at most so many steps deep.
#[cycle(put)]
pub(crate) fn put_tree(
    rows: &mut Vec<NodeRow>,
    checked: &Checked,
    pair: RefusedPair,
    tables: &Tables,
    site: Site,
    steps: u32,
) -> Result<(), AllocError>
    requires pair { IsKnownPair (meant checked.now) pair }
    requires fits { length rows.old.items + length (site_rows
        (built (meant checked.now) (pair_meant pair) tables.now steps) site
        (length rows.old.items)) ≤ 1048576 }
    requires steps { steps < 1048576 }
    ensures rows { IfOk result (λ _. rows.new.items ≡ rows.old.items ++ site_rows
        (built (meant checked.now) (pair_meant pair) tables.now steps) site
        (length rows.old.items)) }
{
    let _ = checked.grammar();
    let node = rows.len() as u32;
    if steps == 0 {
        rows.push(row_of(0, site))?;
        return Ok(());
    }
    let class = class_for(checked, pair, tables, site.want, site.interface);
    rows.push(row_of(class, site))?;
    for child in 0..child_count(checked, class) {
        let wants = kids_for(checked, pair, tables, site.want, site.interface, child);
        let kids = Site {
            want: site.want,
            interface: checked.child(class, child).interface,
            parent: node,
            place: Place { child, kid: 0 },
        };
        put_kids(rows, checked, pair, tables, wants, kids, steps - 1)?;
    }
    Ok(())
}

// Adds the rows of the kids in a child; the site says of which.
#[cycle(put)]
fn put_kids(
    rows: &mut Vec<NodeRow>,
    checked: &Checked,
    pair: RefusedPair,
    tables: &Tables,
    wants: Wants,
    kids: Site,
    steps: u32,
) -> Result<(), AllocError>
    requires pair { IsKnownPair (meant checked.now) pair }
    requires fits { length rows.old.items + length (kid_rows
        (built (meant checked.now) (pair_meant pair) tables.now steps) kids.parent
        (length rows.old.items) kids.interface kids.place.child 0 (wants_meant wants)) ≤ 1048576 }
    requires steps { steps < 1048576 }
    ensures rows { IfOk result (λ _. rows.new.items ≡ rows.old.items ++ kid_rows
        (built (meant checked.now) (pair_meant pair) tables.now steps) kids.parent
        (length rows.old.items) kids.interface kids.place.child 0 (wants_meant wants)) }
{
    match wants {
        Wants::Nothing => Ok(()),
        Wants::One(want) => {
            let site = kid_site(kids, want, 0);
            put_tree(rows, checked, pair, tables, site, steps)
        }
        Wants::Two(want, later) => {
            let first = kid_site(kids, want, 0);
            put_tree(rows, checked, pair, tables, first, steps)?;
            let second = kid_site(kids, later, 1);
            put_tree(rows, checked, pair, tables, second, steps)
        }
    }
}

fn row_of(class: u32, site: Site) -> NodeRow
    ensures row { result ≡ row_at class site.parent site.place }
{
    NodeRow {
        class,
        parent: site.parent,
        place: site.place,
    }
}

fn kid_site(kids: Site, want: Want, kid: u32) -> Site
    ensures site { result ≡ record {
      want = want;
      interface = kids.interface;
      parent = kids.parent;
      place = record { child = kids.place.child; kid = kid };
    } }
{
    Site {
        want,
        interface: kids.interface,
        parent: kids.parent,
        place: Place {
            child: kids.place.child,
            kid,
        },
    }
}
