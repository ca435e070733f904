//! The kids at hand while a read is of what stands at a place.
ghost use Rattle.std.specs.Prelude.{◌≡◌, ◌<◌, ◌+◌, if◌then◌else◌, IfSome};
ghost use Rattle.ftl_deps.specs.parts.RuleParts.{read_meant};
ghost use Rattle.ftl_model.specs.layout.AttributeGrammar.{kid, own};
ghost use Rattle.ftl_model.specs.layout.Tree.{size};
ghost use Rattle.ftl_visit.specs.step_reads.StepReads.{kids_in};
ghost use Rattle.ftl_relayout.specs.readers.Readers.{AreHits, IsKidOf, attribute_read, seen_as};

use crate::readers::reader::Range;
use ftl_deps::PartRead;
use ftl_tree::{Place, Tree};

const NONE: Range = Range { from: 0, to: 0 };

const ALL: Range = Range {
    from: 0,
    to: u32::MAX,
};

/// The numbers of the kids at hand while a read at a node is of the attribute that it names: of the
/// node itself, or of its kid at this place.
pub(crate) fn hits(tree: &Tree<'_>, node: u32, read: PartRead, place: Option<Place>) -> Range
    requires node { node < size tree.now.tree }
    requires place { IfSome place (IsKidOf tree.now node) }
    ensures hits { AreHits (kids_in tree.now node) (read_meant read)
        (seen_as place (attribute_read read)) result }
{
    match place {
        None => own_hits(tree, node, read),
        Some(place) => kid_hits(tree, node, read, place),
    }
}

/// The same, of the node itself.
fn own_hits(tree: &Tree<'_>, node: u32, read: PartRead) -> Range
    requires node { node < size tree.now.tree }
    ensures hits { AreHits (kids_in tree.now node) (read_meant read)
        (own (attribute_read read)) result }
{
    match read {
        PartRead::Own(_) => ALL,
        PartRead::Single(_, _)
        | PartRead::Each(_, _)
        | PartRead::This(_, _)
        | PartRead::Prev(_, _)
        | PartRead::Last(_, _) => NONE,
    }
}

/// The same, of a kid.
fn kid_hits(tree: &Tree<'_>, node: u32, read: PartRead, place: Place) -> Range
    requires node { node < size tree.now.tree }
    requires place { IsKidOf tree.now node place }
    ensures hits { AreHits (kids_in tree.now node) (read_meant read)
        (kid place.child place.kid (attribute_read read)) result }
{
    match read {
        PartRead::Own(_) => NONE,
        PartRead::Single(child, _) => all_if(child == place.child && place.kid == 0),
        PartRead::Each(child, _) | PartRead::This(child, _) => {
            one_if(child == place.child, place.kid)
        }
        PartRead::Prev(child, _) => one_if(child == place.child, place.kid + 1),
        PartRead::Last(child, _) => {
            let last = tree.kid_count(node, place.child) - 1;
            all_if(child == place.child && place.kid == last)
        }
    }
}

fn all_if(hits: bool) -> Range
    ensures all { result ≡ (if hits then (record { from = 0; to = 4294967295 })
        else (record { from = 0; to = 0 })) }
{
    if hits { ALL } else { NONE }
}

fn one_if(hits: bool, number: u32) -> Range
    requires room { number < 4294967295 }
    ensures one { result ≡ (if hits then (record { from = number; to = number + 1 })
        else (record { from = 0; to = 0 })) }
{
    if hits {
        Range {
            from: number,
            to: number + 1,
        }
    } else {
        NONE
    }
}
