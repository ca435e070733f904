//! Reads of neighbours.
ghost use Rattle.std.specs.Prelude.{◌≡◌, map, IfOk};
ghost use Rattle.ftl_deps.specs.parts.RuleParts.{read_meant};
ghost use Rattle.ftl_step_value.specs.neighbours.NeighbourParts.{is_child, neighbour_if};
ghost use Rattle.ftl_step_value.specs.neighbours.NeighbourParts.{neighbour_list};
ghost use Rattle.ftl_step_value.specs.neighbours.NeighbourParts.{neighbour_read};

use ftl_deps::PartRead;
use sqlite_items::Items;
use std::alloc::{AllocError, Global};

/// The node whose attribute is read.
#[derive(Clone, Copy)]
pub enum NeighbourSite {
    /// The node at which the step runs.
    Own,
    /// The kid that the step is for, or that a fold has come to.
    Kid,
    /// The kid before that one.
    Before,
}

/// A read of an attribute of a neighbour.
#[derive(Clone, Copy)]
pub struct NeighbourRead {
    pub site: NeighbourSite,
    /// The place of the attribute among those of its node's class.
    pub place: u32,
}

/// What the reads of a part are of neighbours; none where one of them is of another. Of each
/// attribute the place is given.
pub(crate) fn neighbour_list(
    alloc: Global,
    places: &[u32],
    child: Option<u32>,
    later: bool,
    reads: &[PartRead],
) -> Result<Option<Items<NeighbourRead>>, AllocError>
    ensures list { IfOk result (λ o. o
        ≡ neighbour_list places.now child later (map read_meant reads.now)) }
{
    let mut neighbours = Items::new(alloc);
    for read in reads {
        match neighbour_read(places, child, later, *read) {
            Some(read) => neighbours.push(read)?,
            None => return Ok(None),
        }
    }
    Ok(Some(neighbours))
}

/// What a read is of neighbours, in a part that stands at a kid of this child, or at no kid.
fn neighbour_read(
    places: &[u32],
    child: Option<u32>,
    later: bool,
    read: PartRead,
) -> Option<NeighbourRead>
    ensures read { result ≡ neighbour_read places.now child later (read_meant read) }
{
    match read {
        PartRead::Own(attr) => neighbour_if(places, true, NeighbourSite::Own, attr),
        PartRead::Each(of, attr) | PartRead::This(of, attr) => {
            neighbour_if(places, is_child(child, of), NeighbourSite::Kid, attr)
        }
        PartRead::Prev(of, attr) => neighbour_if(
            places,
            later && is_child(child, of),
            NeighbourSite::Before,
            attr,
        ),
        PartRead::Single(_, _) | PartRead::Last(_, _) => None,
    }
}

fn neighbour_if(
    places: &[u32],
    is_neighbour: bool,
    site: NeighbourSite,
    attr: u32,
) -> Option<NeighbourRead>
    ensures read { result ≡ neighbour_if places.now is_neighbour site attr }
{
    if !is_neighbour {
        return None;
    }
    match places.get(attr as usize) {
        Some(place) => Some(NeighbourRead {
            site,
            place: *place,
        }),
        None => None,
    }
}

fn is_child(child: Option<u32>, other: u32) -> bool
    ensures same { result ≡ is_child child other }
{
    match child {
        None => false,
        Some(child) => child == other,
    }
}
