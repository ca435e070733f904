//! Where the blocks of children stand in the visits of a pass.
ghost use Rattle.std.specs.Prelude.{◌≡◌, ◌+◌, ◌++◌, ◌<◌, ◌≤◌, [], ◌∷◌, length, drop, IfOk, OnOk};
ghost use Rattle.std.specs.Prelude.{slice_index_or, slice_range};
ghost use Rattle.ftl_deps.specs.reads.Meant.{meant};
ghost use Rattle.ftl_cursors.specs.sequence.BlockPlaces.{places_in, places_of};
ghost use Rattle.ftl_visit.specs.passes.Runs.{IsCut, runs};

use ftl_checked::Checked;
use ftl_visit::{PassVisits, VisitOp};
use std::alloc::{AllocError, Global};
use std::marker::Model;

/// Where the block of a child begins in a visit, and where it ends with the visit of a kid.
#[derive(Clone, Copy)]
pub(crate) struct BlockPlaces {
    pub begin: usize,
    pub visit: usize,
}

/// Where the blocks of all children stand in the visits of a pass, class by class. Contracts see
/// the places of each class.
#[derive(Drop)]
pub struct SequencePlaces {
    places: Vec<BlockPlaces>,
    starts: Vec<usize>,
}

impl Model for SequencePlaces {
    ghost use Rattle.std.specs.Prelude.{List};
    ghost use Rattle.ftl_cursors.specs.declared.sequence.block_places.BlockPlaces.{BlockPlaces};

    ghost Value = { List (List BlockPlaces) };

    ghost use Rattle.ftl_visit.specs.passes.Runs.{IsCut, runs};

    ghost view = { λ v. runs v.starts.items v.places.items };

    ghost invariant = { λ v. IsCut v.starts.items v.places.items };
}

impl SequencePlaces {
    /// The places in these visits, one for each class.
    pub fn new(
        alloc: Global,
        visits: &PassVisits,
        checked: &Checked,
    ) -> Result<SequencePlaces, AllocError>
        requires visits { length visits.now ≡ (meant checked.now).class_count }
        ensures places { IfOk result (λ v. v ≡ places_of visits.now) }
    {
        let mut places = Vec::new(alloc);
        let mut starts = Vec::new(alloc);
        starts.push(0)?;
        for class in 0..checked.class_count() {
            add_run(&mut places, &mut starts, visits.visit(class))?;
        }
        Ok(SequencePlaces { places, starts })
    }

    /// The places of a class, one for each child.
    pub(crate) fn blocks(&self, class: u32) -> &[BlockPlaces]
        requires class { class < length self.now }
        ensures blocks { result.now ≡ slice_index_or self.now class [] }
    {
        let starts = self.starts.as_slice();
        let start = starts[class as usize];
        let end = starts[class as usize + 1];
        part_of(self.places.as_slice(), start, end)
    }
}

fn part_of(places: &[BlockPlaces], start: usize, end: usize) -> &[BlockPlaces]
    requires order { start ≤ end }
    requires within { end ≤ length places.now }
    ensures part { result.now ≡ slice_range places.now start end }
{
    &places[start..end]
}

/// Adds the places in a visit behind those that are there.
fn add_run(
    places: &mut Vec<BlockPlaces>,
    starts: &mut Vec<usize>,
    visit: &[VisitOp],
) -> Result<(), AllocError>
    requires cut { IsCut starts.old.items places.old.items }
    ensures cut { OnOk result (IsCut starts.new.items places.new.items) }
    ensures added { OnOk result (runs starts.new.items places.new.items
        ≡ runs starts.old.items places.old.items ++ places_in visit.now ∷ []) }
{
    add_places(places, visit)?;
    starts.push(places.len())?;
    Ok(())
}

fn add_places(places: &mut Vec<BlockPlaces>, visit: &[VisitOp]) -> Result<(), AllocError>
    ensures added { OnOk result (places.new.items ≡ places.old.items ++ places_in visit.now) }
{
    let mut begin = 0;
    for place in 0..visit.len() {
        match visit[place] {
            VisitOp::Rule(_) => {}
            VisitOp::Begin(_) => begin = place,
            VisitOp::Visit(_) => places.push(BlockPlaces {
                begin,
                visit: place,
            })?,
        }
    }
    Ok(())
}

/// What comes behind this place in a visit.
pub(crate) fn behind<'a>(visit: &'a [VisitOp], place: usize) -> &'a [VisitOp]
    requires place { place < length visit.now }
    ensures rest { result.now ≡ drop (place + 1) visit.now }
{
    &visit[place + 1..]
}
