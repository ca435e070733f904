//! The phases of the items of stages, and the classes of their nodes, made once for stages whose
//! passes are of the same kinds and have the same host classes.
ghost use Rattle.std.specs.Prelude.{◌≡◌, ◌<◌, length, map, true, IfOk, IfSome, OnOk};
ghost use Rattle.std.specs.List.{All};
ghost use Rattle.ftl_cursors.specs.items.StageItems.{hosts_in, passes_in};
ghost use Rattle.ftl_plan.specs.phases.StagePhases.{kinds_in};
ghost use Rattle.ftl_plan.specs.plans.KindPhases.{AreForStageAt, AreOfKinds, FitKinds, FitLots};
ghost use Rattle.ftl_plan.specs.plans.KindPhases.{hosts_at, kinds_at, kinds_told};

use crate::phases::stage_phases;
use crate::plans::work::StageWork;
use ftl_cursors::StageItems;
use ftl_cursors::items::{is_one_host, item_classes};
use ftl_lots::LotPhases;
use ftl_schedule::{Pass, PassKind};
use std::alloc::{AllocError, Global};

/// The phases of the items of a stage, and for each 64 of them that follow one another the classes
/// of their nodes.
#[derive(Drop)]
pub struct ItemPhases {
    pub phases: LotPhases,
    pub classes: Vec<u128>,
}

/// Those of a stage whose passes are of these kinds and have these host classes, or None where
/// ranges don't pay.
#[derive(Drop)]
pub struct KindPhases {
    pub kinds: Vec<PassKind>,
    pub hosts: Vec<Option<u32>>,
    pub lots: Option<ItemPhases>,
}

// Schedules take turns with few lists of kinds, and the phases of each take memory.
const MOST_KEPT: usize = 4;

impl<'a> StageWork<'a> {
    /// The place among those kept of the phases of the items, for so many ranges of the cells:
    /// those of an earlier stage with passes of the same kinds and host classes, which must have been
    /// made for as many ranges, or those made and kept now.
    pub fn phases(
        &self,
        alloc: Global,
        ranges: u32,
        kept: &mut Vec<KindPhases>,
    ) -> Result<usize, AllocError>
        requires some { 0 < ranges }
        requires kept { All (FitKinds self.now) kept.old.items }
        ensures kept { OnOk result (All (FitKinds self.now) kept.new.items) }
        ensures place { IfOk result (λ p. p < length kept.new.items) }
        ensures phases { IfOk result (AreForStageAt self.now kept.new.items) }
    {
        let items = self.parts.item_tables.own.items;
        if let Some(place) = place_of(items, kept.as_slice()) {
            return Ok(place);
        }
        let made = self.made_phases(alloc, ranges)?;
        kept.truncate(MOST_KEPT - 1);
        kept.push(made)?;
        Ok(kept.len() - 1)
    }

    /// The phases of the items for so many ranges of the cells.
    fn made_phases(&self, alloc: Global, ranges: u32) -> Result<KindPhases, AllocError>
        requires some { 0 < ranges }
        ensures fit { IfOk result (FitKinds self.now) }
        ensures kinds { IfOk result (λ k. kinds_told k ≡ kinds_at self.now) }
        ensures hosts { IfOk result (λ k. k.hosts.items ≡ hosts_at self.now) }
    {
        let items = self.parts.item_tables.own.items;
        let lots = self.item_phases(alloc, ranges)?;
        let kinds = kinds_of(alloc, items.passes)?;
        let hosts = hosts_of(alloc, items)?;
        Ok(KindPhases { kinds, hosts, lots })
    }

    /// The same without the kinds and the host classes.
    fn item_phases(&self, alloc: Global, ranges: u32) -> Result<Option<ItemPhases>, AllocError>
        requires some { 0 < ranges }
        ensures fit { IfOk result (λ l. IfSome l
            (FitLots self.now (kinds_at self.now) (hosts_at self.now))) }
    {
        let items = self.parts.item_tables.own.items;
        let Some(phases) = stage_phases(alloc, items, ranges)? else {
            return Ok(None);
        };
        let phases = LotPhases::new(alloc, phases, self.parts.items())?;
        let classes = item_classes(alloc, items)?;
        Ok(Some(ItemPhases { phases, classes }))
    }
}

/// The kinds of passes.
fn kinds_of(alloc: Global, passes: &[Pass]) -> Result<Vec<PassKind>, AllocError>
    ensures kinds { IfOk result (λ v. v.items ≡ map (λ p. p.kind) passes.now) }
{
    let mut kinds = Vec::with_capacity(alloc, passes.len())?;
    for pass in passes {
        kinds.push(pass.kind)?;
    }
    Ok(kinds)
}

/// The host classes of the passes of a stage.
fn hosts_of(alloc: Global, items: StageItems<'_>) -> Result<Vec<Option<u32>>, AllocError>
    ensures hosts { IfOk result (λ v. v.items ≡ hosts_in items.entry) }
{
    let mut hosts = Vec::with_capacity(alloc, items.passes.len())?;
    let count = items.passes.len() as u32;
    for pass in 0..count {
        hosts.push(items.host(pass))?;
    }
    Ok(hosts)
}

/// The place of the first of those kept that are for the kinds and host classes of this stage.
fn place_of(items: StageItems<'_>, kept: &[KindPhases]) -> Option<usize>
    ensures place { IfSome result
        (AreOfKinds kept.now (kinds_in (passes_in items.entry)) (hosts_in items.entry)) }
{
    for place in 0..kept.len() {
        if is_for(items, &kept[place]) {
            return Some(place);
        }
    }
    None
}

/// Whether the phases are for the kinds and host classes of this stage.
fn is_for(items: StageItems<'_>, kept: &KindPhases) -> bool
    ensures kinds { result ≡ true → kept.now.kinds.items ≡ map (λ p. p.kind) items.entry.passes.now }
    ensures hosts { result ≡ true → kept.now.hosts.items ≡ hosts_in items.entry }
{
    are_of(items.passes, kept.kinds.as_slice()) && have_hosts(items, kept.hosts.as_slice())
}

/// Whether the passes of a stage have these host classes.
fn have_hosts(items: StageItems<'_>, hosts: &[Option<u32>]) -> bool
    ensures hosts { result ≡ true → hosts.now ≡ hosts_in items.entry }
{
    if items.passes.len() != hosts.len() {
        return false;
    }
    let count = items.passes.len() as u32;
    for pass in 0..count {
        if !is_one_host(hosts[pass as usize], items.host(pass)) {
            return false;
        }
    }
    true
}

/// Whether the passes are of these kinds.
fn are_of(passes: &[Pass], kinds: &[PassKind]) -> bool
    ensures kinds { result ≡ true → kinds.now ≡ map (λ p. p.kind) passes.now }
{
    if passes.len() != kinds.len() {
        return false;
    }
    for number in 0..passes.len() {
        let kind = kinds[number];
        if !is_same(passes[number].kind, kind) {
            return false;
        }
    }
    true
}

/// Whether two kinds are one.
fn is_same(kind: PassKind, other: PassKind) -> bool
    ensures same { result ≡ true → kind ≡ other }
{
    match (kind, other) {
        (PassKind::TopDown, PassKind::TopDown)
        | (PassKind::BottomUp, PassKind::BottomUp)
        | (PassKind::InOrder, PassKind::InOrder) => true,
        _ => false,
    }
}
