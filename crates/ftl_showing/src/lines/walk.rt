//! The instances that a value comes from, one after the other.

ghost use Rattle.std.specs.Prelude.{◌≡◌, None, IfOk, IfSome};
ghost use Rattle.std.specs.List.{All as AllOf};
ghost use Rattle.maugzeris.specs.pages.Instances.{IsInstanceOn};
ghost use Rattle.maugzeris.specs.pages.PageState.{IsLaidOut};
ghost use Rattle.ftl_showing.specs.lines.Whys.{AreNumbersOn, BeginsOverflow, IsOverflowOn};
ghost use Rattle.ftl_showing.specs.lines.Whys.{IsStepOn, is_overflow_on};

use crate::lines::instance::read_by;
use maugzeris::{Page, Reads};
use std::alloc::{AllocError, Global};

/// How an instance is met.
#[derive(Clone, Copy)]
pub enum Seen {
    /// It was met before.
    Before,
    /// Not before.
    First,
    /// Not before, and it is an Overflow that reads none.
    Beginning,
}

/// An instance, how many reads lead to it, and how it is met.
#[derive(Clone, Copy)]
pub struct Step {
    pub instance: u32,
    pub depth: u32,
    pub seen: Seen,
}

/// An instance that is yet to be met, and how many reads lead to it.
#[derive(Clone, Copy)]
struct Waiting {
    instance: u32,
    depth: u32,
}

/// A walk over a page, from an instance to what it reads, each before what stands behind it among
/// the reads. What an instance reads is gone through where it is met first.
#[derive(Drop)]
pub struct Walk {
    waiting: Vec<Waiting>,
    met: Vec<bool>,
}

impl Walk {
    /// Before an instance.
    pub fn new(alloc: Global, page: &Page<'_>, instance: u32) -> Result<Walk, AllocError> {
        let met = Vec::from_elem(alloc, false, page.instance_count() as usize)?;
        let mut waiting = Vec::new(alloc);
        waiting.push(Waiting { instance, depth: 0 })?;
        Ok(Walk { waiting, met })
    }

    /// The next step; none at the end.
    pub fn next(
        &mut self,
        alloc: Global,
        page: &Page<'_>,
        reads: &Reads<'_>,
    ) -> Result<Option<Step>, AllocError>
        requires laid_out { IsLaidOut page.now }
        requires same { reads.now ≡ page.now }
        ensures known { IfOk result (λ step. IfSome step (IsStepOn page.now)) }
    {
        let Some(Waiting { instance, depth }) = self.waiting.pop() else {
            return Ok(None);
        };
        if instance >= page.instance_count() {
            return Ok(None);
        }
        let seen = self.enter(alloc, page, reads, instance, depth)?;
        Ok(Some(Step {
            instance,
            depth,
            seen,
        }))
    }

    /// Meets an instance: where it was not met before, what it reads waits now, the first read for
    /// the next step.
    fn enter(
        &mut self,
        alloc: Global,
        page: &Page<'_>,
        reads: &Reads<'_>,
        instance: u32,
        depth: u32,
    ) -> Result<Seen, AllocError>
        requires laid_out { IsLaidOut page.now }
        requires same { reads.now ≡ page.now }
        requires instance { IsInstanceOn page.now instance }
        ensures beginning { IfOk result
            (λ seen. seen ≡ Seen.Beginning → BeginsOverflow page.now instance) }
    {
        if !is_first(&mut self.met, instance) {
            return Ok(Seen::Before);
        }
        let read = read_by(alloc, page, reads, instance)?;
        let read = read.as_slice();
        push_waiting(&mut self.waiting, read, depth.saturating_add(1))?;
        Ok(seen_first(page, instance, read))
    }
}

/// Whether an instance was not met before; now it is.
fn is_first(met: &mut Vec<bool>, instance: u32) -> bool {
    match met.get_mut(instance as usize) {
        Some(met) if !*met => {
            *met = true;
            true
        }
        _ => false,
    }
}

/// How an instance is met first that read these.
fn seen_first(page: &Page<'_>, instance: u32, read: &[u32]) -> Seen
    requires laid_out { IsLaidOut page.now }
    requires instance { IsInstanceOn page.now instance }
    requires known { AllOf (IsInstanceOn page.now) read.now }
    ensures overflow { result ≡ Seen.Beginning → IsOverflowOn page.now instance }
    ensures reads { result ≡ Seen.Beginning → AreNumbersOn page.now read.now }
{
    if !is_overflow(page, instance) {
        return Seen::First;
    }
    match first_overflow(page, read) {
        Some(_) => Seen::First,
        None => Seen::Beginning,
    }
}

/// Has instances wait, the first of them for the next step.
fn push_waiting(
    waiting: &mut Vec<Waiting>,
    instances: &[u32],
    depth: u32,
) -> Result<(), AllocError> {
    for instance in instances.iter().rev() {
        waiting.push(Waiting {
            instance: *instance,
            depth,
        })?;
    }
    Ok(())
}

/// The first of some instances that is Overflow.
pub fn first_overflow(page: &Page<'_>, instances: &[u32]) -> Option<u32>
    requires laid_out { IsLaidOut page.now }
    requires known { AllOf (IsInstanceOn page.now) instances.now }
    ensures overflow { IfSome result (IsOverflowOn page.now) }
    ensures none { result ≡ None → AreNumbersOn page.now instances.now }
{
    for instance in instances {
        if is_overflow(page, *instance) {
            return Some(*instance);
        }
    }
    None
}

/// Whether the value of an instance is Overflow.
pub fn is_overflow(page: &Page<'_>, instance: u32) -> bool
    requires laid_out { IsLaidOut page.now }
    requires instance { IsInstanceOn page.now instance }
    ensures overflow { result ≡ is_overflow_on page.now instance }
{
    let node = page.node_of(instance);
    let attr = page.attribute_of(instance);
    page.value(node, attr).get().is_none()
}
