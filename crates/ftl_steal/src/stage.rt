// A whole stage, by workers in threads of their own.
ghost use Rattle.std.specs.Prelude.{◌≡◌, ◌<◌, ◌≤◌, ◌+◌, ◌*◌, [], ◌∷◌, ◌++◌, min, max};
ghost use Rattle.std.specs.Prelude.{length, vec_capacity, vec_len, IfOk, OnOk};
ghost use Rattle.std.specs.List.{All};
ghost use Rattle.ftl_cells.specs.shared.Work.{item_total};
ghost use Rattle.ftl_cells.specs.shared.State.{live};
ghost use Rattle.ftl_cells.specs.shared.Calls.{IsMadeBy};
ghost use Rattle.ftl_cells.specs.declared.shared.place.HandPlace.TheVariants.{Idle, Ended};
ghost use Rattle.crossbeam_utils.specs.Padded.{padded_value};
ghost use Rattle.ftl_steal.specs.Dealing.{AreDealt, HasFreeBelow, free_items, puts_of};
ghost use Rattle.ftl_steal.specs.Workers.{IsIdleMember, IsEndedMember, AreNumbered};
ghost use Rattle.ftl_steal.specs.Workers.{holds_of, steps_made, step_total};

use crate::dealing::deal;
use crate::member::Member;
use crate::worker::work;
use crossbeam_utils::CachePadded;
use ftl_base::{CodeStack, Val};
use ftl_cells::{Cells, Hand, Work};
use ftl_edge::Gate;
use ftl_pool::{StealHold, StealPool};
use std::alloc::{AllocError, Global};
use std::sync::Wait;
use std::thread::{Threads, for_each_mut};

/// Fills the cells of a work by so many workers, or as many as it has items where these are fewer,
/// and by one where it has none. All memory is taken before a worker starts, and each thread is
/// joined.
pub fn run_stage<R: Threads + Wait + Sync, W: Work, G: Gate>(
    rt: &R,
    alloc: Global,
    cells: &Cells<W>,
    mut hand: Hand,
    workers: u32,
    gate: &G,
) -> Result<Hand, AllocError>
    requires made { IsMadeBy (W.meaning cells.now.1) cells.now.0 hand }
    requires idle { hand.state.place ≡ live Idle }
    requires some { 0 < workers }
    requires few { workers ≤ 64 }
    ensures made { IfOk result (IsMadeBy (W.meaning cells.now.1) cells.now.0) }
    ensures ended { IfOk result (λ h. h.state.place ≡ live Ended) }

    // Beside the steps of the hand that went in, the one that comes back counts three at least for
    // each worker: as many as it takes to make a hand for it, to find the end with this hand, and
    // to take it in.
    ensures given_up { IfOk result (λ h. steps_made hand.state
        + 3 * min workers (max (item_total (W.meaning cells.now.1)) 1) ≤ steps_made h.state) }
{
    let items = cells.work().items();
    let workers = workers.min(items.max(1));
    let (pool, mut holds) = StealPool::new(alloc, workers, items)?;
    deal(rt, cells.work(), &pool, &mut holds);
    let mut members = gather(alloc, cells, &pool, &mut hand, holds, workers)?;
    run_all(rt, cells, &pool, gate, members.as_mut_slice());
    Ok(give_up_all(cells, members, hand))
}

/// A worker for each hold, in the same order, each with a hand of its own.
fn gather<W: Work>(
    alloc: Global,
    cells: &Cells<W>,
    pool: &StealPool,
    hand: &mut Hand,
    holds: Vec<StealHold>,
    workers: u32,
) -> Result<Vec<CachePadded<Member>>, AllocError>
    requires made { IsMadeBy (W.meaning cells.now.1) cells.now.0 hand.old }
    requires idle { hand.old.state.place ≡ live Idle }
    requires count { vec_len holds ≡ workers }
    requires free { All (HasFreeBelow (W.meaning cells.now.1) pool.now
        (item_total (W.meaning cells.now.1))) holds.items }
    ensures made { IsMadeBy (W.meaning cells.now.1) cells.now.0 hand.new }
    ensures idle { hand.new.state.place ≡ live Idle }
    ensures steps { OnOk result (steps_made hand.new.state ≡ steps_made hand.old.state + workers) }
    ensures count { IfOk result (λ members. vec_len members ≡ workers) }
    ensures members { IfOk result
        (λ members. All (IsIdleMember (W.meaning cells.now.1) cells.now.0 pool.now)
        members.items) }
    ensures numbers { IfOk result (λ members. AreNumbered members.items) }
    ensures holds { IfOk result (λ members. holds_of members.items ≡ holds.items) }
{
    let mut members = Vec::with_capacity(alloc, workers as usize)?;
    let mut holds = holds.into_iter();
    for number in 0..workers {
        let hold = holds.next().unwrap();
        let member = equip(alloc, cells, pool, hand, hold, number)?;
        members.push(member)?;
    }
    Ok(members)
}

/// A worker with a hand of its own, a hold and buffers.
fn equip<W: Work>(
    alloc: Global,
    cells: &Cells<W>,
    _pool: &StealPool,
    hand: &mut Hand,
    hold: StealHold,
    number: u32,
) -> Result<CachePadded<Member>, AllocError>
    requires made { IsMadeBy (W.meaning cells.now.1) cells.now.0 hand.old }
    requires idle { hand.old.state.place ≡ live Idle }
    requires free { HasFreeBelow (W.meaning cells.now.1) _pool.now
        (item_total (W.meaning cells.now.1)) hold }
    ensures made { IsMadeBy (W.meaning cells.now.1) cells.now.0 hand.new }
    ensures idle { hand.new.state.place ≡ live Idle }
    ensures steps { OnOk result (steps_made hand.new.state ≡ steps_made hand.old.state + 1) }
    ensures member { IfOk result (IsIdleMember (W.meaning cells.now.1) cells.now.0 _pool.now) }
    ensures number { IfOk result (λ w. (padded_value w).number ≡ number) }
    ensures hold { IfOk result (λ w. (padded_value w).hold ≡ hold) }
{
    let reads = read_buffer(alloc, cells)?;
    let stack = CodeStack::new(alloc, cells.work().max_stack())?;
    Ok(CachePadded::new(Member {
        number,
        hand: cells.another(hand),
        hold,
        reads,
        stack,
    }))
}

/// Room for what a step reads.
fn read_buffer<W: Work>(alloc: Global, cells: &Cells<W>) -> Result<Vec<Val>, AllocError>
    ensures room { IfOk result (λ v. (W.meaning cells.now.1).max_reads ≤ vec_capacity v) }
{
    Vec::with_capacity(alloc, cells.work().max_reads() as usize)
}

/// Runs all workers, each in a thread of its own where one can be made.
fn run_all<R: Threads + Wait + Sync, W: Work, G: Gate>(
    rt: &R,
    cells: &Cells<W>,
    pool: &StealPool,
    gate: &G,
    members: &mut [CachePadded<Member>],
)
    requires items { pool.now.items ≡ item_total (W.meaning cells.now.1) }
    requires some { 0 < length members.old }
    requires idle { All (IsIdleMember (W.meaning cells.now.1) cells.now.0 pool.now)
        members.old }

    // What each starts with, by its number.
    requires numbers { AreNumbered members.old }
    requires rounds { AreDealt (free_items (W.meaning cells.now.1))
        (puts_of (holds_of members.old)) }
    ensures count { length members.new ≡ length members.old }
    ensures ended { All (IsEndedMember (W.meaning cells.now.1) cells.now.0) members.new }
{
    let threads = members.len();
    for_each_mut(
        rt,
        members,
        threads,
        &|_: usize, member: &mut CachePadded<Member>|
            requires idle { IsIdleMember (W.meaning cells.now.1) cells.now.0 pool.now member.now }
            requires items { pool.now.items ≡ item_total (W.meaning cells.now.1) }
            ensures ended { IsEndedMember (W.meaning cells.entry.now.1) cells.entry.now.0
                member.exit.now }
        { work(rt, cells, pool, gate, member) },
    );
}

#[tactic(auto, using(crate::proofs::Totals::push_total))]
/// The hand of one worker, which takes in those of all others and the caller's.
fn give_up_all<W: Work>(cells: &Cells<W>, mut members: Vec<CachePadded<Member>>, hand: Hand) -> Hand
    requires made { IsMadeBy (W.meaning cells.now.1) cells.now.0 hand }
    requires idle { hand.state.place ≡ live Idle }
    requires some { 0 < vec_len members }
    requires ended { All (IsEndedMember (W.meaning cells.now.1) cells.now.0) members.items }
    ensures made { IsMadeBy (W.meaning cells.now.1) cells.now.0 result }
    ensures ended { result.state.place ≡ live Ended }
    ensures all { steps_made result.state
        ≡ steps_made hand.state + step_total members.items + vec_len members }
    ensures least { steps_made hand.state + 2 * vec_len members ≤ steps_made result.state }
{
    let mut kept = next_member(cells, &mut members).into_inner().hand;
    cells.give_up(&mut kept, hand);
    for _ in 0..members.len() {
        let other = next_member(cells, &mut members).into_inner().hand;
        cells.give_up(&mut kept, other);
    }
    kept
}

/// The next worker of a list, taken off.
fn next_member<W: Work>(
    _cells: &Cells<W>,
    members: &mut Vec<CachePadded<Member>>,
) -> CachePadded<Member>
    requires some { 0 < vec_len members.old }
    requires ended { All (IsEndedMember (W.meaning _cells.now.1) _cells.now.0)
        members.old.items }
    ensures ended { IsEndedMember (W.meaning _cells.now.1) _cells.now.0 result }
    ensures taken { members.old.items ≡ members.new.items ++ result ∷ [] }
    ensures count { vec_len members.new + 1 ≡ vec_len members.old }
    ensures rest { All (IsEndedMember (W.meaning _cells.now.1) _cells.now.0)
        members.new.items }
{
    members.pop().unwrap()
}
