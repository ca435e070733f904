//! Matrices with rows of what walks lead to.
ghost use Rattle.std.specs.Prelude.{false, ◌≡◌, ◌⊎◌, ◌<◌, ◌↔◌, ◌==◌, ◌&&◌, ◌||◌, ℕ, true};
ghost use Rattle.std.specs.Prelude.{length, slice_index, EachIndex, IfOk};
ghost use Rattle.std.specs.FinSet as set;
ghost use Rattle.lane_rows.specs.Matrix.{entry, Leads};
ghost use Rattle.ftl_noncircular.specs.walks.Spreads.{LeadsOn};
ghost use Rattle.ftl_noncircular.specs.walks.WalkTables.{AreLed, AreNearly, AreSameRows};
ghost use Rattle.ftl_noncircular.specs.walks.WalkTables.{EndWithin, IsExact, IsFrom, IsLedFrom};
ghost use Rattle.ftl_noncircular.specs.walks.WalkTables.{IsNearly, LeadNoFurther};

use crate::walks::filling::spread;
use lane_rows::{BitMatrix, BitRow};
use std::alloc::{AllocError, Global};
use std::marker::Model;

/// A matrix, and numbers at which walks start, with what is led to from each. Contracts see the
/// matrix and the starts.
#[derive(Drop)]
pub struct Walks {
    edges: BitMatrix,
    starts: Vec<u32>,
    rows: Vec<BitRow>,
}

impl Model for Walks {
    ghost use Rattle.ftl_noncircular.specs.walks.WalkTables.{AreWalks, WalkTable, table_code};

    ghost Value = { WalkTable };

    ghost coded = { table_code };

    ghost view = { λ w. record { edges = w.edges; starts = w.starts.items } };

    ghost invariant = { λ w. AreWalks w.edges w.starts.items w.rows.items };
}

impl Walks {
    /// The walks of a matrix from these starts.
    pub fn new(alloc: Global, edges: BitMatrix, starts: Vec<u32>) -> Result<Walks, AllocError>
        requires ends { EndWithin edges }
        requires starts { EachIndex starts.items (λ k. slice_index starts.items k < length edges) }
        ensures edges { IfOk result (λ w. w.edges ≡ edges) }
        ensures starts { IfOk result (λ w. w.starts ≡ starts.items) }
    {
        let mut rows = Vec::with_capacity(alloc, starts.len())?;
        for start in &starts {
            rows.push(row_from(&edges, *start))?;
        }
        Ok(Walks {
            edges,
            starts,
            rows,
        })
    }

    /// How many rows the matrix has.
    pub fn size(&self) -> u32
        ensures size { result ≡ length self.now.edges }
    {
        self.edges.size()
    }

    /// How many starts there are.
    pub fn count(&self) -> usize
        ensures count { result ≡ length self.now.starts }
    {
        self.starts.len()
    }

    /// Adds an entry; whether walks may lead to more than before.
    pub fn put(&mut self, from: u32, to: u32) -> bool
        requires from { from < length self.old.edges }
        requires to { to < length self.old.edges }
        ensures starts { self.new.starts ≡ self.old.starts }
        ensures size { length self.new.edges ≡ length self.old.edges }
        ensures added { (a b : ℕ) → entry self.new.edges a b
            ≡ (((a == from) && (b == to)) || entry self.old.edges a b) }
        ensures same { result ≡ false → LeadNoFurther self.old self.new }
    {
        self.edges.put(from, to);
        lead_all_on(&self.edges, &mut self.rows, from, to)
    }

    /// Whether a number is this start or a walk leads from it there.
    pub fn leads(&self, start: usize, to: u32) -> bool
        requires start { start < length self.now.starts }
        requires to { to < length self.now.edges }
        ensures leads { (result ≡ true)
            ↔ IsFrom self.now.edges (slice_index self.now.starts start) to }
    {
        let _few = self.edges.size();
        self.rows[start].has(to)
    }
}

/// What walks lead to from a start, which is counted.
fn row_from(edges: &BitMatrix, start: u32) -> BitRow
    requires ends { EndWithin edges.now }
    requires start { start < length edges.now }
    ensures exact { IsExact edges.now start result }
{
    let _few = edges.size();
    let mut row = BitRow::empty();
    row.put(start);
    spread(edges, &mut row, BitRow::empty());
    row
}

/// Adds to each of some rows what an entry leads to that is new, and the walks on from there;
/// whether a row has more than before.
fn lead_all_on(edges: &BitMatrix, rows: &mut [BitRow], from: u32, to: u32) -> bool
    requires from { from < length edges.now }
    requires to { to < length edges.now }
    requires ends { EndWithin edges.now }
    requires entry { entry edges.now from to ≡ true }
    requires nearly { AreNearly edges.now from to rows.old }
    ensures count { length rows.new ≡ length rows.old }
    ensures led { AreLed edges.now rows.old rows.new }
    ensures same { result ≡ false → AreSameRows rows.old rows.new }
{
    let mut changed = false;
    for row in 0..rows.len() {
        let more = lead_on(edges, &mut rows[row], from, to);
        changed = changed || more;
    }
    changed
}

/// Adds to the row of a start what an entry leads to that is new, and the walks on from there;
/// whether it has more than before.
fn lead_on(edges: &BitMatrix, row: &mut BitRow, from: u32, to: u32) -> bool
    requires from { from < length edges.now }
    requires to { to < length edges.now }
    requires ends { EndWithin edges.now }
    requires entry { entry edges.now from to ≡ true }
    requires nearly { IsNearly edges.now from to row.old }
    ensures exact { (start : ℕ) → start < length edges.now → IsLedFrom edges.now start row.old
        → IsExact edges.now start row.new }
    ensures same { result ≡ false → row.new ≡ row.old }
{
    let _few = edges.size();
    let leads = row.has(from);
    let there = row.has(to);
    if !leads {
        return false;
    }
    if there {
        return false;
    }
    let mut done = BitRow::empty();
    done.union_into(row);
    row.put(to);
    spread(edges, row, done);
    true
}
