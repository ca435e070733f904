ghost use Rattle.std.specs.Prelude.{◌≡◌, ◌<◌, ◌≤◌, ◌↔◌, ◌==◌, ◌&&◌, ◌||◌, if◌then◌else◌};
ghost use Rattle.std.specs.Prelude.{ℕ, true, false, length, slice_index_or, IfOk};
ghost use Rattle.std.specs.FinSet as set;
ghost use Rattle.lane_rows.specs.Matrix.{entry, Leads};

use crate::BitRow;
use std::alloc::{AllocError, Global};
use std::marker::Model;

/// A square of entries, each from one number to another. Contracts see it as its rows.
#[derive(Drop)]
pub struct BitMatrix {
    rows: Vec<BitRow>,
}

impl Model for BitMatrix {
    ghost use Rattle.std.specs.Prelude.{List, ◌≤◌, length};
    ghost use Rattle.std.specs.Ordering.{nat_cmp};
    ghost use Rattle.std.specs.FinSet as set;
    ghost use Rattle.std.specs.Coded.{coded_ℕ, coded_list};

    ghost Value = { List (set.FinSet nat_cmp) };

    ghost coded = { coded_list (set.code coded_ℕ) };

    ghost view = { λ m. m.rows.items };

    ghost invariant = { λ m. length m.rows.items ≤ 2048 };
}

impl BitMatrix {
    /// A matrix of this size without an entry.
    pub fn new(alloc: Global, size: u32) -> Result<BitMatrix, AllocError>
        requires size { size ≤ 2048 }
        ensures size { IfOk result (λ m. length m ≡ size) }
        ensures none { IfOk result (λ m. (a b : ℕ) → entry m a b ≡ false) }
    {
        let mut rows = Vec::with_capacity(alloc, size as usize)?;
        for _ in 0..size {
            rows.push(BitRow::empty())?;
        }
        Ok(BitMatrix { rows })
    }

    /// How many rows there are.
    pub fn size(&self) -> u32
        ensures rows { result ≡ length self.now }
        ensures few { length self.now ≤ 2048 }
    {
        self.rows.len() as u32
    }

    /// Adds an entry.
    pub fn put(&mut self, from: u32, to: u32)
        requires from { from < length self.old }
        requires to { to < length self.old }
        ensures size { length self.new ≡ length self.old }
        ensures added { (a b : ℕ)
            → entry self.new a b ≡ (((a == from) && (b == to)) || entry self.old a b) }
    {
        self.rows[from as usize].put(to);
    }

    /// Whether there is an entry.
    pub fn has(&self, from: u32, to: u32) -> bool
        requires from { from < length self.now }
        requires to { to < length self.now }
        ensures member { result ≡ entry self.now from to }
    {
        self.rows[from as usize].has(to)
    }

    /// The numbers that a number has entries to.
    pub fn row(&self, from: u32) -> &BitRow
        requires from { from < length self.now }
        ensures row { result.now ≡ slice_index_or self.now from set.empty }
    {
        &self.rows[from as usize]
    }

    /// Adds an entry wherever a walk of entries leads.
    pub fn close(&mut self)
        ensures size { length self.new ≡ length self.old }
        ensures closed { (a b : ℕ) → (entry self.new a b ≡ true) ↔ Leads self.old a b }
    {
        close_rows(&mut self.rows);
    }
}

// Adds the entries of walks, by one pivot after another (Warshall's algorithm).
fn close_rows(rows: &mut [BitRow])
    requires size { length rows.old ≤ 2048 }
    ensures size { length rows.new ≡ length rows.old }
    ensures closed { (a b : ℕ) → (entry rows.new a b ≡ true) ↔ Leads rows.old a b }
{
    for pivot in 0..rows.len() {
        close_over(rows, pivot);
    }
}

// Adds the entries of walks over the pivot.
fn close_over(rows: &mut [BitRow], pivot: usize)
    requires pivot { pivot < length rows.old }
    requires size { length rows.old ≤ 2048 }
    ensures size { length rows.new ≡ length rows.old }
    ensures over { (a b : ℕ)
        → entry rows.new a b
        ≡ (entry rows.old a b || (entry rows.old a pivot && entry rows.old pivot b)) }
{
    let mut through = BitRow::empty();
    through.union_into(&rows[pivot]);
    for row in 0..rows.len() {
        join_where(&mut rows[row], pivot as u32, &through);
    }
}

// Adds the other's numbers, where the row has this one.
fn join_where(row: &mut BitRow, number: u32, other: &BitRow)
    requires number { number < 2048 }
    ensures joined { row.new
        ≡ (if set.contains row.old number then set.union row.old other.now else row.old) }
{
    if row.has(number) {
        row.union_into(other);
    }
}
