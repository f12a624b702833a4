// Sorted rows in memory that is lent.
// What is called here requires room of its caller, the code that lends the memory: it has proved it, so that nothing is
// tested twice.
ghost use Rattle.std.specs.Prelude.{◌≡◌, ◌+◌, ◌<◌, ◌≤◌, ◌++◌, length, take, drop};
ghost use Rattle.book.specs.Rows.{Sorted, add as added, onto};
ghost use Rattle.book.specs.Words.{write_all, write_row};
ghost use Rattle.rows.specs.Model.{row_of, rows_of, aggregates_of};

use crate::lent;
use crate::row::{Row, RowWords};
use crate::sorted::SortedRows;
use plans::stages::Stage;
use std::marker::Model;
use std::ops::Range;
use tables::remove_range;

// The words of rows, which are what the book writes of them to a page.
pub fn words_of(rows: &[RowWords]) -> &[u64]
    ensures { result.now ≡ write_all write_row (rows_of rows.now) }
{
    rows.as_flattened()
}

#[derive(Drop)]
pub struct Rows<'a> {
    slots: &'a mut [RowWords],
    count: usize,
}

impl<'a> Model for Rows<'a> {
    ghost use Rattle.std.specs.Prelude.{◌≤◌, length, take};
    ghost use Rattle.book.specs.Rows.{Row, Sorted};
    ghost use Rattle.tables.specs.Lent.{Lent};
    ghost use Rattle.rows.specs.Model.{rows_of};

    ghost Value = { Lent Row };

    ghost view = { λ t. record { items = rows_of (take t.count t.slots.now); room = length t.slots.now } };

    ghost invariant = { λ t. (t.count ≤ length t.slots.now) × Sorted (rows_of (take t.count t.slots.now)) };
}

impl<'a> Rows<'a> {
    // Memory whose first rows, so many, are these.
    pub fn new(slots: &'a mut [RowWords], count: usize) -> Self
        requires whole { count ≤ length slots.old }
        requires sorted { Sorted (rows_of (take count slots.old)) }
        ensures items { result.items ≡ rows_of (take count slots.old) }
        ensures room { result.room ≡ length slots.old }
    {
        Rows { slots, count }
    }

    // How many rows there is room for.
    pub fn room(&self) -> usize
        ensures { result ≡ self.now.room }
    {
        self.slots.len()
    }

    pub fn as_slice(&self) -> &[RowWords]
        ensures rows { rows_of result.now ≡ self.now.items }
        ensures sorted { Sorted (rows_of result.now) }
        ensures fits { length self.now.items ≤ self.now.room }
    {
        &self.slots[..self.count]
    }

    pub fn as_sorted(&self) -> SortedRows<'_>
        ensures { result ≡ self.now.items }
    {
        SortedRows::new(self.as_slice())
    }

    // Other rows in place of all.
    pub fn assign(&mut self, from: &SortedRows<'_>)
        requires { length from.now ≤ self.old.room }
        ensures rows { self.new.items ≡ from.now }
        ensures room { self.new.room ≡ self.old.room }
    {
        let rows = from.as_slice();
        self.count = rows.len();
        self.slots[..self.count].copy_from_slice(rows);
    }

    // Adds a row, joined with the one of its key if there is one.
    pub fn add(&mut self, row: Row, stages: &[Stage])
        requires { length self.old.items < self.old.room }
        ensures rows { self.new.items ≡ added (aggregates_of stages.now) (row_of row) self.old.items }
        ensures few { length self.new.items ≤ length self.old.items + 1 }
        ensures room { self.new.room ≡ self.old.room }
    {
        let slots = &mut *self.slots;
        self.count = lent::add(slots, self.count, row, stages);
    }

    // Adds rows, the last first.
    pub fn merge(&mut self, from: &[RowWords], stages: &[Stage])
        requires { length self.old.items + length from.now ≤ self.old.room }
        ensures rows { self.new.items ≡ onto (aggregates_of stages.now) (rows_of from.now) self.old.items }
        ensures few { length self.new.items ≤ length self.old.items + length from.now }
        ensures room { self.new.room ≡ self.old.room }
    {
        let slots = &mut *self.slots;
        self.count = lent::merge(slots, self.count, from, stages);
    }

    pub fn remove_range(&mut self, range: Range<usize>)
        requires order { range.start ≤ range.end }
        requires within { range.end ≤ length self.old.items }
        ensures rows { self.new.items ≡ take range.start self.old.items ++ drop range.end self.old.items }
        ensures room { self.new.room ≡ self.old.room }
    {
        let slots = &mut *self.slots;
        self.count = remove_range(slots, self.count, range);
    }

    // Cuts rows in two: those from `at` on are moved to another table.
    pub fn split_off(&mut self, at: usize, upper: &mut Rows<'_>)
        requires within { at ≤ length self.old.items }
        requires room { length self.old.items ≤ at + upper.old.room }
        ensures lower { self.new.items ≡ take at self.old.items }
        ensures upper { upper.new.items ≡ drop at self.old.items }
        ensures room { (self.new.room ≡ self.old.room) × (upper.new.room ≡ upper.old.room) }
    {
        let rows = self.as_sorted();
        let end = rows.as_slice().len();
        upper.assign(&rows.part(at..end));
        self.count = at;
    }
}
