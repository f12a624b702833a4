// The rows of a segment among sorted rows: a segment has the keys from its low on, below the next one's.
ghost use Rattle.std.specs.Prelude.{◌≡◌, ℕ, ◌+◌, ◌-◌, ◌≤◌, List, ◌++◌, length, take, drop};
ghost use Rattle.book.specs.Rows.{Sorted};
ghost use Rattle.book.specs.Queue.{Seg, is_of};
ghost use Rattle.book.specs.Due.{count as counted};
ghost use Rattle.rows.specs.Model.{rows_of};
ghost use Rattle.rows.specs.Segments.{IsRange, within, Ends, Run, Shared};

use crate::row::{RowKey, RowWords};
use crate::sorted::SortedRows;
use crate::table::Rows;
use std::ops::Range;
use tables::Table;

// Keys from `low` on, below `high` if there is one.
#[derive(Clone, Copy)]
pub struct KeyRange {
    pub low: RowKey,
    pub high: Option<RowKey>,
}

impl<'a> SortedRows<'a> {
    // How many rows are below the upper end of a range.
    fn end_of(&self, high: Option<RowKey>) -> usize
        ensures { Ends high self.now result }
    {
        match high {
            Some(key) => self.find(key).place,
            None => self.as_slice().len(),
        }
    }

    // All rows whose keys are in a range, by halving.
    pub fn rows_within(&self, range: KeyRange) -> Range<usize>
        ensures run { Run (within range) self.now result.start result.end }
        ensures many { (i : ℕ) (segments : List Seg) → IsRange range i segments → result.end - result.start ≡ counted (is_of i segments) self.now }
    {
        let start = self.find(range.low).place;
        let end = self.end_of(range.high);
        start..end.max(start)
    }

    // A segment's share: the first rows whose keys are in its range, at most so many.
    pub fn share(&self, range: KeyRange, most: usize) -> Range<usize>
        ensures order { result.start ≤ result.end }
        ensures within { result.end ≤ length self.now }
        ensures few { result.end - result.start ≤ most }
        ensures shared { Shared range most self.now (drop result.start (take result.end self.now)) (take result.start self.now ++ drop result.end self.now) }
    {
        let all = self.rows_within(range);
        let count = (all.end - all.start).min(most);
        all.start..all.start + count
    }
}

impl<'a> Rows<'a> {
    // Moves a segment's share out, in place of all that is in another table.
    pub fn take_share(&mut self, range: KeyRange, most: usize, to: &mut Table<'_, RowWords>)
        requires { most ≤ to.old.room }
        ensures few { length to.new.items ≤ most }
        ensures all { length to.new.items + length self.new.items ≡ length self.old.items }
        ensures shared { Shared range most self.old.items (rows_of to.new.items) self.new.items }
        ensures sorted { Sorted (rows_of to.new.items) }
        ensures room { (self.new.room ≡ self.old.room) × (to.new.room ≡ to.old.room) }
    {
        let rows = self.as_sorted();
        let part = rows.share(range, most);
        to.assign(rows.part(part.start..part.end).as_slice());
        self.remove_range(part);
    }
}
