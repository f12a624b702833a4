// Sorted rows that are borrowed, of a table or of a page that is shown, and where a key stands among them.
ghost use Rattle.std.specs.Prelude.{◌≡◌, ◌+◌, ◌*◌, ◌^◌, ◌≤◌, ◌↔◌, length, take, drop, IsSome, IfSome};
ghost use Rattle.book.specs.Rows.{Sorted, ltk};
ghost use Rattle.rows.specs.Model.{key_of, row_in, rows_of};
ghost use Rattle.rows.specs.Search.{Splits, HeldAt};

use crate::row::{Row, RowKey, RowWords};
use std::marker::Model;
use std::ops::Range;

#[derive(Drop)]
pub struct SortedRows<'a> {
    rows: &'a [RowWords],
}

impl<'a> Model for SortedRows<'a> {
    ghost use Rattle.std.specs.Prelude.{List};
    ghost use Rattle.book.specs.Rows.{Row, Sorted};
    ghost use Rattle.rows.specs.Model.{rows_of};

    ghost Value = { List Row };

    ghost view = { λ s. rows_of s.rows.now };

    ghost invariant = { λ s. Sorted (rows_of s.rows.now) };
}

// Does a row stand before another.
fn is_before(a: &RowWords, b: &RowWords) -> bool
    ensures { result ≡ ltk (row_in a.now).at (row_in b.now).at }
{
    Row::from(*a).at < Row::from(*b).at
}

// Where a key stands among rows, and how many of them were read to find it.
#[derive(Clone, Copy)]
pub struct Found {
    pub place: usize,
    pub read: usize,
}

impl<'a> SortedRows<'a> {
    pub fn new(rows: &'a [RowWords]) -> Self
        requires { Sorted (rows_of rows.now) }
        ensures { result ≡ rows_of rows.now }
    {
        SortedRows { rows }
    }

    // These rows, if they are sorted. One pass finds out.
    pub fn try_new(rows: &'a [RowWords]) -> Option<Self>
        ensures some { IsSome result ↔ Sorted (rows_of rows.now) }
        ensures rows { IfSome result (λ sorted. sorted ≡ rows_of rows.now) }
    {
        if rows.is_sorted_by(is_before) {
            Some(SortedRows { rows })
        } else {
            None
        }
    }

    pub fn as_slice(&self) -> &'a [RowWords]
        ensures rows { rows_of result.now ≡ self.now }
        ensures sorted { Sorted self.now }
    {
        self.rows
    }

    // The rows of a range of places.
    pub fn part(&self, range: Range<usize>) -> SortedRows<'a>
        requires order { range.start ≤ range.end }
        requires within { range.end ≤ length self.now }
        ensures { result ≡ drop range.start (take range.end self.now) }
    {
        SortedRows {
            rows: &self.rows[range.start..range.end],
        }
    }

    // How many rows stand before a key, by halving: it reads at most one row more than the binary logarithm of their number.
    // The library's `partition_point` halves too, but its contract does not say how often it reads.
    pub fn find(&self, key: RowKey) -> Found
        ensures place { Splits (key_of key) self.now result.place }
        ensures read { 2 ^ result.read ≤ 2 * length self.now + 1 }
    {
        let rows = self.rows;
        let mut low = 0;
        let mut high = rows.len();
        let mut read = 0;
        while low < high {
            let mid = low + (high - low) / 2;
            let row = Row::from(rows[mid]);
            read += 1;
            if row.at < key {
                low = mid + 1;
            } else {
                high = mid;
            }
        }
        Found { place: low, read }
    }

    // The row of a key, if it stands at i.
    pub(crate) fn row_at(&self, i: usize, key: RowKey) -> Option<Row>
        ensures { HeldAt (key_of key) self.now i result }
    {
        let row = Row::from(*self.rows.get(i)?);
        (key == row.at).then_some(row)
    }
}
