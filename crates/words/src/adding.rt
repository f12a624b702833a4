// Sorted rows at the front of words: rows added, and a segment's share moved out.
ghost use Rattle.std.specs.Prelude.{◌≡◌, ◌+◌, ◌*◌, ◌≤◌, length};
ghost use Rattle.book.specs.Rows.{Sorted, add as added, onto};
ghost use Rattle.rows.specs.Model.{row_of, rows_of, aggregates_of};
ghost use Rattle.rows.specs.Segments.{Shared};
ghost use Rattle.words.specs.Tables.{rows_in};

use crate::items::as_items_mut;
use plans::stages::Stage;
use rows::lent::{self, Moved};
use rows::row::{Row, RowWords};
use rows::segments::KeyRange;

// Adds a row, joined with the one of its key if there is one: how many rows there are then.
pub fn add(words: &mut [u64], count: usize, row: Row, stages: &[Stage]) -> usize
    requires room { 4 * count + 4 ≤ length words.old }
    requires sorted { Sorted (rows_in count words.old) }
    ensures rows { rows_in result words.new ≡ added (aggregates_of stages.now) (row_of row) (rows_in count words.old) }
    ensures few { result ≤ count + 1 }
    ensures sorted { Sorted (rows_in result words.new) }
{
    let (rows, _) = as_items_mut(words);
    lent::add(rows, count, row, stages)
}

// Adds rows, the last first: how many rows there are then.
pub fn merge(words: &mut [u64], count: usize, from: &[RowWords], stages: &[Stage]) -> usize
    requires room { 4 * (count + length from.now) ≤ length words.old }
    requires sorted { Sorted (rows_in count words.old) }
    ensures rows { rows_in result words.new ≡ onto (aggregates_of stages.now) (rows_of from.now) (rows_in count words.old) }
    ensures few { result ≤ count + length from.now }
    ensures sorted { Sorted (rows_in result words.new) }
{
    let (rows, _) = as_items_mut(words);
    lent::merge(rows, count, from, stages)
}

// Moves a segment's share out, to the beginning of other words.
pub fn take_share(
    words: &mut [u64],
    count: usize,
    range: KeyRange,
    most: usize,
    to: &mut [u64],
) -> Moved
    requires whole { 4 * count ≤ length words.old }
    requires sorted { Sorted (rows_in count words.old) }
    requires room { 4 * most ≤ length to.old }
    ensures few { result.moved ≤ most }
    ensures all { result.moved + result.left ≡ count }
    ensures shared { Shared range most (rows_in count words.old) (rows_in result.moved to.new) (rows_in result.left words.new) }
    ensures sorted { (Sorted (rows_in result.moved to.new)) × (Sorted (rows_in result.left words.new)) }
{
    let (rows, _) = as_items_mut(words);
    let (share, _) = as_items_mut(to);
    lent::take_share(rows, count, range, most, share)
}
