// Sorted rows at the front of memory that is lent for one call, so that who lends it knows what it holds then.
ghost use Rattle.std.specs.Prelude.{◌≡◌, ◌+◌, ◌<◌, ◌≤◌, length, take};
ghost use Rattle.book.specs.Rows.{Sorted, add as added, onto};
ghost use Rattle.rows.specs.Model.{row_of, rows_of, aggregates_of};
ghost use Rattle.rows.specs.Segments.{Shared};

use crate::row::{Row, RowWords, aggregate_of};
use crate::segments::KeyRange;
use crate::sorted::SortedRows;
use plans::stages::Stage;
use tables::{insert_from_slice, remove_range};

// Adds a row, joined with the one of its key if there is one: how many rows there are then.
pub fn add(slots: &mut [RowWords], count: usize, row: Row, stages: &[Stage]) -> usize
    requires room { count < length slots.old }
    requires sorted { Sorted (rows_of (take count slots.old)) }
    ensures rows { rows_of (take result slots.new) ≡ added (aggregates_of stages.now) (row_of row) (rows_of (take count slots.old)) }
    ensures few { result ≤ count + 1 }
    ensures sorted { Sorted (rows_of (take result slots.new)) }
{
    let rows = SortedRows::new(&slots[..count]);
    let place = rows.find(row.at).place;
    match rows.row_at(place, row.at) {
        Some(old) => {
            let how = aggregate_of(stages, old.at.stage);
            let value = how.together(old.value, row.value);
            slots[place] = Row { value, ..old }.into();
            count
        }
        None => insert_from_slice(slots, count, place, &[row.into()]),
    }
}

// Adds rows, the last first: how many rows there are then.
pub fn merge(slots: &mut [RowWords], count: usize, from: &[RowWords], stages: &[Stage]) -> usize
    requires room { count + length from.now ≤ length slots.old }
    requires sorted { Sorted (rows_of (take count slots.old)) }
    ensures rows { rows_of (take result slots.new) ≡ onto (aggregates_of stages.now) (rows_of from.now) (rows_of (take count slots.old)) }
    ensures few { result ≤ count + length from.now }
    ensures sorted { Sorted (rows_of (take result slots.new)) }
{
    let mut so_far = count;
    for words in from.iter().rev() {
        so_far = add(slots, so_far, Row::from(*words), stages);
    }
    so_far
}

// How many rows were moved out, and how many are left.
#[derive(Clone, Copy)]
pub struct Moved {
    pub moved: usize,
    pub left: usize,
}

// Moves a segment's share out, to the beginning of other memory.
// `Rows::take_share` moves it to a `Table`, whose memory only its own methods reach.
pub fn take_share(
    slots: &mut [RowWords],
    count: usize,
    range: KeyRange,
    most: usize,
    to: &mut [RowWords],
) -> Moved
    requires whole { count ≤ length slots.old }
    requires sorted { Sorted (rows_of (take count slots.old)) }
    requires room { most ≤ length to.old }
    ensures few { result.moved ≤ most }
    ensures all { result.moved + result.left ≡ count }
    ensures shared { Shared range most (rows_of (take count slots.old)) (rows_of (take result.moved to.new)) (rows_of (take result.left slots.new)) }
    ensures sorted { (Sorted (rows_of (take result.moved to.new))) × (Sorted (rows_of (take result.left slots.new))) }
{
    let rows = SortedRows::new(&slots[..count]);
    let part = rows.share(range, most);
    let from = rows.part(part.start..part.end).as_slice();
    let moved = from.len();
    to[..moved].copy_from_slice(from);
    let left = remove_range(slots, count, part);
    Moved { moved, left }
}
