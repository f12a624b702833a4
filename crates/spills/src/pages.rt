// The rows that are spilled, and those of the page that was shown: as one page, or as two where they are too many for one.
ghost use Rattle.std.specs.Prelude.{◌≡◌, ℕ, ◌+◌, ◌*◌, ◌≤◌, length};
ghost use Rattle.book.specs.Queue.{RowPage, spill_by};
ghost use Rattle.rows.specs.Model.{rows_of, aggregates_of};
ghost use Rattle.segs.specs.Model.{page_link, seg_of};
ghost use Rattle.spills.specs.Model.{Halves, spilt_of, Few, SamePages};

use plans::stages::Stage;
use rows::row::RowWords;
use rows::sorted::SortedRows;
use rows::table::Rows;
use segs::segment::{PageNumber, Segment};
use tables::Table;

// A row page that is shown: the page below it, and its rows.
#[derive(Drop)]
pub struct Shown<'a> {
    pub below: Option<PageNumber>,
    pub rows: SortedRows<'a>,
}

// Memory for the pages that are written: the first, and the second where rows are too many for one.
#[derive(Drop)]
pub struct Pages<'a> {
    pub out: Table<'a, RowWords>,
    pub upper: Rows<'a>,
}

// What rows became: one page, with one below it or none, or two of a segment that splits, which have none below them.
// No `Option`: two pages are not none.
#[derive(Clone, Copy, PartialEq, Eq, Debug)]
pub enum Spilt {
    One { below: Option<PageNumber> },
    Two,
}

// Two pages of rows in `upper` that are too many for one: the lower half to `out`, the upper half is left.
fn split(pages: &mut Pages<'_>)
    requires { length pages.old.upper.items ≤ 2 * pages.old.out.room }
    ensures halves { Halves pages.old.upper.items (rows_of pages.new.out.items) pages.new.upper.items }
    ensures room { SamePages pages.old pages.new }
{
    let rows = pages.upper.as_slice();
    let half = rows.len() / 2;
    pages.out.assign(&rows[..half]);
    pages.upper.remove_range(0..half);
}

// The rows that were moved out of the buffer, in `out`, go into a segment's pages: by themselves if it has no page; with the
// rows of its first page, which was shown, if they are few enough; in two pages if they are too many and there are no
// others; else in a page of their own before it.
pub fn join_page(
    pages: &mut Pages<'_>,
    shown: &Shown<'_>,
    segment: Segment,
    size: usize,
    stages: &[Stage],
) -> Spilt
    requires size { 1 ≤ size }
    requires out { size ≤ pages.old.out.room }
    requires upper { 2 * size ≤ pages.old.upper.room }
    requires moved { length pages.old.out.items ≤ size }
    requires shown { length shown.now.rows ≤ size }
    ensures is { (n : ℕ) → spilt_of n (seg_of segment) (rows_of pages.new.out.items) pages.new.upper.items result ≡ spill_by (aggregates_of stages.now) size n (RowPage (page_link shown.now.below) shown.now.rows) (page_link segment.head) (seg_of segment) (rows_of pages.old.out.items) }
    ensures few { Few size (rows_of pages.new.out.items) pages.new.upper.items result }
    ensures room { SamePages pages.old pages.new }
{
    if segment.head.is_none() {
        return Spilt::One { below: None };
    }
    pages.upper.assign(&shown.rows);
    pages.upper.merge(pages.out.as_slice(), stages);
    if pages.upper.as_slice().len() <= size {
        pages.out.assign(pages.upper.as_slice());
        return Spilt::One { below: shown.below };
    }
    if segment.index.is_none() && shown.below.is_none() {
        split(pages);
        return Spilt::Two;
    }
    Spilt::One {
        below: segment.head,
    }
}
