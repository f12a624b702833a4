// A row placed in memory that is lent for one call, so that who lends it knows what it holds then.
ghost use Rattle.std.specs.Prelude.{◌≡◌, ◌+◌, ◌<◌, ◌≤◌, length, take};
ghost use Rattle.book.specs.Rows.{Sorted};
ghost use Rattle.rows.specs.Model.{row_of, rows_of, aggregates_of};
ghost use Rattle.segs.specs.Model.{segs_of};
ghost use Rattle.queue.specs.Placed.{Placed};

use crate::is_up;
use plans::stages::Stage;
use rows::lent::add;
use rows::row::{Row, RowWords};
use segs::segment::SegmentWords;

// How many rows there are in the front and in the buffer.
#[derive(Clone, Copy)]
pub struct Counts {
    pub front: usize,
    pub buffer: usize,
}

// A row into the front or the buffer, whose first rows are as many as `counts` says. Of the segments, which may be lent to others
// too, it reads the first one's low.
pub fn place(
    front: &mut [RowWords],
    buffer: &mut [RowWords],
    counts: Counts,
    segments: &[SegmentWords],
    row: Row,
    stages: &[Stage],
) -> Counts
    requires front { counts.front < length front.old }
    requires buffer { counts.buffer < length buffer.old }
    requires sorted { Sorted (rows_of (take counts.front front.old)) × Sorted (rows_of (take counts.buffer buffer.old)) }
    ensures placed { Placed (aggregates_of stages.now) (row_of row) (segs_of segments.now) (take counts.front front.old) (take counts.buffer buffer.old) (take result.front front.new) (take result.buffer buffer.new) }
    ensures sorted { Sorted (rows_of (take result.front front.new)) × Sorted (rows_of (take result.buffer buffer.new)) }
    ensures few { result.front + result.buffer ≤ counts.front + counts.buffer + 1 }
    ensures front { result.front ≤ counts.front + 1 }
    ensures buffer { result.buffer ≤ counts.buffer + 1 }
{
    if is_up(segments, row.at) {
        Counts {
            buffer: add(buffer, counts.buffer, row, stages),
            ..counts
        }
    } else {
        Counts {
            front: add(front, counts.front, row, stages),
            ..counts
        }
    }
}
