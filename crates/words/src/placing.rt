// A row placed into a front or a buffer that are held as words.
ghost use Rattle.std.specs.Prelude.{◌≡◌, ◌+◌, ◌*◌, ◌≤◌, length, take};
ghost use Rattle.book.specs.Rows.{Sorted};
ghost use Rattle.rows.specs.Model.{row_of, aggregates_of};
ghost use Rattle.segs.specs.Model.{segs_of};
ghost use Rattle.queue.specs.Placed.{Placed};
ghost use Rattle.words.specs.Items.{items_of};
ghost use Rattle.words.specs.Tables.{rows_in};

use crate::items::as_items_mut;
use plans::stages::Stage;
use queue::lent::{self, Counts};
use rows::row::Row;
use segs::segment::SegmentWords;

// What `queue::lent::place` does.
pub fn place(
    front: &mut [u64],
    buffer: &mut [u64],
    counts: Counts,
    segments: &[SegmentWords],
    row: Row,
    stages: &[Stage],
) -> Counts
    requires front { 4 * counts.front + 4 ≤ length front.old }
    requires buffer { 4 * counts.buffer + 4 ≤ length buffer.old }
    requires sorted { Sorted (rows_in counts.front front.old) × Sorted (rows_in counts.buffer buffer.old) }
    ensures placed { Placed (aggregates_of stages.now) (row_of row) (segs_of segments.now) (take counts.front (items_of 4 front.old)) (take counts.buffer (items_of 4 buffer.old)) (take result.front (items_of 4 front.new)) (take result.buffer (items_of 4 buffer.new)) }
    ensures sorted { Sorted (rows_in result.front front.new) × Sorted (rows_in result.buffer buffer.new) }
    ensures few { result.front + result.buffer ≤ counts.front + counts.buffer + 1 }
    ensures front { result.front ≤ counts.front + 1 }
    ensures buffer { result.buffer ≤ counts.buffer + 1 }
{
    let (front, _) = as_items_mut(front);
    let (buffer, _) = as_items_mut(buffer);
    lent::place(front, buffer, counts, segments, row, stages)
}
