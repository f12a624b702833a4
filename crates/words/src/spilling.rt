// A spill of a buffer and segments that are held as words, as are the pages that it writes.
ghost use Rattle.std.specs.Prelude.{◌≡◌, ℕ, suc, ◌+◌, ◌*◌, ◌<◌, ◌≤◌, length, take};
ghost use Rattle.streams.specs.Meaning.{top};
ghost use Rattle.book.specs.Rows.{Sorted};
ghost use Rattle.book.specs.Queue.{RowPage, spill_by};
ghost use Rattle.rows.specs.Model.{aggregates_of};
ghost use Rattle.rows.specs.Segments.{IsRange};
ghost use Rattle.segs.specs.Model.{page_link, seg_of};
ghost use Rattle.spills.specs.Model.{spilt_of, Few};
ghost use Rattle.spills.specs.Slots.{SpillsSlots};
ghost use Rattle.words.specs.Items.{items_of};
ghost use Rattle.words.specs.Tables.{rows_in, segs_in};

use crate::items::as_items_mut;
use plans::stages::Stage;
use rows::segments::KeyRange;
use segs::segment::Segment;
use spills::lent::{self, Counts, Joined, Spilled};
use spills::pages::Shown;

// What `spills::lent::join_page` does.
pub fn join_page(
    out: &mut [u64],
    moved: usize,
    upper: &mut [u64],
    shown: &Shown<'_>,
    segment: Segment,
    size: usize,
    stages: &[Stage],
) -> Joined
    requires size { 1 ≤ size }
    requires out { 4 * size ≤ length out.old }
    requires upper { 8 * size ≤ length upper.old }
    requires moved { moved ≤ size }
    requires shown { length shown.now.rows ≤ size }
    ensures is { (n : ℕ) → spilt_of n (seg_of segment) (rows_in result.out out.new) (rows_in result.upper upper.new) result.spilt ≡ spill_by (aggregates_of stages.now) size n (RowPage (page_link shown.now.below) shown.now.rows) (page_link segment.head) (seg_of segment) (rows_in moved out.old) }
    ensures few { Few size (rows_in result.out out.new) (rows_in result.upper upper.new) result.spilt }
    ensures out { result.out ≤ size }
    ensures fits { 4 * result.upper ≤ length upper.new }
{
    let (out, _) = as_items_mut(out);
    let (upper, _) = as_items_mut(upper);
    lent::join_page(out, moved, upper, shown, segment, size, stages)
}

// What `spills::lent::spill` does.
pub fn spill(
    buffer: &mut [u64],
    segments: &mut [u64],
    counts: Counts,
    i: usize,
    range: KeyRange,
    shown: &Shown<'_>,
    size: usize,
    out: &mut [u64],
    upper: &mut [u64],
    stages: &[Stage],
) -> Spilled
    requires within { i < counts.segments }
    requires range { IsRange range i (segs_in counts.segments segments.old) }
    requires buffer { 4 * counts.buffer ≤ length buffer.old }
    requires sorted { Sorted (rows_in counts.buffer buffer.old) }
    requires segments { 6 * (counts.segments + 1) ≤ length segments.old }
    requires next { suc (suc counts.next.0) < top }
    requires size { 1 ≤ size }
    requires out { 4 * size ≤ length out.old }
    requires upper { 8 * size ≤ length upper.old }
    requires shown { length shown.now.rows ≤ size }
    ensures spills { SpillsSlots (aggregates_of stages.now) size i (RowPage (page_link shown.now.below) shown.now.rows) counts.next.0 (take counts.buffer (items_of 4 buffer.old)) (take counts.segments (items_of 6 segments.old)) result.counts.next.0 (take result.counts.buffer (items_of 4 buffer.new)) (take result.counts.segments (items_of 6 segments.new)) (rows_in result.joined.out out.new) (rows_in result.joined.upper upper.new) result.joined.spilt }
    ensures sorted { Sorted (rows_in result.counts.buffer buffer.new) }
    ensures few { Few size (rows_in result.joined.out out.new) (rows_in result.joined.upper upper.new) result.joined.spilt }
    ensures out { result.joined.out ≤ size }
    ensures buffer { result.counts.buffer ≤ counts.buffer }
    ensures segments { result.counts.segments ≤ counts.segments + 1 }
{
    let (buffer, _) = as_items_mut(buffer);
    let (segments, _) = as_items_mut(segments);
    let (out, _) = as_items_mut(out);
    let (upper, _) = as_items_mut(upper);
    lent::spill(
        buffer, segments, counts, i, range, shown, size, out, upper, stages,
    )
}
