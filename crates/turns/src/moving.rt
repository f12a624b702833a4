// Steps that move rows: into the pages of a segment, from a page, and between the front and the segments.
ghost use Rattle.std.specs.Prelude.{◌≡◌, ◌+◌, ◌-◌, ◌*◌, ◌/◌, ◌≤◌, length};
ghost use Rattle.book.specs.Queue.{RowPage};
ghost use Rattle.queue.specs.Model.{SameRoom};
ghost use Rattle.rows.specs.Model.{rows_of, aggregates_of};
ghost use Rattle.rows.specs.Segments.{IsRange};
ghost use Rattle.segs.specs.Model.{page_link, segs_of};
ghost use Rattle.spills.specs.Model.{SamePages};
ghost use Rattle.turns.specs.Model.{Lowered, Spilled};

use crate::plates::{Beyond, Written};
use crate::segments::check_segments;
use dues::Fullest;
use moves::lower;
use plans::stages::Stage;
use queue::Queue;
use spills::pages::{Pages, Shown};
use spills::step::spill;

// The upper half of the front becomes a new first segment's.
pub(crate) fn lower_front(queue: &mut Queue<'_>, stages: &[Stage]) -> Result<Written, Beyond>
    requires buffer { length queue.old.buffer.items + queue.old.front.room ≤ queue.old.buffer.room }
    ensures lowered { Lowered (aggregates_of stages.now) queue.old queue.new result }
    ensures room { SameRoom queue.old queue.new }
{
    check_segments(&queue.segments, 1)?;
    lower(queue, stages);
    Ok(Written::Nothing)
}

// Rows of the buffer go into the pages of the segment that has most of them there; its first page, if it has one, was shown.
pub(crate) fn spill_into(
    queue: &mut Queue<'_>,
    fullest: &Fullest,
    shown: &Shown<'_>,
    size: usize,
    pages: &mut Pages<'_>,
    stages: &[Stage],
) -> Result<Written, Beyond>
    requires range { IsRange fullest.now.range fullest.now.number (segs_of queue.old.segments.items) }
    requires size { 1 ≤ size }
    requires out { size ≤ pages.old.out.room }
    requires upper { 2 * size ≤ pages.old.upper.room }
    requires shown { length shown.now.rows ≤ size }
    ensures spilled { Spilled (aggregates_of stages.now) size fullest.now.number (RowPage (page_link shown.now.below) shown.now.rows) queue.old queue.new (rows_of pages.new.out.items) pages.new.upper.items result }
    ensures room { SameRoom queue.old queue.new × SamePages pages.old pages.new }
{
    check_segments(&queue.segments, 1)?;
    let first = queue.next;
    if first.0 >= u64::MAX - 1 {
        return Err(Beyond::Numbers);
    }
    let spilt = spill(
        queue,
        fullest.number,
        fullest.range,
        shown,
        size,
        pages,
        stages,
    );
    Ok(Written::Rows { first, spilt })
}
