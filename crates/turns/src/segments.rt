// Steps that change the segments alone: a level packed into an index page, and an index page unpacked.
ghost use Rattle.std.specs.Prelude.{◌≡◌, ◌≤◌, length};
ghost use Rattle.book.specs.Due.{at_level};
ghost use Rattle.queue.specs.Model.{queue_of, SameRoom};
ghost use Rattle.segs.specs.Model.{segs_of};
ghost use Rattle.sizes.specs.Model.{sizes_of};
ghost use Rattle.turns.specs.Model.{FitLevels, HasRoom, Packed, Unpacked};

use crate::plates::{Beyond, Written};
use packs::{pack, unpack};
use queue::Queue;
use segs::segment::{Level, Segment, SegmentWords, Segments};
use sizes::Sizes;

// Is one more than each level a word.
fn levels_fit(segments: &[SegmentWords]) -> bool
    ensures { FitLevels (segs_of segments.now) result }
{
    segments
        .iter()
        .all(|[_, _, _, _, _, level]| *level < u64::MAX)
}

// The upper half of a level that is crowded becomes the next page.
pub(crate) fn pack_level(
    queue: &mut Queue<'_>,
    level: Level,
    sizes: &Sizes,
    page: &mut Segments<'_>,
) -> Result<Written, Beyond>
    requires room { sizes.now.segments ≤ page.old.room }
    requires most { 1 ≤ sizes.now.segments }
    requires some { 1 ≤ at_level level.0 (queue_of queue.old).segments }
    ensures packed { Packed (sizes_of sizes.now) level.0 queue.old queue.new page.new result }
    ensures room { SameRoom queue.old queue.new × (page.new.room ≡ page.old.room) }
{
    let number = queue.next;
    if number.0 == u64::MAX || !levels_fit(queue.segments.as_slice()) {
        return Err(Beyond::Numbers);
    }
    pack(queue, level, sizes.segments, page);
    Ok(Written::Index(number))
}

// Is there room for so many segments more.
pub(crate) fn check_segments(segments: &Segments<'_>, more: usize) -> Result<(), Beyond>
    ensures { HasRoom more segments.now result }
{
    if more > segments.room() - segments.as_slice().len() {
        return Err(Beyond::Segments);
    }
    Ok(())
}

// The segments of the first segment's index page come back.
pub(crate) fn unpack_page(queue: &mut Queue<'_>, page: &[SegmentWords]) -> Result<Written, Beyond>
    requires some { 1 ≤ length queue.old.segments.items }
    ensures unpacked { Unpacked (segs_of page.now) queue.old queue.new result }
    ensures room { SameRoom queue.old queue.new }
{
    check_segments(&queue.segments, page.len())?;
    unpack(queue, page);
    Ok(Written::Nothing)
}
