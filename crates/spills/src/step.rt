// The step itself: a segment's share out of the buffer, its pages, and what becomes of the segment.
ghost use Rattle.std.specs.Prelude.{◌≡◌, suc, ◌+◌, ◌*◌, ◌<◌, ◌≤◌, length};
ghost use Rattle.streams.specs.Meaning.{top};
ghost use Rattle.book.specs.Queue.{RowPage};
ghost use Rattle.rows.specs.Model.{rows_of, aggregates_of};
ghost use Rattle.rows.specs.Segments.{IsRange};
ghost use Rattle.segs.specs.Model.{LinkFits, page_link, seg_of, segs_of};
ghost use Rattle.queue.specs.Model.{SameRoom};
ghost use Rattle.spills.specs.Model.{Few, HasUpper, SamePages};
ghost use Rattle.spills.specs.Step.{Links, Spills};

use crate::pages::{Pages, Shown, Spilt, join_page};
use plans::stages::Stage;
use queue::Queue;
use rows::row::Row;
use rows::segments::KeyRange;
use rows::table::Rows;
use segs::segment::{Level, PageNumber, Segment};

// The segment with its new first page, or the two segments that it became, and the number that the next page has then.
fn link_pages(queue: &mut Queue<'_>, i: usize, segment: Segment, spilt: Spilt, upper: &Rows<'_>)
    requires within { i < length queue.old.segments.items }
    requires room { length queue.old.segments.items < queue.old.segments.room }
    requires next { suc (suc queue.old.next.0) < top }
    requires index { LinkFits segment.index }
    requires upper { HasUpper upper.now.items spilt }
    ensures links { Links i (seg_of segment) spilt upper.now.items queue.old queue.new }
    ensures few { length queue.new.segments.items ≤ length queue.old.segments.items + 1 }
    ensures room { SameRoom queue.old queue.new }
{
    let head = Some(queue.next);
    match spilt {
        Spilt::One { .. } => {
            let whole = Segment { head, ..segment };
            queue.segments.set(i, whole.to_words());
            queue.next = PageNumber(queue.next.0 + 1);
        }
        Spilt::Two => {
            let second = PageNumber(queue.next.0 + 1);
            let low = Segment {
                low: segment.low,
                index: None,
                head,
                level: Level(0),
            };
            let high = Segment {
                low: Row::from(upper.as_slice()[0]).at,
                head: Some(second),
                ..low
            };
            queue.segments.set(i, high.to_words());
            queue.segments.insert_from_slice(i, &[low.to_words()]);
            queue.next = PageNumber(second.0 + 1);
        }
    }
}

// Rows of the buffer go into the pages of the i-th segment, whose keys are those of `range`, and whose first page, if it
// has one, was shown: at most as many as a page should have. The pages that it writes are in `pages` then.
pub fn spill(
    queue: &mut Queue<'_>,
    i: usize,
    range: KeyRange,
    shown: &Shown<'_>,
    size: usize,
    pages: &mut Pages<'_>,
    stages: &[Stage],
) -> Spilt
    requires within { i < length queue.old.segments.items }
    requires range { IsRange range i (segs_of queue.old.segments.items) }
    requires segments { length queue.old.segments.items < queue.old.segments.room }
    requires next { suc (suc queue.old.next.0) < top }
    requires size { 1 ≤ size }
    requires out { size ≤ pages.old.out.room }
    requires upper { 2 * size ≤ pages.old.upper.room }
    requires shown { length shown.now.rows ≤ size }
    ensures spills { Spills (aggregates_of stages.now) size i (RowPage (page_link shown.now.below) shown.now.rows) queue.old queue.new (rows_of pages.new.out.items) pages.new.upper.items result }
    ensures few { Few size (rows_of pages.new.out.items) pages.new.upper.items result }
    ensures buffer { length queue.new.buffer.items ≤ length queue.old.buffer.items }
    ensures segments { length queue.new.segments.items ≤ length queue.old.segments.items + 1 }
    ensures room { SameRoom queue.old queue.new × SamePages pages.old pages.new }
{
    let segment = Segment::from(queue.segments.as_slice()[i]);
    queue.buffer.take_share(range, size, &mut pages.out);
    let spilt = join_page(pages, shown, segment, size, stages);
    link_pages(queue, i, segment, spilt, &pages.upper);
    spilt
}
