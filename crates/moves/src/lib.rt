// Steps that move rows between the queue's front, its buffer and its first segment: lower, sift and open.
// What is called here requires room of its caller, the code that lends the memory: it has proved it.
#![tactic(auto)]

ghost use Rattle.std.specs.Prelude.{◌≡◌, ◌+◌, ◌-◌, ◌/◌, ◌<◌, ◌≤◌, length};
ghost use Rattle.book.specs.Queue.{RowPage, lower as lowered, sift as sifted, open' as opened};
ghost use Rattle.rows.specs.Model.{rows_of, aggregates_of};
ghost use Rattle.segs.specs.Model.{page_link, segs_of};
ghost use Rattle.queue.specs.Model.{queue_of, SameRoom};
ghost use Rattle.moves.specs.Model.{Cut};

use plans::stages::Stage;
use queue::Queue;
use rows::row::{Row, RowWords};
use rows::sorted::SortedRows;
use segs::segment::{Level, PageNumber, Segment, SegmentWords};

// The upper half of the front becomes a new first segment's, in the buffer. An empty front has none.
pub fn lower(queue: &mut Queue<'_>, stages: &[Stage])
    requires buffer { length queue.old.buffer.items + queue.old.front.room ≤ queue.old.buffer.room }
    requires segments { length queue.old.segments.items < queue.old.segments.room }
    ensures queue { queue_of queue.new ≡ (lowered (aggregates_of stages.now) (length queue.old.front.items / 2) (queue_of queue.old)).queue }
    ensures front { length queue.new.front.items ≡ length queue.old.front.items / 2 }
    ensures buffer { length queue.new.buffer.items + length queue.new.front.items ≤ length queue.old.buffer.items + length queue.old.front.items }
    ensures segments { length queue.new.segments.items ≤ length queue.old.segments.items + 1 }
    ensures room { SameRoom queue.old queue.new }
{
    let rows = queue.front.as_slice();
    let count = rows.len();
    let half = count / 2;
    let Some(first) = rows.get(half) else {
        return;
    };
    let segment = Segment {
        low: Row::from(*first).at,
        index: None,
        head: None,
        level: Level(0),
    };
    queue.buffer.merge(&rows[half..], stages);
    queue.front.remove_range(half..count);
    queue.segments.insert_from_slice(0, &[segment.to_words()]);
}

// The rows of the source's first page are placed one by one, and the page below it is the source.
pub fn sift(queue: &mut Queue<'_>, below: Option<PageNumber>, rows: &[RowWords], stages: &[Stage])
    requires front { length queue.old.front.items + length rows.now ≤ queue.old.front.room }
    requires buffer { length queue.old.buffer.items + length rows.now ≤ queue.old.buffer.room }
    ensures queue { queue_of queue.new ≡ (sifted (aggregates_of stages.now) (RowPage (page_link below) (rows_of rows.now)) (queue_of queue.old)).queue }
    ensures front { length queue.new.front.items ≤ length queue.old.front.items + length rows.now }
    ensures buffer { length queue.new.buffer.items ≤ length queue.old.buffer.items + length rows.now }
    ensures segments { queue.new.segments ≡ queue.old.segments }
    ensures room { SameRoom queue.old queue.new }
{
    queue.source = below;
    for words in rows {
        queue.place(Row::from(*words), stages);
    }
}

// How many rows are below the first of other segments: all if there is none.
fn count_below(rows: &SortedRows<'_>, segments: &[SegmentWords]) -> usize
    ensures { Cut (segs_of segments.now) rows.now result }
{
    match segments {
        [] => rows.as_slice().len(),
        [first, ..] => rows.find(Segment::from(*first).low).place,
    }
}

// The first segment, if there is one, comes to the front, its row pages as the source. As rows are sorted, those that are
// then below the first segment are the first of the buffer, and the others can stay.
pub fn open(queue: &mut Queue<'_>, stages: &[Stage])
    requires { length queue.old.front.items + length queue.old.buffer.items ≤ queue.old.front.room }
    ensures queue { queue_of queue.new ≡ (opened (aggregates_of stages.now) (queue_of queue.old)).queue }
    ensures front { length queue.new.front.items + length queue.new.buffer.items ≤ length queue.old.front.items + length queue.old.buffer.items }
    ensures buffer { length queue.new.buffer.items ≤ length queue.old.buffer.items }
    ensures segments { length queue.new.segments.items ≤ length queue.old.segments.items }
    ensures room { SameRoom queue.old queue.new }
{
    let [first, rest @ ..] = queue.segments.as_slice() else {
        return;
    };
    let head = Segment::from(*first).head;
    let rows = queue.buffer.as_sorted();
    let count = count_below(&rows, rest);
    queue.front.merge(&rows.as_slice()[..count], stages);
    queue.buffer.remove_range(0..count);
    queue.segments.remove_range(0..1);
    queue.source = head;
}
