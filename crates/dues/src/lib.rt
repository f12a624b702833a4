// What is due: the next step on a queue, with what whoever does it has to know.
#![tactic(auto)]

ghost use Rattle.std.specs.Prelude.{◌≡◌, ◌≤◌, ◌⊎◌, length};
ghost use Rattle.book.specs.Due.{due as due_of, due_front as front_due};
ghost use Rattle.segs.specs.Model.{segs_of};
ghost use Rattle.queue.specs.Model.{queue_of};
ghost use Rattle.sizes.specs.Model.{sizes_of};
ghost use Rattle.dues.specs.Model.{as_due, IsFullest, Carries, Shows};

use packs::crowded;
use plans::numbers::Time;
use queue::Queue;
use rows::row::{Row, RowKey};
use rows::segments::KeyRange;
use rows::sorted::SortedRows;
use segs::segment::{Level, PageNumber, Segment, SegmentWords};
use sizes::Sizes;

// The segment that has most of the buffer's rows: which one it is, its keys, and its first row page.
#[derive(Clone, Copy)]
pub struct Fullest {
    pub number: usize,
    pub range: KeyRange,
    pub head: Option<PageNumber>,
}

// The step that is due, with the level that is packed, the segment that is spilled into, or the page that is shown.
#[derive(Clone, Copy)]
pub enum Step {
    Pack(Level),
    Spill(Fullest),
    Lower,
    Sift(PageNumber),
    Emit,
    Unpack(PageNumber),
    Open,
}

impl Step {
    // The page that has to be shown for it, if any.
    pub fn shown(self) -> Option<PageNumber>
        ensures { Shows self result }
    {
        match self {
            Step::Spill(fullest) => fullest.head,
            Step::Sift(page) | Step::Unpack(page) => Some(page),
            Step::Pack(_) | Step::Lower | Step::Emit | Step::Open => None,
        }
    }
}

// The segment with most of the rows, the first of these; none of no segments. It goes from the last to the first, since a
// segment's keys end where the next one's begin.
fn find_fullest(segments: &[SegmentWords], rows: &SortedRows<'_>) -> Option<Fullest>
    ensures { IsFullest 0 (segs_of segments.now) rows.now result }
{
    let mut best: Option<Fullest> = None;
    let mut most = 0;
    let mut high: Option<RowKey> = None;
    for number in (0..segments.len()).rev() {
        let segment = Segment::from(segments[number]);
        let range = KeyRange {
            low: segment.low,
            high,
        };
        let part = rows.rows_within(range);
        let count = part.end - part.start;
        if count >= most {
            most = count;
            best = Some(Fullest {
                number,
                range,
                head: segment.head,
            });
        }
        high = Some(segment.low);
    }
    best
}

// Of a queue with no source: the first row of the front, if it has ended, is let go; of no rows, the first segment comes to
// the front.
fn due_front(queue: &Queue<'_>, mark: Time) -> Option<Step>
    ensures due { as_due result ≡ front_due mark.0 (queue_of queue.now).front (queue_of queue.now).segments }
    ensures carries { Carries (queue_of queue.now) result }
{
    if let [first, ..] = queue.front.as_slice() {
        return (Row::from(*first).at.end <= mark).then_some(Step::Emit);
    }
    let [first, ..] = queue.segments.as_slice() else {
        return None;
    };
    match Segment::from(*first).index {
        Some(page) => Some(Step::Unpack(page)),
        None => Some(Step::Open),
    }
}

// The step that is due, if any is.
pub fn due(queue: &Queue<'_>, mark: Time, sizes: &Sizes) -> Option<Step>
    requires { (1 ≤ length queue.now.segments.items) ⊎ (length queue.now.buffer.items ≤ sizes.now.buffer) }
    ensures due { as_due result ≡ due_of (sizes_of sizes.now) mark.0 (queue_of queue.now) }
    ensures carries { Carries (queue_of queue.now) result }
{
    let segments = queue.segments.as_slice();
    if let Some(level) = crowded(segments, sizes.segments) {
        return Some(Step::Pack(level));
    }
    let buffer = queue.buffer.as_sorted();
    if buffer.as_slice().len() > sizes.buffer {
        let fullest = find_fullest(segments, &buffer)?;
        return Some(Step::Spill(fullest));
    }
    if queue.front.as_slice().len() > sizes.front {
        return Some(Step::Lower);
    }
    match queue.source {
        Some(page) => Some(Step::Sift(page)),
        None => due_front(queue, mark),
    }
}
