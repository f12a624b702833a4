// A spill in memory that is lent for one call, so that who lends it knows what it holds then.
// A second body of each step beside those of a queue, whose tables alone reach their memory.
ghost use Rattle.std.specs.Prelude.{◌≡◌, ℕ, suc, ◌+◌, ◌*◌, ◌<◌, ◌≤◌, length, take};
ghost use Rattle.streams.specs.Meaning.{top};
ghost use Rattle.book.specs.Rows.{Sorted};
ghost use Rattle.book.specs.Queue.{RowPage, spill_by};
ghost use Rattle.rows.specs.Model.{rows_of, aggregates_of};
ghost use Rattle.rows.specs.Segments.{IsRange};
ghost use Rattle.segs.specs.Model.{LinkFits, page_link, seg_of, segs_of};
ghost use Rattle.spills.specs.Model.{spilt_of, Few, HasUpper};
ghost use Rattle.spills.specs.Slots.{LinksSlots, SpillsSlots};

use crate::pages::{Shown, Spilt};
use plans::stages::Stage;
use rows::lent::{merge, take_share};
use rows::row::{Row, RowWords};
use rows::segments::KeyRange;
use segs::segment::{Level, PageNumber, Segment, SegmentWords};
use tables::{insert_from_slice, remove_range};

// What rows became, and how many there are in the first page's memory and in the second's.
#[derive(Clone, Copy)]
pub struct Joined {
    pub spilt: Spilt,
    pub out: usize,
    pub upper: usize,
}

// What `crate::pages::join_page` does: the rows at the front of `out`, as many as were moved, go into a segment's pages.
// `out` and `fits` say how many there are also where memory is full, of which `take` says nothing.
pub fn join_page(
    out: &mut [RowWords],
    moved: usize,
    upper: &mut [RowWords],
    shown: &Shown<'_>,
    segment: Segment,
    size: usize,
    stages: &[Stage],
) -> Joined
    requires size { 1 ≤ size }
    requires out { size ≤ length out.old }
    requires upper { 2 * size ≤ length upper.old }
    requires moved { moved ≤ size }
    requires shown { length shown.now.rows ≤ size }
    ensures is { (n : ℕ) → spilt_of n (seg_of segment) (rows_of (take result.out out.new)) (rows_of (take result.upper upper.new)) result.spilt ≡ spill_by (aggregates_of stages.now) size n (RowPage (page_link shown.now.below) shown.now.rows) (page_link segment.head) (seg_of segment) (rows_of (take moved out.old)) }
    ensures few { Few size (rows_of (take result.out out.new)) (rows_of (take result.upper upper.new)) result.spilt }
    ensures out { result.out ≤ size }
    ensures fits { result.upper ≤ length upper.new }
{
    if segment.head.is_none() {
        return Joined {
            spilt: Spilt::One { below: None },
            out: moved,
            upper: 0,
        };
    }
    let rows = shown.rows.as_slice();
    upper[..rows.len()].copy_from_slice(rows);
    let all = merge(upper, rows.len(), &out[..moved], stages);
    if all <= size {
        out[..all].copy_from_slice(&upper[..all]);
        return Joined {
            spilt: Spilt::One { below: shown.below },
            out: all,
            upper: all,
        };
    }
    if segment.index.is_none() && shown.below.is_none() {
        let half = all / 2;
        out[..half].copy_from_slice(&upper[..half]);
        return Joined {
            spilt: Spilt::Two,
            out: half,
            upper: remove_range(upper, all, 0..half),
        };
    }
    Joined {
        spilt: Spilt::One {
            below: segment.head,
        },
        out: moved,
        upper: all,
    }
}

// How many rows there are in the buffer and how many segments, and the number that the next page has.
#[derive(Clone, Copy)]
pub struct Counts {
    pub buffer: usize,
    pub segments: usize,
    pub next: PageNumber,
}

// What is left after a spill, and what the rows became.
#[derive(Clone, Copy)]
pub struct Spilled {
    pub counts: Counts,
    pub joined: Joined,
}

// The segment with its new first page, or the two segments that it became: how many segments there are then, and the next page's number.
fn link_pages(
    segments: &mut [SegmentWords],
    counts: Counts,
    i: usize,
    segment: Segment,
    spilt: Spilt,
    upper: &[RowWords],
) -> Counts
    requires within { i < counts.segments }
    requires room { counts.segments < length segments.old }
    requires next { suc (suc counts.next.0) < top }
    requires index { LinkFits segment.index }
    requires upper { HasUpper (rows_of upper.now) spilt }
    ensures links { LinksSlots i (seg_of segment) spilt (rows_of upper.now) counts.next.0 (take counts.segments segments.old) (take result.segments segments.new) result.next.0 }
    ensures few { result.segments ≤ counts.segments + 1 }
    ensures buffer { result.buffer ≡ counts.buffer }
{
    let head = Some(counts.next);
    let second = PageNumber(counts.next.0 + 1);
    match spilt {
        Spilt::One { .. } => {
            let whole = Segment { head, ..segment };
            segments[i] = whole.to_words();
            Counts {
                next: second,
                ..counts
            }
        }
        Spilt::Two => {
            let low = Segment {
                low: segment.low,
                index: None,
                head,
                level: Level(0),
            };
            let high = Segment {
                low: Row::from(upper[0]).at,
                head: Some(second),
                ..low
            };
            segments[i] = high.to_words();
            Counts {
                segments: insert_from_slice(segments, counts.segments, i, &[low.to_words()]),
                next: PageNumber(second.0 + 1),
                ..counts
            }
        }
    }
}

// What `crate::step::spill` does of a queue's buffer and segments.
pub fn spill(
    buffer: &mut [RowWords],
    segments: &mut [SegmentWords],
    counts: Counts,
    i: usize,
    range: KeyRange,
    shown: &Shown<'_>,
    size: usize,
    out: &mut [RowWords],
    upper: &mut [RowWords],
    stages: &[Stage],
) -> Spilled
    requires within { i < counts.segments }
    requires range { IsRange range i (segs_of (take counts.segments segments.old)) }
    requires buffer { counts.buffer ≤ length buffer.old }
    requires sorted { Sorted (rows_of (take counts.buffer buffer.old)) }
    requires segments { counts.segments < length segments.old }
    requires next { suc (suc counts.next.0) < top }
    requires size { 1 ≤ size }
    requires out { size ≤ length out.old }
    requires upper { 2 * size ≤ length upper.old }
    requires shown { length shown.now.rows ≤ size }
    ensures spills { SpillsSlots (aggregates_of stages.now) size i (RowPage (page_link shown.now.below) shown.now.rows) counts.next.0 (take counts.buffer buffer.old) (take counts.segments segments.old) result.counts.next.0 (take result.counts.buffer buffer.new) (take result.counts.segments segments.new) (rows_of (take result.joined.out out.new)) (rows_of (take result.joined.upper upper.new)) result.joined.spilt }
    ensures sorted { Sorted (rows_of (take result.counts.buffer buffer.new)) }
    ensures few { Few size (rows_of (take result.joined.out out.new)) (rows_of (take result.joined.upper upper.new)) result.joined.spilt }
    ensures out { result.joined.out ≤ size }
    ensures buffer { result.counts.buffer ≤ counts.buffer }
    ensures segments { result.counts.segments ≤ counts.segments + 1 }
{
    let segment = Segment::from(segments[..counts.segments][i]);
    let share = take_share(buffer, counts.buffer, range, size, out);
    let joined = join_page(out, share.moved, upper, shown, segment, size, stages);
    let left = Counts {
        buffer: share.left,
        ..counts
    };
    let counts = link_pages(
        segments,
        left,
        i,
        segment,
        joined.spilt,
        &upper[..joined.upper],
    );
    Spilled { counts, joined }
}
