// Segments at the front of memory that is lent for one call, packed and unpacked, so that who lends it knows what it holds then.
// A second body of each beside those of a queue, whose tables alone reach their memory.
ghost use Rattle.std.specs.Prelude.{◌≡◌, suc, ◌+◌, ◌<◌, ◌≤◌, length, take};
ghost use Rattle.streams.specs.Meaning.{top};
ghost use Rattle.book.specs.Due.{at_level};
ghost use Rattle.segs.specs.Model.{page_link, segs_of};
ghost use Rattle.packs.specs.Model.{LevelsFit};
ghost use Rattle.packs.specs.Slots.{PacksSlots, Unpacks};

use crate::count_levels;
use segs::segment::{Level, PageNumber, Segment, SegmentWords};
use tables::{insert_from_slice, remove_range};

// How many segments there are then, and how many the page has.
#[derive(Clone, Copy)]
pub struct Packed {
    pub segments: usize,
    pub page: usize,
}

// What `crate::pack` does of a queue's segments; the page with the number `next` is at the front of `page` then.
// `page` and `all` say how many there are also where memory is full, of which `take` says nothing.
pub fn pack(
    segments: &mut [SegmentWords],
    count: usize,
    next: PageNumber,
    level: Level,
    most: usize,
    page: &mut [SegmentWords],
) -> Packed
    requires whole { count ≤ length segments.old }
    requires room { most ≤ length page.old }
    requires most { 1 ≤ most }
    requires some { 1 ≤ at_level level.0 (segs_of (take count segments.old)) }
    requires next { suc next.0 < top }
    requires levels { LevelsFit (segs_of (take count segments.old)) }
    ensures packs { PacksSlots most level.0 next.0 (take count segments.old) (take result.segments segments.new) (take result.page page.new) }
    ensures page { result.page ≤ most }
    ensures all { result.segments + result.page ≡ count + 1 }
{
    let rows = &segments[..count];
    let counts = count_levels(rows, level);
    let start = counts.below + counts.at / 2;
    let many = (counts.at - counts.at / 2).min(most);
    let first = Segment::from(rows[start]);
    let whole = Segment {
        index: Some(next),
        head: None,
        level: Level(first.level.0 + 1),
        ..first
    };
    page[..many].copy_from_slice(&rows[start..start + many]);
    let left = remove_range(segments, count, start..start + many);
    Packed {
        segments: insert_from_slice(segments, left, start, &[whole.to_words()]),
        page: many,
    }
}

// How many segments there are then, and the page whose rows are placed next.
#[derive(Clone, Copy)]
pub struct Unpacked {
    pub segments: usize,
    pub source: Option<PageNumber>,
}

// What `crate::unpack` does of a queue's segments.
pub fn unpack(segments: &mut [SegmentWords], count: usize, page: &[SegmentWords]) -> Unpacked
    requires some { 1 ≤ count }
    requires room { count + length page.now ≤ length segments.old }
    ensures unpacks { Unpacks (take count segments.old) page.now (take result.segments segments.new) (page_link result.source) }
    ensures segments { result.segments + 1 ≡ count + length page.now }
{
    let first = Segment::from(segments[..count][0]);
    let left = remove_range(segments, count, 0..1);
    Unpacked {
        segments: insert_from_slice(segments, left, 0, page),
        source: first.head,
    }
}
