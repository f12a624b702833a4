// Index pages: too many segments of one level become a page and one segment of the next level, and come back when that
// segment is the first.
// What is called here requires room of its caller, the code that lends the memory: it has proved it. Who has no front or
// buffer lends empty ones.
#![tactic(auto)]

ghost use Rattle.std.specs.Prelude.{◌≡◌, suc, ◌+◌, ◌<◌, ◌≤◌, length};
ghost use Rattle.streams.specs.Meaning.{top};
ghost use Rattle.book.specs.Queue.{IndexPage, unpack as unpacked};
ghost use Rattle.book.specs.Due.{at_level, below_level, crowd};
ghost use Rattle.queue.specs.Model.{queue_of, SameRoom};
ghost use Rattle.segs.specs.Model.{segs_of};
ghost use Rattle.packs.specs.Model.{crowd_of, LevelsFit, Packs};

pub mod lent;

use queue::Queue;
use segs::segment::{Level, PageNumber, Segment, SegmentWords, Segments};
use std::cmp::Ordering;

// How many segments there are below a level, and of it.
#[derive(Clone, Copy, PartialEq, Eq, Debug)]
pub struct Tally {
    pub below: usize,
    pub at: usize,
}

pub fn count_levels(segments: &[SegmentWords], level: Level) -> Tally
    ensures below { result.below ≡ below_level level.0 (segs_of segments.now) }
    ensures at { result.at ≡ at_level level.0 (segs_of segments.now) }
    ensures few { result.below + result.at ≤ length segments.now }
{
    let mut counts = Tally { below: 0, at: 0 };
    for words in segments {
        match Segment::from(*words).level.cmp(&level) {
            Ordering::Less => counts.below += 1,
            Ordering::Equal => counts.at += 1,
            Ordering::Greater => {}
        }
    }
    counts
}

// The first level with more segments than there should be.
pub fn crowded(segments: &[SegmentWords], most: usize) -> Option<Level>
    ensures { crowd_of result ≡ crowd most (segs_of segments.now) (segs_of segments.now) }
{
    for words in segments {
        let level = Segment::from(*words).level;
        if count_levels(segments, level).at > most {
            return Some(level);
        }
    }
    None
}

// The upper half of a level's segments becomes the index page with the next number, and one segment of the next level in
// their place. The page's segments are those of `page` then, and are never more than `most`.
pub fn pack(queue: &mut Queue<'_>, level: Level, most: usize, page: &mut Segments<'_>)
    requires room { most ≤ page.old.room }
    requires most { 1 ≤ most }
    requires some { 1 ≤ at_level level.0 (queue_of queue.old).segments }
    requires next { suc queue.old.next.0 < top }
    requires levels { LevelsFit (queue_of queue.old).segments }
    ensures packs { Packs most level.0 queue.old queue.new page.new }
    ensures room { SameRoom queue.old queue.new × (page.new.room ≡ page.old.room) }
{
    let segments = queue.segments.as_slice();
    let counts = count_levels(segments, level);
    let start = counts.below + counts.at / 2;
    let end = start + (counts.at - counts.at / 2).min(most);
    let first = Segment::from(segments[start]);
    let whole = Segment {
        index: Some(queue.next),
        head: None,
        level: Level(first.level.0 + 1),
        ..first
    };
    page.assign(&segments[start..end]);
    queue.segments.remove_range(start..end);
    queue.segments.insert_from_slice(start, &[whole.to_words()]);
    queue.next = PageNumber(queue.next.0 + 1);
}

// The first segment is an index page's: its segments come back in its place, and its own row pages are the source.
pub fn unpack(queue: &mut Queue<'_>, page: &[SegmentWords])
    requires some { 1 ≤ length queue.old.segments.items }
    requires room { length queue.old.segments.items + length page.now ≤ queue.old.segments.room }
    ensures queue { queue_of queue.new ≡ (unpacked (IndexPage (segs_of page.now)) (queue_of queue.old)).queue }
    ensures segments { length queue.new.segments.items + 1 ≡ length queue.old.segments.items + length page.now }
    ensures room { SameRoom queue.old queue.new }
{
    let first = Segment::from(queue.segments.as_slice()[0]);
    queue.segments.remove_range(0..1);
    queue.segments.insert_from_slice(0, page);
    queue.source = first.head;
}
