// A segment: a part of the queue's keys, and the pages that hold its rows. By value, and as the six words that it is in
// memory. Words are made only of page numbers that, with one added, are words: the caller has proved it.
ghost use Rattle.std.specs.Prelude.{◌≡◌};
ghost use Rattle.book.specs.Words.{link_word, link_of};
ghost use Rattle.segs.specs.Model.{page_link, LinkFits, seg_of, seg_in, IsIn};

use plans::numbers::{Key, Time};
use rows::row::{RowKey, StageNumber};
use tables::Table;

// The number of a row page or an index page. Any number may be one: a type that left room for one more would ask more of
// callers.
#[derive(Clone, Copy, PartialEq, Eq, PartialOrd, Ord, Debug)]
pub struct PageNumber(pub u64);

// How deep index pages nest under a segment.
#[derive(Clone, Copy, PartialEq, Eq, PartialOrd, Ord, Debug)]
pub struct Level(pub u64);

#[derive(Clone, Copy, PartialEq, Eq, Debug)]
pub struct Segment {
    // no key of it is below
    pub low: RowKey,
    // the index page with its segments, if it has one
    pub index: Option<PageNumber>,
    // the first of its row pages, if it has any
    pub head: Option<PageNumber>,
    pub level: Level,
}

// A segment in memory and in a page: end, stage and key of its low, its index page, its first row page, its level.
pub type SegmentWords = [u64; 6];

pub type Segments<'a> = Table<'a, SegmentWords>;

// A page or none as a word: 0 for none, and one more than a page's number. No `From`, since `Option` is not this crate's.
pub fn link_to_word(link: Option<PageNumber>) -> u64
    requires { LinkFits link }
    ensures { result ≡ link_word (page_link link) }
{
    link.map_or(0, |number| number.0 + 1)
}

pub fn link_from_word(word: u64) -> Option<PageNumber>
    ensures { page_link result ≡ link_of word }
{
    word.checked_sub(1).map(PageNumber)
}

impl From<SegmentWords> for Segment {
    ghost from_gives = { IsIn };

    fn from(words: SegmentWords) -> Segment {
        let [end, stage, key, index, head, level] = words;
        let low = RowKey {
            end: Time(end),
            stage: StageNumber(stage),
            key: Key(key),
        };
        Segment {
            low,
            index: link_from_word(index),
            head: link_from_word(head),
            level: Level(level),
        }
    }
}

impl Segment {
    // No `From`, which would take any value: the words of a page's number need room for one more.
    pub fn to_words(self) -> SegmentWords
        requires index { LinkFits self.index }
        requires head { LinkFits self.head }
        ensures { seg_in result ≡ seg_of self }
    {
        [
            self.low.end.0,
            self.low.stage.0,
            self.low.key.0,
            link_to_word(self.index),
            link_to_word(self.head),
            self.level.0,
        ]
    }
}
