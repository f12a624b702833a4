// The ledger's queue in memory that is lent: rows of the front, rows of the buffer, segments.
// Every definition that a contract cites is that of the crate `book`, by way of specs/Model. What is called here requires
// room of its caller, the code that lends the memory: it has proved it.
#![tactic(auto)]

ghost use Rattle.std.specs.Prelude.{◌≡◌, ◌+◌, ◌<◌, ◌≤◌, length};
ghost use Rattle.book.specs.Queue.{goes_up, place as placed};
ghost use Rattle.rows.specs.Model.{key_of, row_of, aggregates_of};
ghost use Rattle.segs.specs.Model.{segs_of};
ghost use Rattle.queue.specs.Model.{queue_of, SameRoom};

pub mod lent;

use plans::stages::Stage;
use rows::row::{Row, RowKey};
use rows::table::Rows;
use segs::segment::{PageNumber, Segment, SegmentWords, Segments};

#[derive(Drop)]
pub struct Queue<'a> {
    pub front: Rows<'a>,
    pub buffer: Rows<'a>,
    pub segments: Segments<'a>,
    // the row page whose rows are placed next
    pub source: Option<PageNumber>,
    // the number that the next page will have
    pub next: PageNumber,
}

// Is a key at the first segment's low or above.
pub fn is_up(segments: &[SegmentWords], key: RowKey) -> bool
    ensures { result ≡ goes_up (segs_of segments.now) (key_of key) }
{
    match segments {
        [] => false,
        [first, ..] => Segment::from(*first).low <= key,
    }
}

impl<'a> Queue<'a> {
    // A row into the front or the buffer.
    pub fn place(&mut self, row: Row, stages: &[Stage])
        requires front { length self.old.front.items < self.old.front.room }
        requires buffer { length self.old.buffer.items < self.old.buffer.room }
        ensures queue { queue_of self.new ≡ placed (aggregates_of stages.now) (row_of row) (queue_of self.old) }
        ensures few { length self.new.front.items + length self.new.buffer.items ≤ length self.old.front.items + length self.old.buffer.items + 1 }
        ensures front { length self.new.front.items ≤ length self.old.front.items + 1 }
        ensures buffer { length self.new.buffer.items ≤ length self.old.buffer.items + 1 }
        ensures segments { self.new.segments ≡ self.old.segments }
        ensures room { SameRoom self.old self.new }
    {
        if is_up(self.segments.as_slice(), row.at) {
            self.buffer.add(row, stages);
        } else {
            self.front.add(row, stages);
        }
    }
}
