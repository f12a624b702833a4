// Where a step writes its pages, which of them it wrote, and why it is not done.

use plans::entries::EventWords;
use plans::numbers::OutPage;
use segs::segment::{PageNumber, Segments};
use spills::pages::{Pages, Spilt};
use tables::Table;

// Memory for the pages of one step: row pages, an index page, an out page.
#[derive(Drop)]
pub struct Plates<'a> {
    pub rows: Pages<'a>,
    pub index: Segments<'a>,
    pub events: Table<'a, EventWords>,
}

// The pages that a step wrote.
#[derive(Clone, Copy, PartialEq, Eq, Debug)]
pub enum Written {
    Nothing,
    Out(OutPage),
    Index(PageNumber),
    // one row page, or two that follow each other
    Rows { first: PageNumber, spilt: Spilt },
}

// Why a step is not done.
#[derive(Clone, Copy, PartialEq, Eq, Debug)]
pub enum Beyond {
    // the page that is shown is not of the step's kind, not sorted or too long
    Shown,
    // there is no room for so many segments
    Segments,
    // the number of a page, or a level, would be beyond 64 bits
    Numbers,
    // the buffer has too many rows, and there is no segment for them
    Loose,
}
