// The step that is due, done on the queue, with the page that is shown for it.
ghost use Rattle.std.specs.Prelude.{◌≡◌, ◌+◌, ◌*◌, ◌≤◌, length};
ghost use Rattle.book.specs.Queue.{head_at};
ghost use Rattle.queue.specs.Model.{SameRoom};
ghost use Rattle.rows.specs.Model.{rows_of, aggregates_of};
ghost use Rattle.rows.specs.Segments.{IsRange};
ghost use Rattle.segs.specs.Model.{page_link, segs_of};
ghost use Rattle.spills.specs.Model.{SamePages};
ghost use Rattle.contents.specs.Model.{page_of};
ghost use Rattle.turns.specs.Turn.{Sifted, SortedPage, SpilledBy, UnpackedBy, as_shown};

use crate::moving::spill_into;
use crate::plates::{Beyond, Written};
use crate::segments::unpack_page;
use contents::page::PageView;
use dues::Fullest;
use moves::sift;
use plans::stages::Stage;
use queue::Queue;
use rows::sorted::SortedRows;
use spills::pages::{Pages, Shown};

// The rows of the source's first page are placed.
#[tactic(auto, using(crate::proofs::Shown::sift_index))]
pub(crate) fn sift_page(
    queue: &mut Queue<'_>,
    shown: Option<PageView<'_>>,
    size: usize,
    stages: &[Stage],
) -> Result<Written, Beyond>
    requires front { length queue.old.front.items + size ≤ queue.old.front.room }
    requires buffer { length queue.old.buffer.items + size ≤ queue.old.buffer.room }
    ensures sifted { Sifted (aggregates_of stages.now) size (as_shown shown.entry) queue.old queue.new result }
    ensures room { SameRoom queue.old queue.new }
{
    match shown {
        Some(PageView::Rows { below, rows }) if rows.len() <= size => {
            sift(queue, below, rows, stages);
            Ok(Written::Nothing)
        }
        Some(PageView::Rows { .. }) => Err(Beyond::Shown),
        Some(PageView::Index { .. }) | None => Ok(Written::Nothing),
    }
}

// The segments of the first segment's index page come back.
#[tactic(auto, using(crate::proofs::Shown::unpack_rows))]
pub(crate) fn unpack_shown(
    queue: &mut Queue<'_>,
    shown: Option<PageView<'_>>,
) -> Result<Written, Beyond>
    requires some { 1 ≤ length queue.old.segments.items }
    ensures unpacked { UnpackedBy (as_shown shown.entry) queue.old queue.new result }
    ensures room { SameRoom queue.old queue.new }
{
    match shown {
        Some(PageView::Index { segments }) => unpack_page(queue, segments),
        Some(PageView::Rows { .. }) | None => Ok(Written::Nothing),
    }
}

// A page's rows, if they are sorted and no more than a page should have.
fn sorted_page<'a>(page: PageView<'a>, size: usize) -> Result<Shown<'a>, Beyond>
    ensures { SortedPage size (page_of page.entry) result }
{
    let PageView::Rows { below, rows } = page else {
        return Err(Beyond::Shown);
    };
    if rows.len() > size {
        return Err(Beyond::Shown);
    }
    let rows = SortedRows::try_new(rows).ok_or(Beyond::Shown)?;
    Ok(Shown { below, rows })
}

// Rows of the buffer go into the pages of the segment that has most of them there.
pub(crate) fn spill_shown(
    queue: &mut Queue<'_>,
    fullest: &Fullest,
    shown: Option<PageView<'_>>,
    size: usize,
    pages: &mut Pages<'_>,
    stages: &[Stage],
) -> Result<Written, Beyond>
    requires range { IsRange fullest.now.range fullest.now.number (segs_of queue.old.segments.items) }
    requires head { page_link fullest.now.head ≡ head_at fullest.now.number (segs_of queue.old.segments.items) }
    requires size { 1 ≤ size }
    requires out { size ≤ pages.old.out.room }
    requires upper { 2 * size ≤ pages.old.upper.room }
    ensures spilled { SpilledBy (aggregates_of stages.now) size fullest.now.number (page_link fullest.now.head) (as_shown shown.entry) queue.old queue.new (rows_of pages.new.out.items) pages.new.upper.items result }
    ensures room { SameRoom queue.old queue.new × SamePages pages.old pages.new }
{
    if fullest.head.is_none() {
        let none = Shown {
            below: None,
            rows: SortedRows::new(&[]),
        };
        return spill_into(queue, fullest, &none, size, pages, stages);
    }
    let Some(page) = shown else {
        return Ok(Written::Nothing);
    };
    let page = sorted_page(page, size)?;
    spill_into(queue, fullest, &page, size, pages, stages)
}
