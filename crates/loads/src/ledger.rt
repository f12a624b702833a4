// The ledger out of contents, and its contents.
ghost use Rattle.std.specs.Prelude.{◌≡◌};
ghost use Rattle.streams.specs.Calls.{every, small};
ghost use Rattle.marks.specs.Model.{taken_in, all_taken};
ghost use Rattle.contents.specs.Model.{ledger_of};
ghost use Rattle.ledgers.specs.Model.{ledger_of as table_of, SameRooms};
ghost use Rattle.loads.specs.Model.{LoadsRows, Checks, LoadsLedger};

use crate::NotLoaded;
use contents::ledger::{LedgerView, QueueView};
use ledgers::Ledger;
use marks::{Taken, TakenWords};
use rows::events::is_small;
use rows::row::RowWords;
use rows::sorted::SortedRows;
use rows::table::Rows;

fn has_small_time(words: &TakenWords) -> bool
    ensures { result ≡ small (taken_in words.now).latest }
{
    is_small(Taken::from(*words).latest)
}

// Are all latest times such as are put in.
fn all_small(logs: &[TakenWords]) -> bool
    ensures { result ≡ every (λ t. small t.latest) (all_taken logs.now) }
{
    logs.iter().all(has_small_time)
}

// These rows, if they are sorted and there is room for them.
fn sorted_rows<'a>(rows: &'a [RowWords], to: &Rows<'_>) -> Result<SortedRows<'a>, NotLoaded>
    ensures { LoadsRows rows.now to.now result }
{
    if rows.len() > to.room() {
        return Err(NotLoaded::TooManyRows);
    }
    SortedRows::try_new(rows).ok_or(NotLoaded::Unsorted)
}

// Is all of a ledger but its rows such as can be loaded.
fn check(view: &LedgerView<'_>, ledger: &Ledger<'_>) -> Result<(), NotLoaded>
    ensures { Checks view.now ledger.now result }
{
    if view.logs.len() > ledger.logs.room() {
        return Err(NotLoaded::TooManyLogs);
    }
    if view.tail.len() > ledger.tail.room() {
        return Err(NotLoaded::TooManyEvents);
    }
    if view.queue.segments.len() > ledger.queue.segments.room() {
        return Err(NotLoaded::TooManySegments);
    }
    if !all_small(view.logs) {
        return Err(NotLoaded::TooLate);
    }
    Ok(())
}

// The ledger becomes what was read.
pub fn load_ledger(view: &LedgerView<'_>, ledger: &mut Ledger<'_>) -> Result<(), NotLoaded>
    ensures ledger { LoadsLedger view.now ledger.old ledger.new result }
    ensures room { SameRooms ledger.old ledger.new }
{
    check(view, ledger)?;
    let front = sorted_rows(view.queue.front, &ledger.queue.front)?;
    let buffer = sorted_rows(view.queue.buffer, &ledger.queue.buffer)?;
    ledger.logs.assign(view.logs);
    ledger.pages = view.pages;
    ledger.tail.assign(view.tail);
    ledger.queue.front.assign(&front);
    ledger.queue.buffer.assign(&buffer);
    ledger.queue.segments.assign(view.queue.segments);
    ledger.queue.source = view.queue.source;
    ledger.queue.next = view.queue.next;
    Ok(())
}

// What the ledger holds, to be written.
pub fn ledger_view<'a>(ledger: &'a Ledger<'_>) -> LedgerView<'a>
    ensures ledger { ledger_of result ≡ table_of ledger.now }
    ensures source { result.queue.source ≡ ledger.now.queue.source }
{
    let queue = QueueView {
        source: ledger.queue.source,
        next: ledger.queue.next,
        front: ledger.queue.front.as_slice(),
        buffer: ledger.queue.buffer.as_slice(),
        segments: ledger.queue.segments.as_slice(),
    };
    LedgerView {
        pages: ledger.pages,
        logs: ledger.logs.as_slice(),
        tail: ledger.tail.as_slice(),
        queue,
    }
}
