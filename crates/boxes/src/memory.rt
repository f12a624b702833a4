// Memory for one book, as a worker is lent it: for the ledger, and for the pages of a step.
ghost use Rattle.std.specs.Prelude.{◌≡◌};
ghost use Rattle.book.specs.Ledger.{empty_log};
ghost use Rattle.logs.specs.Model.{log_of};
ghost use Rattle.boxes.specs.Rooms.{LedgerRoom, PlatesRoom};

use ledgers::Ledger;
use logs::log_box::LogBox;
use logs::served::{Life, Serial, Served, WORKERS};
use marks::TakenWords;
use plans::entries::EventWords;
use plans::numbers::{EntryCount, EventCount, OutPage, Time};
use queue::Queue;
use rows::row::RowWords;
use rows::table::Rows;
use segs::segment::{PageNumber, SegmentWords};
use spills::pages::Pages;
use tables::Table;
use turns::plates::Plates;

// For a ledger, and as many segments as a book that grew by steps may need.
#[derive(Drop)]
pub struct LedgerMemory {
    logs: [TakenWords; 256],
    tail: [EventWords; 640],
    front: [RowWords; 1280],
    buffer: [RowWords; 1920],
    segments: [SegmentWords; 1000],
}

impl LedgerMemory {
    pub(crate) fn new() -> LedgerMemory {
        LedgerMemory {
            logs: [[0; 2]; 256],
            tail: [[0; 3]; 640],
            front: [[0; 4]; 1280],
            buffer: [[0; 4]; 1920],
            segments: [[0; 6]; 1000],
        }
    }

    // A ledger with nothing in it.
    pub fn ledger(&mut self) -> Ledger<'_>
        ensures { LedgerRoom result }
    {
        let LedgerMemory {
            logs,
            tail,
            front,
            buffer,
            segments,
        } = self;
        let queue = Queue {
            front: Rows::new(front, 0),
            buffer: Rows::new(buffer, 0),
            segments: Table::new(segments, 0),
            source: None,
            next: PageNumber(0),
        };
        Ledger {
            logs: Table::new(logs, 0),
            pages: OutPage(0),
            tail: Table::new(tail, 0),
            queue,
        }
    }
}

#[derive(Drop)]
pub struct PlatesMemory {
    out: [RowWords; 512],
    upper: [RowWords; 1024],
    index: [SegmentWords; 16],
    events: [EventWords; 512],
}

impl PlatesMemory {
    pub(crate) fn new() -> PlatesMemory {
        PlatesMemory {
            out: [[0; 4]; 512],
            upper: [[0; 4]; 1024],
            index: [[0; 6]; 16],
            events: [[0; 3]; 512],
        }
    }

    pub fn plates(&mut self) -> Plates<'_>
        ensures { PlatesRoom result }
    {
        let PlatesMemory {
            out,
            upper,
            index,
            events,
        } = self;
        let rows = Pages {
            out: Table::new(out, 0),
            upper: Rows::new(upper, 0),
        };
        Plates {
            rows,
            index: Table::new(index, 0),
            events: Table::new(events, 0),
        }
    }
}

#[derive(Drop)]
pub struct LogMemory {
    events: [EventWords; 512],
}

impl LogMemory {
    pub(crate) fn new() -> LogMemory {
        LogMemory {
            events: [[0; 3]; 512],
        }
    }

    // A log's box with nothing in it.
    pub fn log_box(&mut self) -> LogBox<'_>
        ensures empty { log_of result ≡ empty_log }
        ensures room { result.events.room ≡ 512 }
    {
        let LogMemory { events } = self;
        let nobody = Served {
            life: Life(0),
            serial: Serial(0),
        };
        LogBox {
            latest: Time(0),
            entries: EntryCount(0),
            base: EventCount(0),
            events: Table::new(events, 0),
            served: [nobody; WORKERS],
        }
    }
}
