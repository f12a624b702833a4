// Contents that were read become tables in memory that is lent, and tables are seen as contents again, with nothing copied.
// Contents may come from anywhere: all of them is looked at before anything is copied.
#![tactic(auto)]

pub mod ledger;
pub mod log;

// Why contents do not become tables.
#[derive(Clone, Copy, PartialEq, Eq, Debug)]
pub enum NotLoaded {
    // more than there is room for
    TooManyLogs,
    TooManyEvents,
    TooManyRows,
    TooManySegments,
    // rows of the front or of the buffer are not sorted
    Unsorted,
    // a log's latest time or an event's time is 2 to the 62 or above
    TooLate,
}
