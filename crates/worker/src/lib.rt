// The worker, and what is promised of it. Each function's contract is a theorem about the definitions in specs/, and its body does
// nothing: a theorem that had no proof would be refused here. The theorems hold over any book that keeps the interface
// (proofs/Together); statements about all books are of Type 1, so that contracts cite them at a book: here a small one.
#![tactic(auto)]

ghost use Rattle.worker.specs.Small.{SmallBusyAtNine, SmallOneBook, SmallOneIsEnough, SmallWhole, SmallWithin};
ghost use Rattle.worker.specs.Table.{TurnsTable};

// Whatever is lost, late, doubled or out of order, what customers see is what one book-keeper would tell.
pub fn one_book()
    ensures { SmallOneBook }
{}

// Only a ninth call is handed back.
pub fn busy_at_nine()
    ensures { SmallBusyAtNine }
{}

// Any one worker that is there can answer all that waits at it.
pub fn one_is_enough()
    ensures { SmallOneIsEnough }
{}

// And within how many steps.
pub fn how_soon()
    ensures { SmallWithin }
{}

// All of it, and that all comes out.
pub fn whole()
    ensures { SmallWhole }
{}

// The worker's turns are those of a table that was worked out apart from it.
pub fn turns_run()
    ensures { TurnsTable }
{}
