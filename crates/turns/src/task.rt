// What a ledger says must be done next, and the page that must be shown for it.
ghost use Rattle.ledgers.specs.Model.{ledger_of};
ghost use Rattle.sizes.specs.Model.{sizes_of};
ghost use Rattle.turns.specs.Task.{IsWanted, Shows};

use crate::plates::Beyond;
use dues::{Step, due};
use ledgers::Ledger;
use marks::watermark;
use plans::numbers::Span;
use segs::segment::PageNumber;
use sizes::Sizes;

#[derive(Clone, Copy)]
pub enum Task {
    // a full out page leaves the ledger
    Publish,
    // a step on the queue
    Tidy(Step),
}

impl Task {
    // The row or index page that must be shown for it, if any.
    pub fn shows(&self) -> Option<PageNumber>
        ensures { Shows self.now result }
    {
        match self {
            Task::Publish => None,
            Task::Tidy(step) => step.shown(),
        }
    }
}

// What must be done next, if anything.
pub fn wanted(ledger: &Ledger<'_>, late: Span, sizes: &Sizes) -> Result<Option<Task>, Beyond>
    ensures { IsWanted (sizes_of sizes.now) late.0 (ledger_of ledger.now) result }
{
    if ledger.tail.as_slice().len() >= sizes.outs {
        return Ok(Some(Task::Publish));
    }
    let queue = &ledger.queue;
    if queue.segments.as_slice().is_empty() && queue.buffer.as_slice().len() > sizes.buffer {
        return Err(Beyond::Loose);
    }
    let mark = watermark(ledger.logs.as_slice(), late);
    let Some(step) = due(queue, mark, sizes) else {
        return Ok(None);
    };
    Ok(Some(Task::Tidy(step)))
}
