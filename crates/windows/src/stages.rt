// Events through the stages of a plan: what comes out.
ghost use Rattle.std.specs.Prelude.{◌≡◌, ◌<◌, ◌≤◌, true, map, length};
ghost use Rattle.streams.specs.Meaning.{as_events, through_stages};
ghost use Rattle.streams.specs.Order.{Sorted};
ghost use Rattle.streams.specs.Calls.{every, stage_ok};
ghost use Rattle.plans.specs.Model.{as_event, as_sum, stage_of, plan_of};
ghost use Rattle.windows.specs.declared.stages.Fault.TheVariants.{Memory};
ghost use Rattle.windows.specs.Model.{cell_of, logs_of};
ghost use Rattle.windows.specs.Table.{cells_of, event_of as event_of_cell, Passed};
ghost use Rattle.windows.specs.Results.{events as events_in, Absorbed, Gives, Through, Gathered, Outcome};

use crate::cells::{Cells, Slot, add, holds, is_before};
use crate::logs::{append_in_time, watermark};
use plans::entries::{Entry, Event};
use plans::numbers::{Key, Span, Time, Value};
use plans::stages::{Aggregate, Plan, Stage};
use std::alloc::{AllocError, AllocFailed, Global};
use streams::has_ended;

// Why nothing is worked out.
#[derive(Clone, Copy, PartialEq, Eq, Debug)]
pub enum Fault {
    // the plan is beyond its limits
    BadPlan,
    // there is not memory enough
    Memory,
}

impl From<AllocError> for Fault {
    ghost from_gives = { λ _ r. r ≡ Memory };

    fn from(_e: AllocError) -> Fault {
        Fault::Memory
    }
}

impl<T: Drop> From<AllocFailed<T>> for Fault {
    ghost from_gives = { λ _ r. r ≡ Memory };

    fn from(_e: AllocFailed<T>) -> Fault {
        Fault::Memory
    }
}

// One event into the cells of a stage, if it is kept and its window has ended.
// The event is borrowed: one handed over by value is copied in other parts than `eval` reads, and each read waits for them.
fn absorb(cells: &mut Cells, stage: &Stage, mark: Time, event: &Event) -> Result<(), Fault>
    requires { 0 < stage.now.size.0 }
    ensures { Absorbed (stage_of stage.now) mark.0 (as_event event.now) (cells_of (as_sum stage.now.aggregate) cells.old) (cells_of (as_sum stage.now.aggregate) cells.new) result }
{
    if stage.keep.eval(*event) == 0 {
        return Ok(());
    }
    match stage.window_end(event.time) {
        Some(end) if has_ended(end.0, mark.0) => {
            let key = Key(stage.key.eval(*event));
            let value = Value(stage.value.eval(*event));
            Ok(add(cells, stage.aggregate, Slot { end, key }, value)?)
        }
        _ => Ok(()),
    }
}

// What comes of events by one stage: an event for each cell whose window has ended, with the time just before its end.
fn through(heap: Global, stage: &Stage, mark: Time, events: &[Event]) -> Result<Vec<Event>, Fault>
    requires { 0 < stage.now.size.0 }
    ensures { Through (stage_of stage.now) mark.0 (map as_event events.now) result }
{
    let mut cells = Cells::new(heap);
    for event in events {
        absorb(&mut cells, stage, mark, event)?;
    }
    events_of(heap, stage.aggregate, &cells)
}

fn event_of(cell: (Slot, Value)) -> Event
    ensures { as_event result ≡ event_of_cell (cell_of cell) }
{
    let (slot, value) = cell;
    Event {
        time: Time(slot.end.0.saturating_sub(1)),
        key: slot.key,
        value,
    }
}

// Appends the events of the run's cells from a place on that stand before a slot, and says how far that is.
fn pass(
    events: &mut Vec<Event>,
    run: &[(Slot, Value)],
    from: usize,
    slot: Slot,
) -> Result<usize, AllocError>
    requires within { from ≤ length run.now }
    requires sorted { Sorted (map cell_of run.now) }
    ensures { Passed slot.end.0 slot.key.0 run.now from (map as_event events.old.items) (map as_event events.new.items) result }
{
    let mut at = from;
    while at < run.len() && is_before(&run[at], slot) {
        events.push(event_of(run[at]))?;
        at += 1;
    }
    Ok(at)
}

// The events of cells: those of the run and of the strays, which may share slots, by rising slots.
fn events_of(heap: Global, how: Aggregate, cells: &Cells) -> Result<Vec<Event>, Fault>
    ensures { Gives (as_events (cells_of (as_sum how) cells.now)) result }
{
    let run = cells.run.as_slice();
    let mut events = Vec::new(heap);
    let mut at = 0;
    for (slot, value) in cells.strays.iter() {
        at = pass(&mut events, run, at, *slot)?;
        if holds(run, at, *slot) {
            let both = how.together(*value, run[at].1);
            events.push(event_of((*slot, both)))?;
            at += 1;
        } else {
            events.push(event_of((*slot, *value)))?;
        }
    }
    for cell in &run[at..] {
        events.push(event_of(*cell))?;
    }
    Ok(events)
}

fn gather(heap: Global, late: Span, logs: &[Vec<Entry>]) -> Result<Vec<Event>, Fault>
    ensures { Gathered late.0 (logs_of logs.now) result }
{
    let mut events = Vec::new(heap);
    for log in logs {
        append_in_time(&mut events, late, log)?;
    }
    Ok(events)
}

// What comes out of the logs by a plan.
pub fn outcome(heap: Global, plan: &Plan, logs: &[Vec<Entry>]) -> Result<Vec<Event>, Fault>
    ensures { Outcome (plan_of plan.now) (logs_of logs.now) result }
{
    if !plan.valid() {
        return Err(Fault::BadPlan);
    }
    let mark = watermark(plan.late, logs);
    let events = gather(heap, plan.late, logs)?;
    through_all(heap, &plan.stages, mark, events)
}

// What comes of events by stages, one after the other.
fn through_all(
    heap: Global,
    stages: &[Stage],
    mark: Time,
    events: Vec<Event>,
) -> Result<Vec<Event>, Fault>
    requires { every stage_ok (map stage_of stages.now) ≡ true }
    ensures { Gives (through_stages (map stage_of stages.now) mark.0 (events_in events)) result }
{
    let mut so_far = events;
    for stage in stages {
        so_far = through(heap, stage, mark, &so_far)?;
    }
    Ok(so_far)
}
