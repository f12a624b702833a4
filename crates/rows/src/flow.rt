// Events and rows: the row of an event in a stage, and what becomes of a row whose window has ended.
// It requires windows of some size: the caller's plan is within its limits.
ghost use Rattle.std.specs.Prelude.{◌≡◌, ◌<◌, map};
ghost use Rattle.book.specs.Due.{Sized};
ghost use Rattle.book.specs.Flow.{as_event as ended_event, onward};
ghost use Rattle.plans.specs.Model.{as_event, stage_of};
ghost use Rattle.rows.specs.Model.{row_of};
ghost use Rattle.rows.specs.Flow.{Enters, Goes};

use crate::row::{Row, RowKey, StageNumber};
use plans::entries::Event;
use plans::numbers::{Key, Time, Value};
use plans::stages::Stage;

// What becomes of a row whose window has ended.
#[derive(Clone, Copy)]
pub enum Onward {
    // an event that comes out
    Out(Event),
    // a row of the next stage
    On(Row),
    // nothing: the next stage does not keep it, or its window there never ends
    Gone,
}

// The row of an event in a stage. None if the stage does not keep it, or if its window's end is beyond 64 bits: such a
// window never ends. The crate `windows` goes the same way to a cell: a tuple of what they share would be no plainer.
pub fn row_of(stage: &Stage, number: StageNumber, event: Event) -> Option<Row>
    requires { 0 < stage.now.size.0 }
    ensures { Enters (stage_of stage.now) number.0 (as_event event) result }
{
    if stage.keep.eval(event) == 0 {
        return None;
    }
    let end = stage.window_end(event.time)?;
    let at = RowKey {
        end,
        stage: number,
        key: Key(stage.key.eval(event)),
    };
    let value = Value(stage.value.eval(event));
    Some(Row {
        at,
        value: stage.aggregate.first(value),
    })
}

// The event of a row whose window has ended: its time is just before the end.
fn event_of(row: Row) -> Event
    ensures { as_event result ≡ ended_event (row_of row) }
{
    Event {
        time: Time(row.at.end.0.saturating_sub(1)),
        key: row.at.key,
        value: row.value,
    }
}

// What becomes of a row whose window has ended: an event out of the last stage, or a row of the next.
pub fn pass_on(stages: &[Stage], row: Row) -> Onward
    requires { Sized (map stage_of stages.now) }
    ensures { Goes (onward (map stage_of stages.now) (row_of row)) result }
{
    let event = event_of(row);
    let next = row.at.stage.0.saturating_add(1);
    let Some(stage) = stages.get(next as usize) else {
        return Onward::Out(event);
    };
    match row_of(stage, StageNumber(next), event) {
        Some(row) => Onward::On(row),
        None => Onward::Gone,
    }
}
