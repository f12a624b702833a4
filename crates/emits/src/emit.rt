// Rows that have ended leave the front, in order.
ghost use Rattle.std.specs.Prelude.{◌≡◌, ◌+◌, ◌^◌, ◌<◌, ◌≤◌, ◌++◌, length, map};
ghost use Rattle.book.specs.Flow.{onward};
ghost use Rattle.book.specs.Due.{emit as emitted, go_on as went_on};
ghost use Rattle.book.specs.Small.{StagesFit};
ghost use Rattle.plans.specs.Model.{events_of, stage_of};
ghost use Rattle.rows.specs.Model.{row_of, rows_of, aggregates_of};
ghost use Rattle.queue.specs.Model.{queue_of, SameRoom};
ghost use Rattle.emits.specs.Model.{IsEnded};

use plans::entries::EventWords;
use plans::numbers::Time;
use plans::stages::Stage;
use queue::Queue;
use rows::flow::{Onward, pass_on};
use rows::row::{Row, RowWords};
use tables::Table;

// The first row, if it has ended.
fn first_ended(rows: &[RowWords], mark: Time) -> Option<Row>
    ensures { IsEnded mark.0 (rows_of rows.now) result }
{
    let row = Row::from(*rows.first()?);
    (row.at.end <= mark).then_some(row)
}

// A row that has ended goes on: to the next stage, or out, behind what came out before.
fn go_on(queue: &mut Queue<'_>, row: Row, tail: &mut Table<'_, EventWords>, stages: &[Stage])
    requires stages { StagesFit (map stage_of stages.now) }
    requires ended { row.at.end.0 < 2 ^ 62 }
    requires front { length queue.old.front.items < queue.old.front.room }
    requires buffer { length queue.old.buffer.items < queue.old.buffer.room }
    requires tail { length tail.old.items < tail.old.room }
    ensures queue { queue_of queue.new ≡ (went_on (aggregates_of stages.now) (onward (map stage_of stages.now) (row_of row)) (queue_of queue.old)).queue }
    ensures outs { events_of tail.new.items ≡ events_of tail.old.items ++ (went_on (aggregates_of stages.now) (onward (map stage_of stages.now) (row_of row)) (queue_of queue.old)).outs }
    ensures front { length queue.new.front.items ≤ length queue.old.front.items + 1 }
    ensures buffer { length queue.new.buffer.items ≤ length queue.old.buffer.items + 1 }
    ensures few { length tail.new.items ≤ length tail.old.items + 1 }
    ensures segments { queue.new.segments ≡ queue.old.segments }
    ensures room { SameRoom queue.old queue.new × (tail.new.room ≡ tail.old.room) }
{
    match pass_on(stages, row) {
        Onward::Out(event) => {
            let count = tail.as_slice().len();
            tail.insert_from_slice(count, &[event.into()]);
        }
        Onward::On(row) => queue.place(row, stages),
        Onward::Gone => {}
    }
}

// Rows that have ended go on, the first first, at most so many.
pub fn emit(
    queue: &mut Queue<'_>,
    mark: Time,
    most: usize,
    tail: &mut Table<'_, EventWords>,
    stages: &[Stage],
)
    requires stages { StagesFit (map stage_of stages.now) }
    requires mark { mark.0 < 2 ^ 62 }
    requires buffer { length queue.old.buffer.items + most ≤ queue.old.buffer.room }
    requires tail { length tail.old.items + most ≤ tail.old.room }
    ensures queue { queue_of queue.new ≡ (emitted (map stage_of stages.now) mark.0 most (queue_of queue.old)).queue }
    ensures outs { events_of tail.new.items ≡ events_of tail.old.items ++ (emitted (map stage_of stages.now) mark.0 most (queue_of queue.old)).outs }
    ensures front { length queue.new.front.items ≤ length queue.old.front.items }
    ensures buffer { length queue.new.buffer.items ≤ length queue.old.buffer.items + most }
    ensures few { length tail.new.items ≤ length tail.old.items + most }
    ensures segments { queue.new.segments ≡ queue.old.segments }
    ensures room { SameRoom queue.old queue.new × (tail.new.room ≡ tail.old.room) }
{
    for _ in 0..most {
        let Some(row) = first_ended(queue.front.as_slice(), mark) else {
            return;
        };
        queue.front.remove_range(0..1);
        go_on(queue, row, tail, stages);
    }
}
