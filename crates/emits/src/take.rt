// Events of a log become rows of the first stage.
ghost use Rattle.std.specs.Prelude.{◌≡◌, ℕ, ◌+◌, ◌^◌, ◌<◌, ◌≤◌, length, map, All};
ghost use Rattle.book.specs.Due.{take' as taken};
ghost use Rattle.book.specs.Ledger.{has_room as room_for, take_events as all_taken};
ghost use Rattle.book.specs.Small.{StagesFit};
ghost use Rattle.plans.specs.Model.{as_event, events_of, stage_of};
ghost use Rattle.queue.specs.Model.{queue_of, SameRoom};
ghost use Rattle.sizes.specs.Model.{sizes_of};

use plans::entries::{Event, EventWords};
use plans::stages::Stage;
use queue::Queue;
use rows::flow::row_of;
use rows::row::StageNumber;
use sizes::Sizes;

// Is there room for one event more.
fn has_room(queue: &Queue<'_>, sizes: &Sizes) -> bool
    ensures { result ≡ room_for (sizes_of sizes.now) (queue_of queue.now) }
{
    queue.front.as_slice().len() <= sizes.front && queue.buffer.as_slice().len() <= sizes.buffer
}

// The row of an event, if the first stage keeps it.
fn take(queue: &mut Queue<'_>, event: Event, stages: &[Stage])
    requires stages { StagesFit (map stage_of stages.now) }
    requires time { event.time.0 < 2 ^ 62 }
    requires front { length queue.old.front.items < queue.old.front.room }
    requires buffer { length queue.old.buffer.items < queue.old.buffer.room }
    ensures queue { queue_of queue.new ≡ taken (map stage_of stages.now) (as_event event) (queue_of queue.old) }
    ensures front { length queue.new.front.items ≤ length queue.old.front.items + 1 }
    ensures buffer { length queue.new.buffer.items ≤ length queue.old.buffer.items + 1 }
    ensures segments { queue.new.segments ≡ queue.old.segments }
    ensures room { SameRoom queue.old queue.new }
{
    let [stage, ..] = stages else {
        return;
    };
    if let Some(row) = row_of(stage, StageNumber(0), event) {
        queue.place(row, stages);
    }
}

// Takes events as long as there is room, and says how many it took.
pub fn take_events(
    queue: &mut Queue<'_>,
    events: &[EventWords],
    stages: &[Stage],
    sizes: &Sizes,
) -> usize
    requires stages { StagesFit (map stage_of stages.now) }
    requires times { All (λ e. e.time < 2 ^ 62) (events_of events.now) }
    requires front { sizes.now.front < queue.old.front.room }
    requires buffer { sizes.now.buffer < queue.old.buffer.room }
    ensures took { (i : ℕ) → all_taken (sizes_of sizes.now) (map stage_of stages.now) (events_of events.now) i (queue_of queue.old) ≡ record { taken = i + result; queue = queue_of queue.new } }
    ensures few { result ≤ length events.now }
    ensures segments { queue.new.segments ≡ queue.old.segments }
    ensures room { SameRoom queue.old queue.new }
{
    for (count, words) in events.iter().enumerate() {
        if !has_room(queue, sizes) {
            return count;
        }
        take(queue, Event::from(*words), stages);
    }
    events.len()
}
