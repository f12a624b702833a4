// The refusal that follows from a call itself and the number of logs.
ghost use Rattle.std.specs.Prelude.{◌≡◌};
ghost use Rattle.streams.specs.Calls.{entry_ok};
ghost use Rattle.plans.specs.Model.{entry_of};
ghost use Rattle.calls.specs.Refuse.{Refuses};

use crate::kinds::{Call, Refusal};
use plans::entries::Entry;
use plans::numbers::TIMES_END;

// So many events at most are asked for at once.
pub const MOST: u16 = 1024;

// An arm for each, no `entry.time()`: that was tried, and only an arm tells the proof that an event's numbers are words.
fn in_range(entry: Entry) -> bool
    ensures { result ≡ entry_ok (entry_of entry) }
{
    match entry {
        Entry::Happened(event) => event.time.0 < TIMES_END,
        Entry::Still(time) => time.0 < TIMES_END,
    }
}

impl Call {
    // Why it is refused whatever the logs hold: that it is not built before all, then by the lowest number.
    pub fn check(self, logs: u16) -> Result<(), Refusal>
        ensures { Refuses self logs result }
    {
        match self {
            Call::Put { entry, .. } if !in_range(entry) => Err(Refusal::Invalid),
            Call::Put { log, .. } if u16::from(log.0) >= logs => Err(Refusal::NoLog),
            Call::Out { most, .. } if most > MOST => Err(Refusal::Invalid),
            Call::Drop { .. } => Err(Refusal::NotBuilt),
            Call::Put { .. } | Call::Out { .. } => Ok(()),
        }
    }
}
