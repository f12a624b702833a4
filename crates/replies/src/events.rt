// Events as they stand in an answer's bytes: 24 for each, its time, key and value, high byte first.
ghost use Rattle.std.specs.Prelude.{◌≡◌, length};
ghost use Rattle.replies.specs.Listing.{events_in, Got};

use calls::coding::event_from;
use plans::entries::Event;

// How many bytes an event has.
pub(crate) const EVENT: usize = 24;

// A part of some bytes, taken as events. What stands behind the last whole one counts for nothing.
#[derive(Clone, Copy)]
pub struct Events<'a> {
    pub bytes: &'a [u8],
}

impl<'a> Events<'a> {
    // How many there are.
    pub fn len(&self) -> usize
        ensures { result ≡ length (events_in self.now.bytes.now) }
    {
        self.bytes.len() / EVENT
    }

    // The one at a place, from 0 on.
    pub fn get(&self, i: usize) -> Option<Event>
        ensures { Got (events_in self.now.bytes.now) i result }
    {
        let (events, _) = self.bytes.as_chunks::<EVENT>();
        let (event, _) = event_from(events.get(i)?)?;
        Some(event)
    }
}
