// Calls to and from bytes. Reading is total: any bytes are a call that is built, or are refused.
ghost use Rattle.std.specs.Prelude.{◌≡◌, ◌+◌, ◌^◌, ◌<◌, ◌≤◌, ◌++◌, length, take, drop, MatchOption};
ghost use Rattle.calls.specs.declared.kinds.Kind.TheVariants.{Put, Still, Out};
ghost use Rattle.calls.specs.Form.{event_bytes, ReadsNumbers, Reads, ReadAgain, Begins, Encodes};

use crate::kinds::{Call, Kind, Refusal};
use octets::{number_from, write_bytes, write_number};
use plans::entries::{Entry, Event};
use plans::numbers::{Key, LogNumber, Place, Time, Value};

// The event at the front of some bytes, its time, key and value, and what stands behind it.
pub fn event_from(bytes: &[u8]) -> Option<(Event, &[u8])>
    ensures { MatchOption result (length bytes.now < 24) (λ p. bytes.now ≡ event_bytes p.0 ++ p.1.now) }
{
    // all three at once: one length is tested, and not three
    let (numbers, rest) = bytes.split_first_chunk::<24>()?;
    let (time, numbers) = number_from::<u64, 8>(numbers)?;
    let (key, numbers) = number_from::<u64, 8>(numbers)?;
    let (value, _) = number_from::<u64, 8>(numbers)?;
    let event = Event {
        time: Time(time),
        key: Key(key),
        value: Value(value),
    };
    Some((event, rest))
}

// Each of these reads the call whose numbers are just these bytes.
fn put_from(bytes: &[u8]) -> Option<Call>
    ensures { ReadsNumbers Put bytes.now result }
{
    let (log, rest) = bytes.split_first()?;
    let (event, rest) = event_from(rest)?;
    rest.is_empty().then_some(Call::Put {
        log: LogNumber(*log),
        entry: Entry::Happened(event),
    })
}

fn still_from(bytes: &[u8]) -> Option<Call>
    ensures { ReadsNumbers Still bytes.now result }
{
    let (log, rest) = bytes.split_first()?;
    let (time, rest) = number_from(rest)?;
    rest.is_empty().then_some(Call::Put {
        log: LogNumber(*log),
        entry: Entry::Still(Time(time)),
    })
}

fn out_from(bytes: &[u8]) -> Option<Call>
    ensures { ReadsNumbers Out bytes.now result }
{
    let (from, rest) = number_from(bytes)?;
    let (most, rest) = number_from(rest)?;
    rest.is_empty().then_some(Call::Out {
        from: Place(from),
        most,
    })
}

// The call that has just these bytes. Dropping is not built yet: what begins as such a call is refused unread.
pub fn decode(bytes: &[u8]) -> Result<Call, Refusal>
    ensures reads { Reads bytes.now result }
    ensures again { ReadAgain bytes.now result }
{
    let (kind, rest) = bytes.split_first().ok_or(Refusal::Invalid)?;
    let call = match Kind::try_from(*kind)? {
        Kind::Put => put_from(rest),
        Kind::Still => still_from(rest),
        Kind::Out => out_from(rest),
        Kind::Drop => return Err(Refusal::NotBuilt),
    };
    call.ok_or(Refusal::Invalid)
}

// Writes the byte of a kind at the front of `out`, and says where it ends. Where a call of that kind has no room,
// nothing is written.
fn write_kind(kind: Kind, out: &mut [u8]) -> Option<usize>
    ensures { Begins kind out.old out.new result }
{
    if out.len() < kind.size() {
        return None;
    }
    out[0] = u8::from(kind);
    Some(1)
}

// Writes an event over the bytes of `out` from `at` on, where it has room, and says where it ends.
fn write_event(out: &mut [u8], at: usize, event: Event) -> usize
    requires { at + 24 ≤ length out.old }
    ensures ends { result ≡ at + 24 }
    ensures wrote { take result out.new ≡ take at out.old ++ event_bytes event }
    ensures kept { drop result out.new ≡ drop result out.old }
    ensures fit { (event.time.0 < 2 ^ 64) × (event.key.0 < 2 ^ 64) × (event.value.0 < 2 ^ 64) }
{
    let at = write_number(out, at, event.time.0);
    let at = write_number(out, at, event.key.0);
    write_number(out, at, event.value.0)
}

// Writes the call's bytes at the front of `out`, and says how many. Where they have no room, nothing is written.
// Room is tested in each arm, for then it is tested against one number.
pub fn encode(call: Call, out: &mut [u8]) -> Option<usize>
    ensures { Encodes call out.old out.new result }
{
    match call {
        Call::Put {
            log,
            entry: Entry::Happened(event),
        } => {
            let at = write_kind(Kind::Put, out)?;
            let at = write_bytes(out, at, &[log.0]);
            Some(write_event(out, at, event))
        }
        Call::Put {
            log,
            entry: Entry::Still(time),
        } => {
            let at = write_kind(Kind::Still, out)?;
            let at = write_bytes(out, at, &[log.0]);
            Some(write_number(out, at, time.0))
        }
        Call::Out { from, most } => {
            let at = write_kind(Kind::Out, out)?;
            let at = write_number(out, at, from.0);
            Some(write_number(out, at, most))
        }
        Call::Drop { before } => {
            let at = write_kind(Kind::Drop, out)?;
            Some(write_number(out, at, before.0))
        }
    }
}
