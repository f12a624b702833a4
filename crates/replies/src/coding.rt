// Answers to and from bytes.
ghost use Rattle.std.specs.Prelude.{◌≡◌, ◌∷◌};
ghost use Rattle.streams.specs.Calls.{Reply as Answer, Outs};
ghost use Rattle.replies.specs.Listing.{events_in};
ghost use Rattle.replies.specs.Form.{form, reply_of, Reads, Encodes};

use crate::events::{EVENT, Events};
use crate::kinds::{Kind, Reply};
use calls::kinds::Refusal;
use octets::{number_from, write_bytes, write_number};

fn refused_from(bytes: &[u8]) -> Option<Reply<'_>>
    ensures { Reads (0 ∷ bytes.now) result }
{
    let [number] = bytes else {
        return None;
    };
    let refusal = Refusal::try_from(*number).ok()?;
    Some(Reply::Refused { refusal })
}

fn out_from(bytes: &[u8]) -> Option<Reply<'_>>
    ensures { Reads (2 ∷ bytes.now) result }
{
    let (count, bytes) = number_from::<u16, 2>(bytes)?;
    let events = Events { bytes };
    (bytes.len() == EVENT * usize::from(count)).then_some(Reply::Out { events })
}

// The answer that has just these bytes.
pub fn decode(bytes: &[u8]) -> Option<Reply<'_>>
    ensures { Reads bytes.now result }
{
    let (kind, rest) = bytes.split_first()?;
    match Kind::try_from(*kind).ok()? {
        Kind::Refused => refused_from(rest),
        Kind::Yes => rest.is_empty().then_some(Reply::Yes),
        Kind::Out => out_from(rest),
        Kind::Full => rest.is_empty().then_some(Reply::Full),
    }
}

// Writes the bytes of an answer at the front of `out`, if they have room.
fn write_whole(bytes: &[u8], out: &mut [u8]) -> Option<usize>
    ensures { (a : Answer) → form a ≡ bytes.now → Encodes a out.old out.new result }
{
    if out.len() < bytes.len() {
        return None;
    }
    Some(write_bytes(out, 0, bytes))
}

fn write_out(bytes: &[u8], out: &mut [u8]) -> Option<usize>
    ensures { Encodes (Outs (events_in bytes.now)) out.old out.new result }
{
    let count = u16::try_from(bytes.len() / EVENT).ok()?;
    let events = &bytes[..EVENT * usize::from(count)];
    if out.len() < 3 + events.len() {
        return None;
    }
    out[0] = u8::from(Kind::Out);
    let at = write_number(out, 1, count);
    Some(write_bytes(out, at, events))
}

// Writes the answer's bytes at the front of `out`, and says how many. Where they have no room, or there are 2^16 events
// or more, nothing is written.
pub fn encode(reply: Reply<'_>, out: &mut [u8]) -> Option<usize>
    ensures { Encodes (reply_of reply.entry) out.old out.new result }
{
    match reply {
        Reply::Refused { refusal } => {
            write_whole(&[u8::from(Kind::Refused), u8::from(refusal)], out)
        }
        Reply::Yes => write_whole(&[u8::from(Kind::Yes)], out),
        Reply::Out { events } => write_out(events.bytes, out),
        Reply::Full => write_whole(&[u8::from(Kind::Full)], out),
    }
}
