// Calls, answers and lines for programs in other languages: numbers, slices of bytes and structs of numbers cross.
// Built as a static library for tests and measurements. specs/Shown says what each struct shows.
#![tactic(auto)]

ghost use Rattle.std.specs.Prelude.{◌≡◌, ℕ, Ok, Option as Maybe, Result as Either};
ghost use Rattle.std.specs.Option.{ok_or, unwrap_or};
ghost use Rattle.calls.specs.declared.kinds.Call.{Call as C};
ghost use Rattle.calls.specs.declared.kinds.Refusal.{Refusal as Why};
ghost use Rattle.calls.specs.declared.kinds.Refusal.TheVariants.{Invalid};
ghost use Rattle.calls.specs.Form.{Reads};
ghost use Rattle.plans.specs.declared.entries.Event.{Event as E};
ghost use Rattle.replies.specs.declared.kinds.Reply.{Reply as Answer};
ghost use Rattle.replies.specs.Form.{Reads as ReadsReply};
ghost use Rattle.replies.specs.Listing.{events_in, Got};
ghost use Rattle.frames.specs.Lines.{seen, seen_of, Written};
ghost use Rattle.calls_c.specs.Shown.{shown_call, call_in, Sent, Named, shown_reply, answer_of, answer_in, Goes, SentReply, shown_event, traffic_of, shown_line};

use calls::coding::{decode, encode};
use calls::kinds::{Call, Kind, Refusal};
use frames::kinds::{Fault, Frame, Traffic};
use frames::reading::read;
use frames::writing::write;
use plans::entries::{Entry, Event};
use plans::numbers::{CallNumber, Key, LogNumber, Place, Time, Value};
use replies::events::Events;
use replies::kinds::{Kind as ReplyKind, Reply};

// A call by its kind, 1 to 4, with what that kind has and 0 for the rest; or kind 0 and the number of a refusal.
// Kinds are numbers here, since C has no enums of a known size.
#[repr(C)]
#[derive(Clone, Copy, Default)]
pub struct CallFields {
    pub kind: u8,
    pub refused: u8,
    pub log: u8,
    pub most: u16,
    // a time or a place
    pub at: u64,
    pub key: u64,
    pub value: u64,
}

// An answer by its kind, 0 to 3, with a refusal's number or how many events; or kind 255 for none.
#[repr(C)]
#[derive(Clone, Copy, Default)]
pub struct ReplyFields {
    pub kind: u8,
    pub refused: u8,
    pub events: usize,
}

#[repr(C)]
#[derive(Clone, Copy, Default)]
pub struct EventFields {
    pub found: u8,
    pub time: u64,
    pub key: u64,
    pub value: u64,
}

// A whole line, 0, with its number and how long its call or answer is; 1: not yet; 2: too long; 3: too short.
#[repr(C)]
#[derive(Clone, Copy, Default)]
pub struct LineFields {
    pub kind: u8,
    pub number: u64,
    pub size: usize,
}

impl From<Call> for CallFields {
    ghost from_gives = { λ call fields. fields ≡ shown_call (Ok call) };

    fn from(call: Call) -> CallFields {
        let kind = u8::from(call.kind());
        let none = CallFields::default();
        match call {
            Call::Put {
                log,
                entry: Entry::Happened(event),
            } => CallFields {
                kind,
                log: log.0,
                at: event.time.0,
                key: event.key.0,
                value: event.value.0,
                ..none
            },
            Call::Put {
                log,
                entry: Entry::Still(time),
            } => CallFields {
                kind,
                log: log.0,
                at: time.0,
                ..none
            },
            Call::Out { from, most } => CallFields {
                kind,
                most,
                at: from.0,
                ..none
            },
            Call::Drop { before } => CallFields {
                kind,
                at: before.0,
                ..none
            },
        }
    }
}

impl From<Result<Call, Refusal>> for CallFields {
    ghost from_gives = { λ call fields. fields ≡ shown_call call };

    fn from(call: Result<Call, Refusal>) -> CallFields {
        match call {
            Ok(call) => CallFields::from(call),
            Err(why) => CallFields {
                refused: u8::from(why),
                ..CallFields::default()
            },
        }
    }
}

impl TryFrom<&CallFields> for Call {
    type Error = Refusal;

    ghost try_from_gives = { λ fields r. r ≡ ok_or (call_in fields.now) Invalid };

    fn try_from(fields: &CallFields) -> Result<Call, Refusal> {
        Ok(match Kind::try_from(fields.kind)? {
            Kind::Put => Call::Put {
                log: LogNumber(fields.log),
                entry: Entry::Happened(Event {
                    time: Time(fields.at),
                    key: Key(fields.key),
                    value: Value(fields.value),
                }),
            },
            Kind::Still => Call::Put {
                log: LogNumber(fields.log),
                entry: Entry::Still(Time(fields.at)),
            },
            Kind::Out => Call::Out {
                from: Place(fields.at),
                most: fields.most,
            },
            Kind::Drop => Call::Drop {
                before: Place(fields.at),
            },
        })
    }
}

impl From<Option<Reply<'_>>> for ReplyFields {
    ghost from_gives = { λ reply fields. fields ≡ shown_reply reply };

    fn from(reply: Option<Reply<'_>>) -> ReplyFields {
        match reply {
            Some(Reply::Refused { refusal }) => ReplyFields {
                kind: u8::from(ReplyKind::Refused),
                refused: u8::from(refusal),
                ..ReplyFields::default()
            },
            Some(Reply::Yes) => ReplyFields {
                kind: u8::from(ReplyKind::Yes),
                ..ReplyFields::default()
            },
            Some(Reply::Out { events }) => ReplyFields {
                kind: u8::from(ReplyKind::Out),
                events: events.len(),
                ..ReplyFields::default()
            },
            Some(Reply::Full) => ReplyFields {
                kind: u8::from(ReplyKind::Full),
                ..ReplyFields::default()
            },
            None => ReplyFields {
                kind: 255,
                ..ReplyFields::default()
            },
        }
    }
}

impl From<Option<Event>> for EventFields {
    ghost from_gives = { λ event fields. fields ≡ shown_event event };

    fn from(event: Option<Event>) -> EventFields {
        match event {
            Some(event) => EventFields {
                found: 1,
                time: event.time.0,
                key: event.key.0,
                value: event.value.0,
            },
            None => EventFields::default(),
        }
    }
}

impl From<Result<Option<Frame<'_>>, Fault>> for LineFields {
    ghost from_gives = { λ line fields. fields ≡ shown_line (seen_of line) };

    fn from(line: Result<Option<Frame<'_>>, Fault>) -> LineFields {
        match line {
            Ok(Some(Frame { number, body, .. })) => LineFields {
                kind: 0,
                number: number.0,
                size: body.len(),
            },
            Ok(None) => LineFields {
                kind: 1,
                ..LineFields::default()
            },
            Err(Fault::TooLong) => LineFields {
                kind: 2,
                ..LineFields::default()
            },
            Err(Fault::TooShort) => LineFields {
                kind: 3,
                ..LineFields::default()
            },
        }
    }
}

#[unsafe(no_mangle)]
pub extern "C" fn calls_decode(bytes: &[u8]) -> CallFields
    ensures { (x : Either C Why) × Reads bytes.now x × (result ≡ shown_call x) }
{
    CallFields::from(decode(bytes))
}

// How many bytes were written, 0 where there is no such call or no room.
#[unsafe(no_mangle)]
pub extern "C" fn calls_encode(fields: &CallFields, out: &mut [u8]) -> usize
    ensures { (x : Maybe ℕ) × Sent (call_in fields.now) out.old out.new x × (result ≡ unwrap_or x 0) }
{
    let Ok(call) = Call::try_from(fields) else {
        return 0;
    };
    encode(call, out).unwrap_or(0)
}

// The number of the refusal that bytes get by themselves, where there are so many logs; 0 for none.
#[unsafe(no_mangle)]
pub extern "C" fn calls_refusal(bytes: &[u8], logs: u16) -> u8
    ensures { (x : Either C Why) × Reads bytes.now x × Named x logs result }
{
    match decode(bytes).and_then(|call| call.check(logs)) {
        Ok(()) => 0,
        Err(why) => u8::from(why),
    }
}

#[unsafe(no_mangle)]
pub extern "C" fn replies_decode(bytes: &[u8]) -> ReplyFields
    ensures { (x : Maybe Answer) × ReadsReply bytes.now x × (result ≡ shown_reply x) }
{
    ReplyFields::from(replies::coding::decode(bytes))
}

// The event at a place of an answer's events.
#[unsafe(no_mangle)]
pub extern "C" fn replies_event(events: &[u8], i: usize) -> EventFields
    ensures { (x : Maybe E) × Got (events_in events.now) i x × (result ≡ shown_event x) }
{
    EventFields::from(Events { bytes: events }.get(i))
}

fn reply_in<'a>(kind: u8, why: Option<Refusal>, events: &'a [u8]) -> Option<Reply<'a>>
    ensures { answer_of result ≡ answer_in kind why events.now }
{
    match ReplyKind::try_from(kind).ok()? {
        ReplyKind::Refused => Some(Reply::Refused { refusal: why? }),
        ReplyKind::Yes => Some(Reply::Yes),
        ReplyKind::Out => Some(Reply::Out {
            events: Events { bytes: events },
        }),
        ReplyKind::Full => Some(Reply::Full),
    }
}

// How many bytes were written, 0 where there is no such answer or no room.
#[unsafe(no_mangle)]
pub extern "C" fn replies_encode(kind: u8, refused: u8, events: &[u8], out: &mut [u8]) -> usize
    ensures { (q : Maybe Why) × Goes refused q × (x : Maybe ℕ) × SentReply (answer_in kind q events.now) out.old out.new x × (result ≡ unwrap_or x 0) }
{
    let why = Refusal::try_from(refused).ok();
    let Some(reply) = reply_in(kind, why, events) else {
        return 0;
    };
    replies::coding::encode(reply, out).unwrap_or(0)
}

// The line at the front of these bytes: with calls where `traffic` is 0, else with answers.
#[unsafe(no_mangle)]
pub extern "C" fn lines_read(traffic: u8, bytes: &[u8]) -> LineFields
    ensures { result ≡ shown_line (seen (traffic_of traffic) bytes.now) }
{
    let traffic = if traffic == 0 {
        Traffic::Calls
    } else {
        Traffic::Replies
    };
    LineFields::from(read(traffic, bytes))
}

// How many bytes were written, 0 where there is no room.
#[unsafe(no_mangle)]
pub extern "C" fn lines_write(number: u64, body: &[u8], out: &mut [u8]) -> usize
    ensures { (x : Maybe ℕ) × Written number body.now out.old out.new x × (result ≡ unwrap_or x 0) }
{
    write(CallNumber(number), body, out).unwrap_or(0)
}
