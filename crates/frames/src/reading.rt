// Reading lines off the front of a growing buffer.
ghost use Rattle.std.specs.Prelude.{◌≡◌};
ghost use Rattle.std.specs.Option.{option_transpose};
ghost use Rattle.frames.specs.Lines.{least as fewest, seen, seen_of, AnyCutting};

use crate::LONGEST;
use crate::kinds::{Fault, Frame, Traffic};
use calls::kinds::Kind as CallKind;
use octets::number_from;
use plans::numbers::CallNumber;
use replies::kinds::Kind as ReplyKind;

// The fewest bytes that a call or an answer of a kind has. Of kinds that are not built, or that there are not, only
// the kind must be there: they are refused as calls.
fn least(traffic: Traffic, kind: u8) -> usize
    ensures { result ≡ fewest traffic kind }
{
    match traffic {
        Traffic::Calls => match CallKind::try_from(kind) {
            Ok(CallKind::Drop) => 1,
            Ok(kind) => kind.size(),
            Err(_) => 1,
        },
        Traffic::Replies => match ReplyKind::try_from(kind) {
            Ok(kind) => kind.least(),
            Err(_) => 1,
        },
    }
}

// The line at the front of these bytes or why it is refused, as soon as that is known.
fn front(traffic: Traffic, bytes: &[u8]) -> Option<Result<Frame<'_>, Fault>>
    ensures { seen_of (option_transpose result) ≡ seen traffic bytes.now }
{
    let (length, rest) = number_from::<u32, 4>(bytes)?;
    if length > LONGEST {
        return Some(Err(Fault::TooLong));
    }
    // the number has eight bytes, and a call or an answer one at least
    if length < 9 {
        return Some(Err(Fault::TooShort));
    }
    let (number, rest) = number_from(rest)?;
    let size = (length - 8) as usize;
    if size < least(traffic, *rest.first()?) {
        return Some(Err(Fault::TooShort));
    }
    let (body, rest) = rest.split_at_checked(size)?;
    Some(Ok(Frame {
        number: CallNumber(number),
        body,
        rest,
    }))
}

// The line at the front of these bytes; none, where it goes on beyond what has come so far.
pub fn read(traffic: Traffic, bytes: &[u8]) -> Result<Option<Frame<'_>>, Fault>
    ensures { seen_of result ≡ seen traffic bytes.now }
{
    front(traffic, bytes).transpose()
}

// However a stream is cut into pieces, the same lines are read.
pub fn any_cutting()
    ensures { AnyCutting }
{}
