// Writing lines into a lent slice.
ghost use Rattle.frames.specs.Lines.{Written, CallsAgain, RepliesAgain};

use crate::LONGEST;
use octets::{write_bytes, write_number};
use plans::numbers::CallNumber;

// Writes a line at the front of `out`, and says of how many bytes. Where it has no room, or would be too long,
// nothing is written.
pub fn write(number: CallNumber, body: &[u8], out: &mut [u8]) -> Option<usize>
    ensures { Written number.0 body.now out.old out.new result }
{
    let length = u32::try_from(8 + body.len()).ok()?;
    if length > LONGEST || out.len() < 12 + body.len() {
        return None;
    }
    let at = write_number(out, 0, length);
    let at = write_number(out, at, number.0);
    Some(write_bytes(out, at, body))
}

// Every call and every answer that is written on a line is read again, with what stands behind it.
pub fn read_again()
    ensures calls { CallsAgain }
    ensures replies { RepliesAgain }
{}
