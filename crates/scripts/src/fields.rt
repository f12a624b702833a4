// The numbers of a command, one after the other, and its end.
ghost use Rattle.std.specs.Prelude.{◌≡◌};
ghost use Rattle.grammar.specs.Reading.{skip as skipped, is_end};
ghost use Rattle.scripts.specs.Lines.{field_at};
ghost use Rattle.scripts.specs.Says.{read_of};

use crate::commands::{Complaint, Field};
use tokens::{number, skip};

// The number that stands here behind white space, and what is behind it.
#[tactic(auto, unfolding(crate::specs::Lines::field_at))]
pub(crate) fn field(line: &[u8], which: Field) -> Result<(u64, &[u8]), Complaint>
    ensures { read_of result ≡ field_at which line.now }
{
    number(line).map_err(|_| Complaint::NoNumber(which))
}

// Whether nothing but white space is left.
#[tactic(auto, unfolding(grammar::specs::Reading::is_end))]
pub(crate) fn ends(line: &[u8]) -> bool
    ensures { result ≡ is_end (skipped line.now) }
{
    skip(line).is_empty()
}
