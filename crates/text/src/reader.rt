// Reading a plan.
ghost use Rattle.grammar.specs.Reading.{reading};
ghost use Rattle.plans.specs.Model.{plan_of};
ghost use Rattle.text.specs.Says.{SaysWhole, SaysPlan, Valid, ReadAgain};

use crate::stages::stages;
use grammar::refusals::{Refusal, Why};
use plans::numbers::Span;
use plans::stages::Plan;
use std::alloc::Global;
use tokens::faults::{Fault, Stop, Unexpected};
use tokens::{limited, skip, strip_word};

// How many bytes a text may have.
const LONGEST: usize = 65536;

// The plan that `text` is, or why and where it is none.
pub fn read(heap: Global, text: &[u8]) -> Result<Plan, Fault>
    ensures whole { SaysPlan (reading text.now) text.now result }
    ensures valid { Valid result }
    ensures again { ReadAgain text.now result }
{
    // No `From`: the offset needs the whole text.
    match plan(heap, text) {
        Ok(plan) => Ok(plan),
        Err(Fault::Memory) => Err(Fault::Memory),
        Err(Fault::Refused(Unexpected(why, rest))) => {
            let at = text.len() - rest.len();
            Err(Fault::Refused(Refusal { at, why }))
        }
    }
}

#[tactic(auto, unfolding(grammar::specs::Reading::reading, grammar::specs::Reading::plan, grammar::specs::Reading::after))]
fn plan(heap: Global, text: &[u8]) -> Result<Plan, Stop>
    ensures { SaysWhole plan_of (reading text.now) result }
{
    if text.len() > LONGEST {
        return Err(Unexpected(Why::Long, &text[LONGEST..]).into());
    }
    let place = skip(text);
    let rest = strip_word(place, b"late").ok_or(Unexpected(Why::Late, place))?;
    let (late, rest) = limited(rest, 0, Why::Lateness)?;
    let stages = stages(heap, rest)?;
    let late = Span(late);
    Ok(Plan { late, stages })
}
