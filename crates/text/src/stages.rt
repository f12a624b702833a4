// Reading the stages of a plan.
ghost use Rattle.std.specs.Prelude.{◌≡◌, [], option_map};
ghost use Rattle.grammar.specs.Reading.{part as part_of, window as window_of, aggregate as aggregate_of, stage as stage_read, stages as stages_of};
ghost use Rattle.plans.specs.Model.{as_sum, expr_of, stage_of};
ghost use Rattle.tokens.specs.Says.{Reads, Says};
ghost use Rattle.text.specs.Says.{SaysWhole, named_of, stages_in};

use formulas::reader::expression;
use grammar::refusals::Why;
use plans::exprs::Expr;
use plans::numbers::Span;
use plans::stages::{Aggregate, MOST_STAGES, Stage};
use std::alloc::Global;
use tokens::faults::{Stop, Unexpected};
use tokens::{limited, skip, split_word, strip_sign, strip_word};

// How deep brackets may stand in each other.
const DEEP: u8 = 64;

// The expression behind `word`, or what stands for it where the word is left out.
#[tactic(auto, unfolding(grammar::specs::Reading::part))]
fn part<'a>(
    heap: Global,
    b: &'a [u8],
    word: &[u8],
    left_out: Expr,
) -> Result<(Expr, &'a [u8]), Stop<'a>>
    ensures { Says expr_of (part_of word.now (expr_of left_out) b.now) result }
{
    let Some(rest) = strip_word(skip(b), word) else {
        return Ok((left_out, b));
    };
    let (formula, rest) = expression(heap, rest, DEEP)?;
    Ok((formula.expr, rest))
}

#[tactic(auto, unfolding(grammar::specs::Reading::window))]
fn window(b: &[u8]) -> Result<(u64, &[u8]), Unexpected>
    ensures { Reads (λ n. n) (window_of b.now) result }
{
    let place = skip(b);
    match strip_word(place, b"in") {
        Some(rest) => limited(rest, 1, Why::Size),
        None => Err(Unexpected(Why::Window, place)),
    }
}

#[tactic(auto, using(crate::proofs::Steps::aggregate_word))]
fn aggregate(b: &[u8]) -> Result<(Aggregate, &[u8]), Unexpected>
    ensures { Reads as_sum (aggregate_of b.now) result }
{
    let place = skip(b);
    let (word, rest) = split_word(place);
    match named(word) {
        Some(aggregate) => Ok((aggregate, rest)),
        None => Err(Unexpected(Why::Aggregate, place)),
    }
}

// No `TryFrom`: the words are the grammar's and `Aggregate` is of `plans`, which knows no grammar.
fn named(word: &[u8]) -> Option<Aggregate>
    ensures { option_map as_sum result ≡ named_of word.now }
{
    match word {
        b"count" => Some(Aggregate::Count),
        b"total" => Some(Aggregate::Total),
        b"least" => Some(Aggregate::Least),
        b"greatest" => Some(Aggregate::Greatest),
        _ => None,
    }
}

// The stage behind its semicolon.
#[tactic(auto, unfolding(grammar::specs::Reading::stage, grammar::specs::Reading::after))]
fn stage(heap: Global, b: &[u8]) -> Result<(Stage, &[u8]), Stop>
    ensures { Says stage_of (stage_read b.now) result }
{
    let (keep, rest) = part(heap, b, b"keep", Expr::Num(1))?;
    let (key, rest) = part(heap, rest, b"key", Expr::Key)?;
    let (value, rest) = part(heap, rest, b"value", Expr::Value)?;
    let (size, rest) = window(rest)?;
    let (aggregate, rest) = aggregate(rest)?;
    let stage = Stage {
        keep,
        key,
        value,
        size: Span(size),
        aggregate,
    };
    Ok((stage, rest))
}

// One stage after the other, to the end of the text.
pub(crate) fn stages(heap: Global, b: &[u8]) -> Result<Vec<Stage>, Stop>
    ensures { SaysWhole stages_in (stages_of 8 [] b.now) result }
{
    let mut all = Vec::new(heap);
    let mut place = skip(b);
    while let Some(rest) = strip_sign(place, b';') {
        if all.len() >= MOST_STAGES {
            return Err(Unexpected(Why::Stages, place).into());
        }
        let (next, rest) = stage(heap, rest)?;
        all.push(next)?;
        place = skip(rest);
    }
    if place.is_empty() && !all.is_empty() {
        Ok(all)
    } else {
        Err(Unexpected(Why::Semicolon, place).into())
    }
}
