// The readers of expressions. Each takes what is left of a text, and gives what it read with what is behind it, or the
// reason of a refusal with what is left there. Heap, bytes and depth are no struct: the bytes are others at each call, so it would be
// made anew each time.
ghost use Rattle.grammar.specs.Reading.{after, closed, expression as expression_of, chained as chained_of, operand as operand_of, factor as factor_of, bracket as bracket_of, leaf as leaf_of};
ghost use Rattle.std.specs.Prelude.{◌≡◌, option_map};
ghost use Rattle.plans.specs.Model.{expr_of};
ghost use Rattle.tokens.specs.Says.{Reads, Says, EndsOrStops};
ghost use Rattle.formulas.specs.Says.{formula_of, field_of};

use crate::formula::Formula;
use crate::operators::operator;
use grammar::operators::Level;
use grammar::refusals::Why;
use plans::exprs::{Expr, MOST_PARTS};
use std::alloc::Global;
use tokens::faults::{Stop, Unexpected};
use tokens::{digits, is_digit, skip, split_word, strip_sign};

// The expression here, in which brackets stand at most `deep` deep in each other.
pub fn expression(heap: Global, b: &[u8], deep: u8) -> Result<(Formula, &[u8]), Stop>
    ensures reads { Says formula_of (expression_of deep b.now) result }
    ensures end { EndsOrStops b.now result }
{
    compared(heap, b, deep)
}

// A sum, or two with a comparison between them.
#[cycle(bracket_chain_compared_factor_operand)]
#[tactic(auto, using(crate::proofs::Chains::expressions), unfolding(grammar::specs::Reading::after, grammar::specs::Reading::single))]
fn compared(heap: Global, b: &[u8], deep: u8) -> Result<(Formula, &[u8]), Stop>
    ensures { Says formula_of (expression_of deep b.now) result }
{
    let (left, rest) = chain(heap, b, deep, Level::Sum)?;
    let sign = skip(rest);
    let Some((op, behind)) = operator(sign, None) else {
        return Ok((left, rest));
    };
    let (right, rest) = chain(heap, behind, deep, Level::Sum)?;
    let both = left.joined(heap, op, sign, right)?;
    let end = skip(rest);
    match operator(end, None) {
        None => Ok((both, rest)),
        Some(_) => Err(Unexpected(Why::Chained, end).into()),
    }
}

// Operands with operators of one level between them, from left to right.
#[cycle(bracket_chain_compared_factor_operand)]
#[tactic(auto, using(crate::proofs::Chains::chain_stop))]
fn chain(heap: Global, b: &[u8], deep: u8, level: Level) -> Result<(Formula, &[u8]), Stop>
    ensures { Says formula_of (chained_of level (bracket_of deep) b.now) result }
{
    let (mut left, mut rest) = operand(heap, b, deep, level)?;
    loop {
        let sign = skip(rest);
        let Some((op, behind)) = operator(sign, Some(level)) else {
            return Ok((left, rest));
        };
        let (right, end) = operand(heap, behind, deep, level)?;
        left = left.joined(heap, op, sign, right)?;
        rest = end;
    }
}

// The operands of a sum are products, those of a product are factors: each `!` before one is a part of it. A match and no closure:
// what falls from call to call shows that the readers end.
#[cycle(bracket_chain_compared_factor_operand)]
#[tactic(auto, unfolding(grammar::specs::Reading::operand, grammar::specs::Reading::chained, grammar::specs::Reading::chain))]
fn operand(heap: Global, b: &[u8], deep: u8, level: Level) -> Result<(Formula, &[u8]), Stop>
    ensures { Says formula_of (operand_of level (bracket_of deep) b.now) result }
{
    match level {
        Level::Sum => chain(heap, b, deep, Level::Product),
        Level::Product => factor(heap, b, deep, MOST_PARTS),
    }
}

// A factor, before which `nots` more `!` may stand.
#[cycle(bracket_chain_compared_factor_operand)]
#[tactic(auto, using(tokens::proofs::Hands::after_stop, crate::proofs::Chains::factors), unfolding(grammar::specs::Reading::after))]
fn factor(heap: Global, b: &[u8], deep: u8, nots: u8) -> Result<(Formula, &[u8]), Stop>
    ensures { Says formula_of (factor_of (bracket_of deep) nots b.now) result }
{
    let sign = skip(b);
    if let Some(behind) = strip_sign(sign, b'!') {
        let fewer = nots.checked_sub(1).ok_or(Unexpected(Why::Parts, sign))?;
        let (inner, rest) = factor(heap, behind, deep, fewer)?;
        return Ok((inner.negated(heap, sign)?, rest));
    }
    if let Some(inside) = strip_sign(sign, b'(') {
        let deeper = deep.checked_sub(1).ok_or(Unexpected(Why::Deep, sign))?;
        return bracket(heap, inside, deeper);
    }
    Ok(leaf(sign)?)
}

// What stands inside of a bracket, and the closing one.
#[cycle(bracket_chain_compared_factor_operand)]
#[tactic(auto, using(tokens::proofs::Hands::after_stop), unfolding(grammar::specs::Reading::after, grammar::specs::Reading::closed))]
fn bracket(heap: Global, b: &[u8], deep: u8) -> Result<(Formula, &[u8]), Stop>
    ensures { Says formula_of (after (expression_of deep b.now) closed) result }
{
    let (inner, rest) = compared(heap, b, deep)?;
    let close = skip(rest);
    match strip_sign(close, b')') {
        Some(behind) => Ok((inner, behind)),
        None => Err(Unexpected(Why::Close, close).into()),
    }
}

// A number, or one of the words that stand for something of an event.
#[tactic(auto, using(crate::proofs::Signs::leaf_word, crate::proofs::Signs::one_part), unfolding(grammar::specs::Reading::leaf, grammar::specs::Reading::after, streams::specs::Calls::parts))]
fn leaf(b: &[u8]) -> Result<(Formula, &[u8]), Unexpected>
    ensures { Reads formula_of (leaf_of b.now) result }
{
    if is_digit(b) {
        let (n, rest) = digits(b)?;
        let expr = Expr::Num(n);
        return Ok((Formula { expr, parts: 1 }, rest));
    }
    let (word, rest) = split_word(b);
    match field(word) {
        Some(expr) => Ok((Formula { expr, parts: 1 }, rest)),
        None => Err(Unexpected(Why::Operand, b)),
    }
}

fn field(word: &[u8]) -> Option<Expr>
    ensures { option_map expr_of result ≡ field_of word.now }
{
    match word {
        b"time" => Some(Expr::Time),
        b"key" => Some(Expr::Key),
        b"value" => Some(Expr::Value),
        _ => None,
    }
}
