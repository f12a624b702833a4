// An expression with the number of its parts, and how two of them are joined.
ghost use Rattle.std.specs.Prelude.{◌≡◌, ◌<◌, ◌≤◌, MatchResult};
ghost use Rattle.grammar.specs.declared.refusals.Why.TheVariants.{Parts};
ghost use Rattle.grammar.specs.Reading.{joined as joined_of};
ghost use Rattle.streams.specs.Calls.{parts as parts_of};
ghost use Rattle.plans.specs.Model.{expr_of};

use grammar::operators::Operator;
use grammar::refusals::Why;
use plans::exprs::{Expr, MOST_PARTS};
use std::alloc::Global;
use tokens::faults::{Stop, Unexpected};

// An expression within the limit of parts.
#[derive(Drop)]
pub struct Formula {
    pub expr: Expr,
    pub parts: u8,
    ghost counted: { parts ≡ parts_of (expr_of expr) },
    ghost few: { parts ≤ 64 },
}

impl Formula {
    ghost use Rattle.grammar.specs.Reading.{join, negate};
    ghost use Rattle.formulas.specs.Says.{Makes};

    // Two formulas, joined by the operator at `sign`.
    #[tactic(auto, using(grammar::proofs::Readers::joined_parts, std::proofs::lemmas::Bool::Decides::nat_tests), unfolding(grammar::specs::Reading::join))]
    pub(crate) fn joined(
        self,
        heap: Global,
        op: Operator,
        sign: &[u8],
        right: Formula,
    ) -> Result<Formula, Stop>
        ensures { Makes (join op sign.now (expr_of self.expr) (expr_of right.expr)) result }
    {
        let parts = few(1 + (self.parts + right.parts), sign)?;
        let a = Box::new(heap, self.expr)?;
        let b = Box::new(heap, right.expr)?;
        Ok(Formula {
            expr: pair(op, a, b),
            parts,
        })
    }

    // The not of a formula, by the `!` at `sign`.
    #[tactic(auto, using(std::proofs::lemmas::Bool::Decides::nat_tests), unfolding(grammar::specs::Reading::negate, streams::specs::Calls::parts))]
    pub(crate) fn negated(self, heap: Global, sign: &[u8]) -> Result<Formula, Stop>
        ensures { Makes (negate sign.now (expr_of self.expr)) result }
    {
        let parts = few(1 + self.parts, sign)?;
        let expr = Expr::Not(Box::new(heap, self.expr)?);
        Ok(Formula { expr, parts })
    }
}

// So many parts, unless they are too many.
fn few(parts: u8, sign: &[u8]) -> Result<u8, Unexpected>
    ensures { MatchResult result (λ n. (n ≡ parts) × (n ≤ 64)) (λ u. (u.0 ≡ Parts) × (u.1.now ≡ sign.now) × (64 < parts)) }
{
    if parts > MOST_PARTS {
        Err(Unexpected(Why::Parts, sign))
    } else {
        Ok(parts)
    }
}

#[tactic(auto, unfolding(grammar::specs::Reading::joined))]
fn pair(op: Operator, a: Box<Expr>, b: Box<Expr>) -> Expr
    ensures { expr_of result ≡ joined_of op (expr_of a.value) (expr_of b.value) }
{
    match op {
        Operator::Plus => Expr::Plus(a, b),
        Operator::Minus => Expr::Minus(a, b),
        Operator::Times => Expr::Times(a, b),
        Operator::Quotient => Expr::Quotient(a, b),
        Operator::Rest => Expr::Rest(a, b),
        Operator::Less => Expr::Less(a, b),
        Operator::Same => Expr::Same(a, b),
    }
}
