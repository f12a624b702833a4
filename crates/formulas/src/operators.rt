// Which operator a sign is.
ghost use Rattle.std.specs.Prelude.{◌≡◌, [], ◌∷◌, drop, MatchOption};
ghost use Rattle.formulas.specs.Says.{between};

use grammar::operators::{Level, Operator};

// The operator that stands here between the operands of a chain of that level, or, for None, between the sides of a
// comparison; and what is behind it.
#[tactic(auto, using(crate::proofs::Signs::between_none, crate::proofs::Signs::between_first))]
pub(crate) fn operator(b: &[u8], level: Option<Level>) -> Option<(Operator, &[u8])>
    ensures { MatchOption result (between level b.now ≡ None) (λ x. (between level b.now ≡ Some x.0) × (x.1.now ≡ drop 1 b.now)) }
{
    let (sign, rest) = b.split_first()?;
    let op = operator_of(level, *sign)?;
    Some((op, rest))
}

#[tactic(auto, unfolding(grammar::specs::Reading::operator, grammar::specs::Reading::comparison, grammar::specs::Reading::is))]
fn operator_of(level: Option<Level>, sign: u8) -> Option<Operator>
    ensures { result ≡ between level (sign ∷ []) }
{
    match (level, sign) {
        (Some(Level::Sum), b'+') => Some(Operator::Plus),
        (Some(Level::Sum), b'-') => Some(Operator::Minus),
        (Some(Level::Product), b'*') => Some(Operator::Times),
        (Some(Level::Product), b'/') => Some(Operator::Quotient),
        (Some(Level::Product), b'%') => Some(Operator::Rest),
        (None, b'<') => Some(Operator::Less),
        (None, b'=') => Some(Operator::Same),
        _ => None,
    }
}
