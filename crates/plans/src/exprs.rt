// Expressions: words of 64 bits that are worked out from an event.
ghost use Rattle.std.specs.Prelude.{◌≡◌};
ghost use Rattle.streams.specs.Meaning.{word};
ghost use Rattle.streams.specs.Calls.{fine as fine_expr};
ghost use Rattle.plans.specs.Model.{expr_of, as_event};
ghost use Rattle.plans.specs.Limits.{Spare};

use crate::entries::Event;

#[derive(Drop)]
pub enum Expr {
    Num(u64),
    Time,
    Key,
    Value,
    Plus(Box<Expr>, Box<Expr>),
    Minus(Box<Expr>, Box<Expr>),
    Times(Box<Expr>, Box<Expr>),
    Quotient(Box<Expr>, Box<Expr>),
    Rest(Box<Expr>, Box<Expr>),
    Less(Box<Expr>, Box<Expr>),
    Same(Box<Expr>, Box<Expr>),
    Not(Box<Expr>),
}

// At most so many parts has an expression of a plan: numbers, fields and operators each count one.
pub const MOST_PARTS: u8 = 64;

impl Expr {
    // The word that it gives of `event`: sums, differences and products wrap; quotient and rest by 0 are 0;
    // less, same and not give 1 or 0.
    pub fn eval(&self, event: Event) -> u64
        ensures { result ≡ word (expr_of self.now) (as_event event) }
    {
        match self {
            Expr::Num(n) => *n,
            Expr::Time => event.time.0,
            Expr::Key => event.key.0,
            Expr::Value => event.value.0,
            Expr::Plus(a, b) => a.eval(event).wrapping_add(b.eval(event)),
            Expr::Minus(a, b) => a.eval(event).wrapping_sub(b.eval(event)),
            Expr::Times(a, b) => a.eval(event).wrapping_mul(b.eval(event)),
            // by 0 the left side is not worked out
            Expr::Quotient(a, b) => {
                let by = b.eval(event);
                if by == 0 { 0 } else { a.eval(event) / by }
            }
            Expr::Rest(a, b) => {
                let by = b.eval(event);
                if by == 0 { 0 } else { a.eval(event) % by }
            }
            Expr::Less(a, b) => u64::from(a.eval(event) < b.eval(event)),
            Expr::Same(a, b) => u64::from(a.eval(event) == b.eval(event)),
            Expr::Not(a) => u64::from(a.eval(event) == 0),
        }
    }

    // Is it within the limit of parts.
    pub fn fine(&self) -> bool
        ensures { result ≡ fine_expr (expr_of self.now) }
    {
        self.spare(MOST_PARTS).is_some()
    }

    // How many of `most` parts its own leave over, if it has no more; it looks at no more than `most` parts.
    fn spare(&self, most: u8) -> Option<u8>
        ensures { Spare (expr_of self.now) most result }
    {
        let left = most.checked_sub(1)?;
        match self {
            Expr::Num(n) => {
                // read, so that the proof knows it for a word of 64 bits
                let _word = *n;
                Some(left)
            }
            Expr::Time | Expr::Key | Expr::Value => Some(left),
            Expr::Not(a) => a.spare(left),
            Expr::Plus(a, b)
            | Expr::Minus(a, b)
            | Expr::Times(a, b)
            | Expr::Quotient(a, b)
            | Expr::Rest(a, b)
            | Expr::Less(a, b)
            | Expr::Same(a, b) => b.spare(a.spare(left)?),
        }
    }
}
