// Plans as text, as docs/PLANS.md has it: one stage after the other, with the fewest brackets that keep the reading, and
// without what equals its default. What is written is `printed` of the crate `grammar`.
#![tactic(auto)]

ghost use Rattle.std.specs.Prelude.{◌≡◌, ◌++◌, Some, IfOk};
ghost use Rattle.grammar.specs.Printing.{bond as bond_of, within as within_of, shown, said, named as named_of, text_of_stage, printed};
ghost use Rattle.plans.specs.Model.{expr_of, as_sum, stage_of, plan_of};

use plans::exprs::Expr;
use plans::stages::{Aggregate, Plan, Stage};
use std::alloc::{AllocError, Global};
use std::fmt;
use std::fmt::Display;

// The text of a plan.
pub fn print(heap: Global, plan: &Plan) -> Result<Vec<u8>, AllocError>
    ensures { IfOk result (λ v. v.items ≡ printed (plan_of plan.now)) }
{
    let text = Text(plan).to_string(heap)?;
    Ok(text.into_bytes())
}

// A plan, a stage or an expression, to be written as text.
#[derive(Drop)]
struct Text<'a, T>(&'a T);

impl Display for Text<'_, Plan> {
    ghost output = { λ x. Some (printed (plan_of x.0.now)) };

    fn fmt<W: fmt::Write>(&self, f: &mut fmt::Formatter<W>) -> fmt::Result {
        write!(f, "late {}", self.0.late.0)?;
        for stage in &self.0.stages {
            write!(f, "; {}", Text(stage))?;
        }
        Ok(())
    }
}

impl Display for Text<'_, Stage> {
    ghost output = { λ x. Some (text_of_stage (stage_of x.0.now)) };

    fn fmt<W: fmt::Write>(&self, f: &mut fmt::Formatter<W>) -> fmt::Result {
        let Stage {
            keep,
            key,
            value,
            size,
            aggregate,
        } = self.0;
        let keep = Said("keep", keep, matches!(keep, Expr::Num(n) if *n == 1));
        let key = Said("key", key, matches!(key, Expr::Key));
        let value = Said("value", value, matches!(value, Expr::Value));
        write!(f, "{keep}{key}{value}in {} {}", size.0, named(*aggregate))
    }
}

// A part of a stage by its name, with a blank behind it, unless it is left out. The flag is `left_out` of the grammar's `said`: an
// Option in place of both would be turned back into them.
#[derive(Clone, Copy)]
struct Said<'a>(&'static str, &'a Expr, bool);

impl Display for Said<'_> {
    ghost output = { λ x. Some (said x.0.now x.2 (expr_of x.1.now)) };

    fn fmt<W: fmt::Write>(&self, f: &mut fmt::Formatter<W>) -> fmt::Result {
        let Said(name, expr, left_out) = *self;
        if left_out {
            return Ok(());
        }
        write!(f, "{name} {} ", Text(expr))
    }
}

// The words are the grammar's and `Aggregate` is of `plans`, which knows no grammar: so it is no `Display` of it.
#[tactic(auto, unfolding(grammar::specs::Printing::named))]
fn named(aggregate: Aggregate) -> &'static str
    ensures { result.now ≡ named_of (as_sum aggregate) }
{
    match aggregate {
        Aggregate::Count => "count",
        Aggregate::Total => "total",
        Aggregate::Least => "least",
        Aggregate::Greatest => "greatest",
    }
}

// How close an expression binds: a comparison 1, a sum 2, a product 3, what needs no brackets anywhere 4. A number as in the
// grammar, whose `within` compares it: an enum would only be turned into it.
#[tactic(auto, unfolding(grammar::specs::Printing::bond))]
fn bond(e: &Expr) -> u8
    ensures { result ≡ bond_of (expr_of e.now) }
{
    match e {
        Expr::Less(_, _) | Expr::Same(_, _) => 1,
        Expr::Plus(_, _) | Expr::Minus(_, _) => 2,
        Expr::Times(_, _) | Expr::Quotient(_, _) | Expr::Rest(_, _) => 3,
        Expr::Num(_) | Expr::Time | Expr::Key | Expr::Value | Expr::Not(_) => 4,
    }
}

// Without brackets around it. Inner expressions are written by `fmt` itself, since a proof does not follow a recursion
// through a format string.
impl Display for Text<'_, Expr> {
    ghost output = { λ x. Some (shown (expr_of x.0.now)) };

    #[cycle(text)]
    #[tactic(auto, unfolding(grammar::specs::Printing::shown))]
    fn fmt<W: fmt::Write>(&self, f: &mut fmt::Formatter<W>) -> fmt::Result {
        match self.0 {
            Expr::Num(n) => write!(f, "{n}"),
            Expr::Time => f.write_str("time"),
            Expr::Key => f.write_str("key"),
            Expr::Value => f.write_str("value"),
            Expr::Plus(a, b) => Pair(Within(2, a), " + ", Within(3, b)).fmt(f),
            Expr::Minus(a, b) => Pair(Within(2, a), " - ", Within(3, b)).fmt(f),
            Expr::Times(a, b) => Pair(Within(3, a), " * ", Within(4, b)).fmt(f),
            Expr::Quotient(a, b) => Pair(Within(3, a), " / ", Within(4, b)).fmt(f),
            Expr::Rest(a, b) => Pair(Within(3, a), " % ", Within(4, b)).fmt(f),
            Expr::Less(a, b) => Pair(Within(2, a), " < ", Within(2, b)).fmt(f),
            Expr::Same(a, b) => Pair(Within(2, a), " = ", Within(2, b)).fmt(f),
            Expr::Not(a) => {
                f.write_str("!")?;
                Within(4, a).fmt(f)
            }
        }
    }
}

// An expression, in brackets if it binds less than the number says.
#[derive(Clone, Copy)]
struct Within<'a>(u8, &'a Expr);

impl Display for Within<'_> {
    ghost output = { λ x. Some (within_of x.0 (bond_of (expr_of x.1.now)) (shown (expr_of x.1.now))) };

    #[cycle(text)]
    fn fmt<W: fmt::Write>(&self, f: &mut fmt::Formatter<W>) -> fmt::Result {
        if bond(self.1) >= self.0 {
            return Text(self.1).fmt(f);
        }
        f.write_str("(")?;
        Text(self.1).fmt(f)?;
        f.write_str(")")
    }
}

// Two sides with a sign between them.
#[derive(Clone, Copy)]
struct Pair<'a>(Within<'a>, &'static str, Within<'a>);

impl Display for Pair<'_> {
    ghost output = { λ x. Some (within_of x.0.0 (bond_of (expr_of x.0.1.now)) (shown (expr_of x.0.1.now)) ++ (x.1.now ++ within_of x.2.0 (bond_of (expr_of x.2.1.now)) (shown (expr_of x.2.1.now)))) };

    #[cycle(text)]
    fn fmt<W: fmt::Write>(&self, f: &mut fmt::Formatter<W>) -> fmt::Result {
        self.0.fmt(f)?;
        f.write_str(self.1)?;
        self.2.fmt(f)
    }
}
