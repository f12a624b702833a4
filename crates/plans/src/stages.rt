// Stages and plans, and which of them are within the limits.
ghost use Rattle.std.specs.Prelude.{◌≡◌, ◌^◌, ◌<◌, ◌≤◌, ◌&&◌, map, MatchOption, nat_le, nat_lt};
ghost use Rattle.streams.specs.Meaning.{end_of, first as first_of, joined as joined_of};
ghost use Rattle.streams.specs.Laws.{together as together_of};
ghost use Rattle.streams.specs.Calls.{stage_ok, plan_ok, every};
ghost use Rattle.plans.specs.Model.{as_sum, stage_of, plan_of};

use crate::exprs::Expr;
use crate::numbers::{Span, Time, Value};

// How the values of one window and key are put together.
#[derive(Clone, Copy, PartialEq, Eq, Debug)]
pub enum Aggregate {
    Count,
    Total,
    Least,
    Greatest,
}

impl Aggregate {
    // What the first value of a window and key comes to.
    pub fn first(self, v: Value) -> Value
        ensures { result.0 ≡ first_of (as_sum self) v.0 }
    {
        match self {
            Aggregate::Count => Value(1),
            Aggregate::Total | Aggregate::Least | Aggregate::Greatest => v,
        }
    }

    // One value more than those that came to `so_far`.
    pub fn joined(self, so_far: Value, v: Value) -> Value
        ensures { result.0 ≡ joined_of (as_sum self) so_far.0 v.0 }
    {
        self.together(so_far, self.first(v))
    }

    // What two parts of the values come to, each put together before.
    pub fn together(self, a: Value, b: Value) -> Value
        ensures { result.0 ≡ together_of (as_sum self) a.0 b.0 }
    {
        match self {
            Aggregate::Count | Aggregate::Total => Value(a.0.wrapping_add(b.0)),
            Aggregate::Least => a.min(b),
            Aggregate::Greatest => a.max(b),
        }
    }
}

// Events for which `keep` is not 0 are kept, under the key and with the value that these expressions give,
// in windows of `size`.
#[derive(Drop)]
pub struct Stage {
    pub keep: Expr,
    pub key: Expr,
    pub value: Expr,
    pub size: Span,
    pub aggregate: Aggregate,
}

#[derive(Drop)]
pub struct Plan {
    pub late: Span,
    pub stages: Vec<Stage>,
}

// A window's size is from 1 to this, and a plan's lateness from 0 to this: 2 to the 40 milliseconds.
pub const MOST_SPAN: u64 = 1_099_511_627_776;

// A plan has from one to so many stages.
pub const MOST_STAGES: usize = 8;

impl Stage {
    // Is it within the limits.
    pub fn valid(&self) -> bool
        ensures { result ≡ stage_ok (stage_of self.now) }
    {
        self.keep.fine()
            && self.key.fine()
            && self.value.fine()
            && self.size.0 > 0
            && self.size.0 <= MOST_SPAN
    }

    // The end of the window that an event of this time is in: the next multiple of the size above it.
    // None where it is beyond 64 bits; such a window never ends. That the size is not 0 is asked of callers, and not kept by its
    // type: who builds a stage may give it any size, and `valid` judges it.
    pub fn window_end(&self, t: Time) -> Option<Time>
        requires { 0 < self.now.size.0 }
        ensures { MatchOption result (2 ^ 64 ≤ end_of self.now.size.0 t.0) (λ e. e.0 ≡ end_of self.now.size.0 t.0) }
    {
        let windows = (t.0 / self.size.0).checked_add(1)?;
        let end = windows.checked_mul(self.size.0)?;
        Some(Time(end))
    }
}

impl Plan {
    // Is it within the limits.
    pub fn valid(&self) -> bool
        ensures { result ≡ plan_ok (plan_of self.now) }
    {
        within(self.late, self.stages.len()) && all_valid(&self.stages)
    }
}

fn within(late: Span, stages: usize) -> bool
    ensures { result ≡ nat_le late.0 1099511627776 && nat_lt 0 stages && nat_le stages 8 }
{
    late.0 <= MOST_SPAN && stages > 0 && stages <= MOST_STAGES
}

fn all_valid(stages: &[Stage]) -> bool
    ensures { result ≡ every stage_ok (map stage_of stages.now) }
{
    stages.iter().all(|stage| stage.valid())
}
