// A row: what the values of one window, stage and key come to so far. By value, and as the four words that it is in memory.
ghost use Rattle.std.specs.Prelude.{◌≡◌};
ghost use Rattle.plans.specs.Model.{as_sum};
ghost use Rattle.rows.specs.Model.{row_of, row_in, aggregates_of};

use plans::numbers::{Key, Time, Value};
use plans::stages::{Aggregate, Stage};

// Which stage of a plan, from 0 on.
#[derive(Clone, Copy, PartialEq, Eq, PartialOrd, Ord, Debug)]
pub struct StageNumber(pub u64);

// What rows are sorted by: the end of the window, the stage, and the key that the stage gives.
#[derive(Clone, Copy, PartialEq, Eq, PartialOrd, Ord, Debug)]
pub struct RowKey {
    pub end: Time,
    pub stage: StageNumber,
    pub key: Key,
}

#[derive(Clone, Copy, PartialEq, Eq, Debug)]
pub struct Row {
    pub at: RowKey,
    pub value: Value,
}

// A row in memory and in a page: the end, the stage and the key, and the value. Words are seen so by `as_chunks`.
pub type RowWords = [u64; 4];

impl From<RowWords> for Row {
    ghost from_gives = { λ words row. row_of row ≡ row_in words };

    fn from(words: RowWords) -> Row {
        let [end, stage, key, value] = words;
        let at = RowKey {
            end: Time(end),
            stage: StageNumber(stage),
            key: Key(key),
        };
        Row {
            at,
            value: Value(value),
        }
    }
}

impl From<Row> for RowWords {
    ghost from_gives = { λ row words. row_in words ≡ row_of row };

    fn from(row: Row) -> RowWords {
        [row.at.end.0, row.at.stage.0, row.at.key.0, row.value.0]
    }
}

// How the values of a stage are put together. No row is of a stage that the plan has not; such a one would be counted.
pub(crate) fn aggregate_of(stages: &[Stage], stage: StageNumber) -> Aggregate
    ensures { as_sum result ≡ aggregates_of stages.now stage.0 }
{
    match stages.get(stage.0 as usize) {
        Some(stage) => stage.aggregate,
        None => Aggregate::Count,
    }
}
