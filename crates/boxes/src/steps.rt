// What is done on a ledger in a worker's memory, with the sizes that all share: a turn, and a log taken.
ghost use Rattle.std.specs.Prelude.{◌≡◌};
ghost use Rattle.contents.specs.Model.{log_of};
ghost use Rattle.ledgers.specs.Model.{SameRooms};
ghost use Rattle.turns.specs.Turn.{as_shown};
ghost use Rattle.turns.specs.Tidy.{SamePlates};
ghost use Rattle.boxes.specs.Steps.{Stepped, Took};
ghost use Rattle.boxes.specs.Rooms.{LedgerRoom, PlatesRoom};

use contents::log::LogView;
use contents::page::PageView;
use ledgers::Ledger;
use ledgers::take::take;
use marks::watermark;
use plans::numbers::{LogNumber, TIMES_END};
use plans::stages::Plan;
use rows::events::all_small;
use sizes::Sizes;
use turns::plates::{Plates, Written};
use turns::rules::Rules;
use turns::turn::turn;

// What is due is done, if all of it is within what a worker does it with.
pub fn step(
    plan: &Plan,
    ledger: &mut Ledger<'_>,
    shown: Option<PageView<'_>>,
    plates: &mut Plates<'_>,
) -> Option<Written>
    requires ledger { LedgerRoom ledger.old }
    requires plates { PlatesRoom plates.old }
    ensures stepped { Stepped plan.now (as_shown shown.entry) ledger.old ledger.new plates.new result }
    ensures room { SameRooms ledger.old ledger.new × SamePlates plates.old plates.new }
{
    if !plan.valid() || watermark(ledger.logs.as_slice(), plan.late).0 >= TIMES_END {
        return None;
    }
    let rules = Rules {
        late: plan.late,
        stages: plan.stages.as_slice(),
        sizes: Sizes::default(),
    };
    turn(ledger, shown, &rules, plates).ok()
}

// New events of a log are taken.
pub fn take_log(
    plan: &Plan,
    ledger: &mut Ledger<'_>,
    number: LogNumber,
    log: &LogView<'_>,
) -> Option<()>
    requires ledger { LedgerRoom ledger.old }
    ensures took { Took plan.now number.0 (log_of log.now) ledger.old ledger.new result }
    ensures room { SameRooms ledger.old ledger.new }
{
    if !plan.valid() || !all_small(log.events) {
        return None;
    }
    take(
        ledger,
        number,
        log,
        plan.stages.as_slice(),
        &Sizes::default(),
    )
    .ok()
}
