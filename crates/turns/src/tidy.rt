// A step on the queue, done on the ledger.
ghost use Rattle.std.specs.Prelude.{map};
ghost use Rattle.book.specs.Due.{SizesOk};
ghost use Rattle.book.specs.Small.{StagesFit};
ghost use Rattle.plans.specs.Model.{stage_of};
ghost use Rattle.sizes.specs.Model.{sizes_of};
ghost use Rattle.ledgers.specs.Model.{ledger_of, SameRooms};
ghost use Rattle.turns.specs.Turn.{as_shown};
ghost use Rattle.turns.specs.Tidy.{IsDue, MarkFits, Roomy, Tidied, SamePlates};

use crate::moving::lower_front;
use crate::pages::{sift_page, spill_shown, unpack_shown};
use crate::plates::{Beyond, Plates, Written};
use crate::rules::Rules;
use crate::segments::pack_level;
use contents::page::PageView;
use dues::Step;
use emits::emit::emit;
use ledgers::Ledger;
use marks::watermark;
use moves::open;

pub(crate) fn tidy(
    ledger: &mut Ledger<'_>,
    step: &Step,
    shown: Option<PageView<'_>>,
    rules: &Rules<'_>,
    plates: &mut Plates<'_>,
) -> Result<Written, Beyond>
    requires due { IsDue (sizes_of rules.now.sizes) rules.now.late.0 (ledger_of ledger.old) step.now }
    requires sizes { SizesOk (sizes_of rules.now.sizes) }
    requires stages { StagesFit (map stage_of rules.now.stages.now) }
    requires mark { MarkFits rules.now.late.0 (ledger_of ledger.old) }
    requires room { Roomy (sizes_of rules.now.sizes) ledger.old plates.old }
    ensures tidied { Tidied rules.now step.now (as_shown shown.entry) ledger.old ledger.new plates.new result }
    ensures room { SameRooms ledger.old ledger.new × SamePlates plates.old plates.new }
{
    let sizes = &rules.sizes;
    let queue = &mut ledger.queue;
    match step {
        Step::Pack(level) => pack_level(queue, *level, sizes, &mut plates.index),
        Step::Spill(fullest) => spill_shown(
            queue,
            fullest,
            shown,
            sizes.rows,
            &mut plates.rows,
            rules.stages,
        ),
        Step::Lower => lower_front(queue, rules.stages),
        Step::Sift(_) => sift_page(queue, shown, sizes.rows, rules.stages),
        Step::Emit => {
            let mark = watermark(ledger.logs.as_slice(), rules.late);
            emit(queue, mark, sizes.emits, &mut ledger.tail, rules.stages);
            Ok(Written::Nothing)
        }
        Step::Unpack(_) => unpack_shown(queue, shown),
        Step::Open => {
            open(queue, rules.stages);
            Ok(Written::Nothing)
        }
    }
}
