// A book-keeper in one place: logs in memory, and one call done after the other. `rehearse` compares all else with it.
#![tactic(auto)]

ghost use Rattle.std.specs.Prelude.{◌≤◌, vec_len};

use plans::entries::Entry;
use plans::stages::Plan;

pub mod doing;
mod logs;
pub mod undone;

#[derive(Drop)]
pub struct Keeper {
    plan: Plan,
    logs: Vec<Vec<Entry>>,
    ghost few: { vec_len logs ≤ 256 },
}
