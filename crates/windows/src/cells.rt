// The cells of one stage: for each window and key what its values come to so far, by rising ends, then keys.
ghost use Rattle.std.specs.Prelude.{◌≡◌, ◌&&◌, [], map, length, nat_lt};
ghost use Rattle.streams.specs.Meaning.{into};
ghost use Rattle.streams.specs.Order.{Sorted, before};
ghost use Rattle.plans.specs.Model.{as_sum};
ghost use Rattle.windows.specs.Model.{cell_of};
ghost use Rattle.windows.specs.Table.{cells_of, cell_at, is_of, Splits, Taken};
ghost use Rattle.windows.specs.Results.{Turns};

use plans::numbers::{Key, Time, Value};
use plans::stages::Aggregate;
use std::alloc::{AllocError, AllocFailed, Global};
use std::collections::BTreeMap;
use std::collections::btree_map::Entry;
use std::marker::Model;

// What a cell goes by: the end of its window, then its key.
#[derive(Clone, Copy, PartialEq, Eq, PartialOrd, Ord)]
pub(crate) struct Slot {
    pub end: Time,
    pub key: Key,
}

// Cells in a row, by rising slots.
#[derive(Drop)]
pub(crate) struct Run {
    cells: Vec<(Slot, Value)>,
}

impl Model for Run {
    ghost use Rattle.std.specs.Prelude.{List, map};
    ghost use Rattle.streams.specs.Meaning.{Cell};
    ghost use Rattle.streams.specs.Order.{Sorted};
    ghost use Rattle.windows.specs.Model.{cell_of};

    ghost Value = { List Cell };

    ghost view = { λ r. map cell_of r.cells.items };

    ghost invariant = { λ r. Sorted (map cell_of r.cells.items) };
}

// Events come mostly by rising times, so most cells stand at the end of those before, or near it: these are in the run.
// The others are in a map, since each would move all that stand behind it.
#[derive(Drop)]
pub(crate) struct Cells {
    pub run: Run,
    pub strays: BTreeMap<Slot, Value>,
}

// A new cell moves at most so many of the run.
const NEAR: usize = 64;

pub(crate) fn is_before(cell: &(Slot, Value), slot: Slot) -> bool
    ensures { result ≡ before cell.now.0.end.0 cell.now.0.key.0 slot.end.0 slot.key.0 }
{
    cell.0 < slot
}

fn is_at(cell: &(Slot, Value), slot: Slot) -> bool
    ensures { result ≡ is_of slot.end.0 slot.key.0 (cell_of cell.now) }
{
    slot == cell.0
}

// Is there a cell at this place, of this slot.
pub(crate) fn holds(cells: &[(Slot, Value)], at: usize, slot: Slot) -> bool
    ensures { result ≡ nat_lt at (length cells.now) && is_of slot.end.0 slot.key.0 (cell_at cells.now at) }
{
    at < cells.len() && is_at(&cells[at], slot)
}

// How many cells stand before a slot, by halving.
fn find(cells: &[(Slot, Value)], slot: Slot) -> usize
    requires { Sorted (map cell_of cells.now) }
    ensures { Splits slot.end.0 slot.key.0 cells.now result }
{
    let mut lo = 0;
    let mut hi = cells.len();
    while lo < hi {
        let mid = lo + (hi - lo) / 2;
        if is_before(&cells[mid], slot) {
            lo = mid + 1;
        } else {
            hi = mid;
        }
    }
    lo
}

impl Run {
    // Adds a value of a window and key, and says whether it did: a new cell only near the end.
    fn add(&mut self, how: Aggregate, slot: Slot, value: Value) -> Result<bool, AllocError>
        ensures cells { Taken (as_sum how) slot.end.0 slot.key.0 value.0 self.old self.new result }
        ensures sorted { Sorted self.new }
    {
        let at = find(&self.cells, slot);
        if holds(&self.cells, at, slot) {
            let so_far = self.cells[at].1;
            self.cells[at] = (slot, how.joined(so_far, value));
            return Ok(true);
        }
        if self.cells.len() - at > NEAR {
            return Ok(false);
        }
        let first = how.first(value);
        self.cells.insert(at, (slot, first))?;
        Ok(true)
    }

    pub(crate) fn as_slice(&self) -> &[(Slot, Value)]
        ensures cells { map cell_of result.now ≡ self.now }
        ensures sorted { Sorted self.now }
    {
        &self.cells
    }
}

impl Cells {
    pub(crate) fn new(heap: Global) -> Cells
        ensures run { result.run ≡ [] }
        ensures strays { result.strays.entries ≡ [] }
    {
        Cells {
            run: Run {
                cells: Vec::new(heap),
            },
            strays: BTreeMap::new(heap),
        }
    }
}

fn add_stray(
    strays: &mut BTreeMap<Slot, Value>,
    how: Aggregate,
    slot: Slot,
    value: Value,
) -> Result<(), AllocFailed<Slot>>
    ensures { Turns (map cell_of strays.old.entries) (map cell_of strays.new.entries) (into (as_sum how) slot.end.0 slot.key.0 value.0 (map cell_of strays.old.entries)) result }
{
    match strays.entry(slot)? {
        Entry::Occupied(mut cell) => {
            let so_far = *cell.get();
            cell.insert(how.joined(so_far, value));
        }
        Entry::Vacant(cell) => {
            cell.insert(how.first(value));
        }
    }
    Ok(())
}

// Adds a value of a window and key. Without memory the cells stay as they were.
pub(crate) fn add(
    cells: &mut Cells,
    how: Aggregate,
    slot: Slot,
    value: Value,
) -> Result<(), AllocError>
    ensures { Turns (cells_of (as_sum how) cells.old) (cells_of (as_sum how) cells.new) (into (as_sum how) slot.end.0 slot.key.0 value.0 (cells_of (as_sum how) cells.old)) result }
{
    if cells.run.add(how, slot, value)? {
        return Ok(());
    }
    add_stray(&mut cells.strays, how, slot, value)?;
    Ok(())
}
