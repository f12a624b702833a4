// A table: items at the front of memory that is lent, with room behind them for more.
// It is to such memory what a `Vec` is to the heap, of which a worker takes none: who calls has proved that there is room.
// How much room is lent no type can say, so each method says that it stays.
#![tactic(auto)]

ghost use Rattle.std.specs.Prelude.{◌≡◌, ◌+◌, ◌<◌, ◌≤◌, [], ◌∷◌, ◌++◌, length, take, drop, slice_set};

use std::marker::Model;
use std::ops::Range;

#[derive(Drop)]
pub struct Table<'a, T> {
    slots: &'a mut [T],
    count: usize,
}

impl<'a, T> Model for Table<'a, T> {
    ghost use Rattle.std.specs.Prelude.{◌≤◌, length, take};
    ghost use Rattle.tables.specs.Lent.{Lent, lent_code};

    ghost Value = { Lent T };

    ghost coded = { lent_code T.code };

    ghost view = { λ t. record { items = take t.count t.slots.now; room = length t.slots.now } };

    ghost invariant = { λ t. t.count ≤ length t.slots.now };
}

// What changes memory lent for one call, whose first items, so many, are meant: it says how many they are then.
// Of memory in a `Table` a lender learns nothing when the loan ends, and here all.

// Other items before those from i on.
pub fn insert_from_slice<T: Copy>(slots: &mut [T], count: usize, i: usize, from: &[T]) -> usize
    requires within { i ≤ count }
    requires room { count + length from.now ≤ length slots.old }
    ensures items { take result slots.new ≡ take i (take count slots.old) ++ (from.now ++ drop i (take count slots.old)) }
    ensures count { result ≡ count + length from.now }
{
    slots.copy_within(i..count, i + from.len());
    slots[i..i + from.len()].copy_from_slice(from);
    count + from.len()
}

// `Range` is the library's: its type does not keep its order.
pub fn remove_range<T: Copy>(slots: &mut [T], count: usize, range: Range<usize>) -> usize
    requires order { range.start ≤ range.end }
    requires within { range.end ≤ count }
    requires whole { count ≤ length slots.old }
    ensures items { take result slots.new ≡ take range.start (take count slots.old) ++ drop range.end (take count slots.old) }
    ensures count { result + range.end ≡ count + range.start }
{
    slots.copy_within(range.end..count, range.start);
    count - (range.end - range.start)
}

impl<'a, T: Copy> Table<'a, T> {
    // Memory whose first items, so many, are the table's.
    pub fn new(slots: &'a mut [T], count: usize) -> Self
        requires { count ≤ length slots.old }
        ensures items { result.items ≡ take count slots.old }
        ensures room { result.room ≡ length slots.old }
    {
        Table { slots, count }
    }

    // How many items there is room for.
    pub fn room(&self) -> usize
        ensures { result ≡ self.now.room }
    {
        self.slots.len()
    }

    pub fn as_slice(&self) -> &[T]
        ensures items { result.now ≡ self.now.items }
        ensures fits { length self.now.items ≤ self.now.room }
    {
        &self.slots[..self.count]
    }

    // Other items in place of all.
    pub fn assign(&mut self, from: &[T])
        requires { length from.now ≤ self.old.room }
        ensures items { self.new.items ≡ from.now }
        ensures room { self.new.room ≡ self.old.room }
    {
        self.count = from.len();
        self.slots[..self.count].copy_from_slice(from);
    }

    pub fn set(&mut self, i: usize, item: T)
        requires { i < length self.old.items }
        ensures items { self.new.items ≡ slice_set self.old.items i item }
        ensures room { self.new.room ≡ self.old.room }
    {
        let slots = &mut *self.slots;
        slots[i] = item;
    }

    // One more behind them.
    pub fn push(&mut self, item: T)
        requires { length self.old.items < self.old.room }
        ensures items { self.new.items ≡ self.old.items ++ (item ∷ []) }
        ensures room { self.new.room ≡ self.old.room }
    {
        let slots = &mut *self.slots;
        slots[self.count] = item;
        self.count += 1;
    }

    // Others behind them.
    pub fn extend_from_slice(&mut self, from: &[T])
        requires { length self.old.items + length from.now ≤ self.old.room }
        ensures items { self.new.items ≡ self.old.items ++ from.now }
        ensures room { self.new.room ≡ self.old.room }
    {
        let end = self.count + from.len();
        self.slots[self.count..end].copy_from_slice(from);
        self.count = end;
    }

    // Other items before those from i on.
    pub fn insert_from_slice(&mut self, i: usize, from: &[T])
        requires within { i ≤ length self.old.items }
        requires room { length self.old.items + length from.now ≤ self.old.room }
        ensures items { self.new.items ≡ take i self.old.items ++ (from.now ++ drop i self.old.items) }
        ensures room { self.new.room ≡ self.old.room }
    {
        let slots = &mut *self.slots;
        self.count = insert_from_slice(slots, self.count, i, from);
    }

    pub fn remove_range(&mut self, range: Range<usize>)
        requires order { range.start ≤ range.end }
        requires within { range.end ≤ length self.old.items }
        ensures items { self.new.items ≡ take range.start self.old.items ++ drop range.end self.old.items }
        ensures room { self.new.room ≡ self.old.room }
    {
        let slots = &mut *self.slots;
        self.count = remove_range(slots, self.count, range);
    }

    // Cuts the items in two: those from `at` on are moved to another table.
    pub fn split_off(&mut self, at: usize, upper: &mut Table<'_, T>)
        requires within { at ≤ length self.old.items }
        requires room { length self.old.items ≤ at + upper.old.room }
        ensures lower { self.new.items ≡ take at self.old.items }
        ensures upper { upper.new.items ≡ drop at self.old.items }
        ensures room { (self.new.room ≡ self.old.room) × (upper.new.room ≡ upper.old.room) }
    {
        upper.assign(&self.as_slice()[at..]);
        self.count = at;
    }
}
