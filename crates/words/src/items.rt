// Words that are lent for one call as items of several words each.
// The library's `as_chunks_mut` lends them so too, but says nothing of what the words end as.
ghost use Rattle.std.specs.Prelude.{◌≡◌, ◌+◌, ◌*◌, ◌/◌, ◌^◌, ◌<◌, ◌≤◌, ◌++◌, length, take, drop, slice_set};
ghost use Rattle.std.specs.Borrow.{sem, u64, Array, LendsBoth};
ghost use Rattle.std.specs.Simd.{first_chunks};
ghost use Rattle.words.specs.Items.{items_of, whole, words_of};

use std::ops::Range;
use std::slice::from_raw_parts_mut;

// The first items, `count` of N words each, and the words behind them, from `mid` on.
// By pointers, since no safe code lends words as arrays and has a proof of what they end as; its own proof follows it by hand.
fn split_items_mut<const N: usize>(
    words: &mut [u64],
    count: usize,
    mid: usize,
) -> (&mut [[u64; N]], &mut [u64])
    requires exact { count * N ≡ mid }
    requires within { mid ≤ length words.old }
    ensures* writes_back { sem 𝓛 (LendsBoth (Array u64 0) (Array (Array u64 N) 0) (Array u64 0) words.entry result (λ items rest. words_of N items ++ rest)) }
    ensures value { (result.0.now ≡ first_chunks N count words.old) × (result.1.now ≡ drop mid words.old) }
{
    let len = words.len();
    let start = words.as_mut_ptr();
    unsafe {
        (
            from_raw_parts_mut(start as *mut [u64; N], count),
            from_raw_parts_mut(start.add(mid), len - mid),
        )
    }
}

// As many items of N words each as there are, and the words behind them, which are too few for one more.
pub fn as_items_mut<const N: usize>(words: &mut [u64]) -> (&mut [[u64; N]], &mut [u64])
    requires { 0 < N }
    ensures* writes_back { sem 𝓛 (LendsBoth (Array u64 0) (Array (Array u64 N) 0) (Array u64 0) words.entry result (λ items rest. words_of N items ++ rest)) }
    ensures value { (result.0.now ≡ items_of N words.old) × (result.1.now ≡ drop (length words.old / N * N) words.old) }
{
    let count = words.len() / N;
    split_items_mut(words, count, count * N)
}

// Another item in place of one.
pub fn set_item<const N: usize>(words: &mut [u64], i: usize, item: [u64; N])
    requires nonzero { 0 < N }
    requires within { i < length words.old / N }
    ensures items { items_of N words.new ≡ whole N (slice_set (items_of N words.old) i item.entry) }
    ensures rest { drop (length words.old / N * N) words.new ≡ drop (length words.old / N * N) words.old }
{
    let (items, _) = as_items_mut(words);
    items[i] = item;
}

// Other items before those from i on, of the first ones, so many: how many there are then.
pub fn insert_from_slice<const N: usize>(
    words: &mut [u64],
    count: usize,
    i: usize,
    from: &[[u64; N]],
) -> usize
    requires nonzero { 0 < N }
    requires within { i ≤ count }
    requires room { count + length from.now ≤ length words.old / N }
    ensures items { take result (items_of N words.new) ≡ whole N (take i (take count (items_of N words.old)) ++ (from.now ++ drop i (take count (items_of N words.old)))) }
    ensures count { result ≡ count + length from.now }
{
    let (items, _) = as_items_mut(words);
    tables::insert_from_slice(items, count, i, from)
}

// Takes items out of the first ones, so many: how many are left.
// That an item's size is one that memory can have, other calls have from a type in their arguments.
pub fn remove_range<const N: usize>(words: &mut [u64], count: usize, range: Range<usize>) -> usize
    requires nonzero { 0 < N }
    requires size { N * 8 < 2 ^ 63 }
    requires order { range.start ≤ range.end }
    requires within { range.end ≤ count }
    requires whole { count ≤ length words.old / N }
    ensures items { take result (items_of N words.new) ≡ take range.start (take count (items_of N words.old)) ++ drop range.end (take count (items_of N words.old)) }
    ensures count { result + range.end ≡ count + range.start }
{
    let (items, _) = as_items_mut::<N>(words);
    tables::remove_range(items, count, range)
}

// Copies items to the beginning of words.
pub fn copy_from_slice<const N: usize>(words: &mut [u64], from: &[[u64; N]])
    requires nonzero { 0 < N }
    requires room { length from.now ≤ length words.old / N }
    ensures { take (length from.now) (items_of N words.new) ≡ whole N from.now }
{
    let (items, _) = as_items_mut(words);
    items[..from.len()].copy_from_slice(from);
}
