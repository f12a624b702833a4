// Segments that are held as words, packed and unpacked.
ghost use Rattle.std.specs.Prelude.{◌≡◌, suc, ◌+◌, ◌*◌, ◌<◌, ◌≤◌, length, take};
ghost use Rattle.streams.specs.Meaning.{top};
ghost use Rattle.book.specs.Due.{at_level};
ghost use Rattle.segs.specs.Model.{page_link};
ghost use Rattle.packs.specs.Model.{LevelsFit};
ghost use Rattle.packs.specs.Slots.{PacksSlots, Unpacks};
ghost use Rattle.words.specs.Items.{items_of};
ghost use Rattle.words.specs.Tables.{segs_in};

use crate::items::as_items_mut;
use packs::lent::{self, Packed, Unpacked};
use segs::segment::{Level, PageNumber, SegmentWords};

// What `packs::lent::pack` does.
pub fn pack(
    segments: &mut [u64],
    count: usize,
    next: PageNumber,
    level: Level,
    most: usize,
    page: &mut [u64],
) -> Packed
    requires whole { 6 * count ≤ length segments.old }
    requires room { 6 * most ≤ length page.old }
    requires most { 1 ≤ most }
    requires some { 1 ≤ at_level level.0 (segs_in count segments.old) }
    requires next { suc next.0 < top }
    requires levels { LevelsFit (segs_in count segments.old) }
    ensures packs { PacksSlots most level.0 next.0 (take count (items_of 6 segments.old)) (take result.segments (items_of 6 segments.new)) (take result.page (items_of 6 page.new)) }
    ensures page { result.page ≤ most }
    ensures all { result.segments + result.page ≡ count + 1 }
{
    let (segments, _) = as_items_mut(segments);
    let (page, _) = as_items_mut(page);
    lent::pack(segments, count, next, level, most, page)
}

// What `packs::lent::unpack` does.
pub fn unpack(segments: &mut [u64], count: usize, page: &[SegmentWords]) -> Unpacked
    requires some { 1 ≤ count }
    requires room { 6 * (count + length page.now) ≤ length segments.old }
    ensures unpacks { Unpacks (take count (items_of 6 segments.old)) page.now (take result.segments (items_of 6 segments.new)) (page_link result.source) }
    ensures segments { result.segments + 1 ≡ count + length page.now }
{
    let (segments, _) = as_items_mut(segments);
    lent::unpack(segments, count, page)
}
