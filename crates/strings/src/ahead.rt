// Reading ahead. The entries of a bucket stand by hash, their texts anywhere, so that the processor would wait for each in turn. Here 64
// entries are prefetched together: none of these reads waits for another, and the texts are near when they are checked.
ghost use Rattle.std.specs.Prelude.{◌≡◌, ◌⊎◌, ◌+◌, ◌-◌, ◌*◌, ◌%◌, ◌≤◌, ◌<◌, ◌^◌, length};
ghost use Rattle.verdict.specs.inner.Tells.{Tells};
ghost use Rattle.le.specs.Le.{u16_at};
ghost use Rattle.layout.specs.Table.{entries};
ghost use Rattle.strings.specs.Texts.{text_spot};
ghost use Rattle.strings.specs.inner.Held.{Here};
ghost use Rattle.strings.specs.inner.Lent.{lent_table};
ghost use Rattle.strings.specs.inner.Ahead.{Stood, SeenBefore, ReadAhead, Ahead};

use crate::spot::Spot;
use crate::{StringTable, entry, fields, spot};

// The spot of an entry's text, what touch_whole reads there, and from which entry on those before it are known to have other texts.
#[derive(Clone, Copy)]
pub struct PrefetchedText {
    pub spot: Option<Spot>,
    pub seen: usize,
    pub from: usize,
}

// The character before the n at p, plus 65,536 times the mean of two further on, where there are so many. The mean has no meaning: the
// two are read only so that most of a text is near, however long it is.
pub fn touch(b: &[u8], p: usize, n: usize) -> usize
    requires { (2 ≤ p) × (0 < n) × (p + 2 * n ≤ length b.now) }
    ensures { (result % 65536 ≡ u16_at b.now (p - 2)) × (result < 2 ^ 32) }
{
    let before = le::u16_at(b, p - 2);
    if n > 47 {
        return before + 65536 * ((le::u16_at(b, p + 62) + le::u16_at(b, p + 94)) / 2);
    }
    before
}

// The character before a text, plus 65,536 times a number without meaning: the text is read at its end, by the length that its entry tells,
// and in its middle if it is long.
fn touch_whole(b: &[u8], spot: Spot, len: usize) -> usize
    requires { (2 ≤ spot.at) × (0 < spot.left) × (spot.at + 2 * spot.left ≤ length b.now) }
    ensures { result % 65536 ≡ u16_at b.now (spot.at - 2) }
{
    let first = spot.at - 2;
    let all = len.min(spot.left);
    let most = all.min(32);
    le::u16_at(b, first)
        + 65536 * (le::u16_at(b, first + 2 * all) + le::u16_at(b, first + 2 * most))
}

// Whether a text can begin at element el of its segment, by what was seen before it: the character there, plus 65,536 times any number.
pub fn can_begin(el: usize, seen: usize) -> bool
    ensures { Tells ((el ≡ 0) ⊎ (seen % 65536 ≡ 0)) result }
{
    el == 0 || seen % 65536 == 0
}

// The spot of the text of entry j of bucket k.
fn text_spot(table: &StringTable, k: usize, j: usize) -> Option<Spot>
    requires { Here (lent_table table.now) k j }
    ensures { result ≡ text_spot (lent_table table.now) k j }
{
    let e = entry::entry_at(table, k, j);
    spot::entry_spot(table.file, table.parts.chars, table.segments, e)
}

// The spots of the texts of m entries of bucket k from j on.
fn find_spots(table: &StringTable, k: usize, j: usize, m: usize, spots: &mut [Option<Spot>; 64])
    requires { (k < length table.now.buckets.now) × (j + m ≤ entries (lent_table table.now) k) × (m ≤ 64) }
    ensures { Stood (lent_table table.now) k j m spots.new }
{
    for i in 0..m {
        spots[i] = text_spot(table, k, j + i);
    }
}

// What touch_whole reads of them. This is where the memory is waited for, so little else is done here: the fewer the instructions between
// two reads, the more of them the processor has under way.
fn load_ahead(
    table: &StringTable,
    k: usize,
    j: usize,
    m: usize,
    spots: &[Option<Spot>; 64],
    seen: &mut [usize; 64],
)
    requires { (k < length table.now.buckets.now) × (j + m ≤ entries (lent_table table.now) k) × (m ≤ 64) × Stood (lent_table table.now) k j m spots.now }
    ensures { SeenBefore table.now.file.now m spots.now seen.new }
{
    for i in 0..m {
        if let Some(spot) = spots[i] {
            let e = entry::entry_at(table, k, j + i);
            seen[i] = touch_whole(table.file, spot, fields::length(table.file, e));
        }
    }
}

// Sees to it that entry j of bucket k, which has n, is prefetched: at each multiple of 64 it and the 63 behind it are, as far as there are
// so many.
pub(crate) fn keep_ahead(
    table: &StringTable,
    k: usize,
    n: usize,
    j: usize,
    spots: &mut [Option<Spot>; 64],
    seen: &mut [usize; 64],
)
    requires { (k < length table.now.buckets.now) × (n ≡ entries (lent_table table.now) k) × (j ≤ n) × Ahead (lent_table table.now) k j spots.old seen.old }
    ensures { ReadAhead (lent_table table.now) k (j - j % 64) spots.new seen.new }
{
    if j % 64 != 0 {
        return;
    }
    let m = (n - j).min(64);
    find_spots(table, k, j, m, spots);
    load_ahead(table, k, j, m, spots, seen);
}
