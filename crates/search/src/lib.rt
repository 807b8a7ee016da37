// The search of a bucket by hash, in a string table whose entries passed 7 to 12: by halving, and for many hashes at once first where each
// is to be expected. The hashes of an ordinary file are spread evenly, so that about h * n / 2^32 of a bucket's n entries stand before h.
#![tactic(auto)]

ghost use Rattle.std.specs.Prelude.{◌≤◌, ◌<◌, ◌^◌, length};
ghost use Rattle.laws.specs.Halving.{Rounds};
ghost use Rattle.strings.specs.inner.Lent.{lent_table};
ghost use Rattle.search.specs.inner.LowerBound.{Halved};

pub mod group;
mod near;
mod pending;
pub mod run;

use strings::{StringTable, entry, fields};

// No bucket has 2 to the 31 entries: a file has at most 2 to the 30 bytes.
const MOST_ROUNDS: usize = 31;

// What is left of a search: the entries from lo on and before hi. Not a Range, which is not Copy.
#[derive(Clone, Copy, Default)]
struct Bounds {
    lo: usize,
    hi: usize,
}

// Where a hash h is to be expected among n, when w was met at place g: about (h - w) * n / 2^32 entries further on. Counted with n more, so
// that nothing hangs on which of h and w is larger: that goes one way as often as the other, and a processor would guess it wrong.
fn expected(n: usize, h: usize, g: usize, w: usize) -> usize
    requires { (1 ≤ n) × (n ≤ 2 ^ 30) × (h < 2 ^ 32) × (g < 2 ^ 32) × (w < 2 ^ 32) }
    ensures { result < n }
{
    let r = g + (((h + 4294967296 - w) * n) >> 32);
    r.saturating_sub(n).min(n - 1)
}

// The least k with 2 to the k above n.
fn rounds(n: usize) -> usize
    requires { n ≤ 2 ^ 30 }
    ensures { Rounds n result }
{
    let mut k = 0usize;
    let mut p = 1usize;
    // p is 2 to the k.
    while p <= n {
        p = p * 2;
        k += 1;
    }
    k
}

// The first entry of bucket k whose hash is not below h, or the number of entries, by halving. `left` is the number of rounds left; a
// round reads one entry.
pub fn lower_bound(table: &StringTable, k: usize, h: usize) -> usize
    requires { k < length table.now.buckets.now }
    ensures { Halved (lent_table table.now) k h result }
{
    let mut lo = 0;
    let mut hi = entry::entry_count(table, k);
    let mut left = rounds(hi);
    // `left` counts down from the number of rounds, which the contract speaks of (request T-03).
    while lo < hi {
        left -= 1;
        let mid = lo + (hi - lo) / 2;
        let e = entry::entry_at(table, k, mid);
        if fields::hash(table.file, e) < h {
            lo = mid + 1;
        } else {
            hi = mid;
        }
    }
    lo
}
