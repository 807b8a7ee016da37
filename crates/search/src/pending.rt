// Searches of many hashes that go on side by side: each pass makes one round of the halving for every hash that is not found yet, so that
// no round waits for the one before.
ghost use Rattle.std.specs.Prelude.{◌≡◌, ◌-◌, ◌≤◌, ◌<◌, length};
ghost use Rattle.strings.specs.inner.Lent.{lent_table};
ghost use Rattle.hash.specs.Hash.{bucket_of};
ghost use Rattle.search.specs.inner.LowerBound.{Near, Searching};
ghost use Rattle.search.specs.inner.Group.{AllSearching, ListedBelow, Gathered, Looked, AllNear};

use crate::Bounds;
use strings::{StringTable, entry, fields};

// One round of the halving for hash h, if something is left: one entry is read.
fn halve(table: &StringTable, h: usize, x: Bounds) -> Bounds
    requires { Searching (lent_table table.now) (bucket_of (length table.now.buckets.now) h) h x }
    ensures { Searching (lent_table table.now) (bucket_of (length table.now.buckets.now) h) h result × (x.lo < x.hi → result.hi - result.lo < x.hi - x.lo) }
{
    if x.hi <= x.lo {
        return x;
    }
    let k = hash::bucket(h, table.buckets.len());
    let mid = x.lo + (x.hi - x.lo) / 2;
    let e = entry::entry_at(table, k, mid);
    if fields::hash(table.file, e) < h {
        return Bounds { lo: mid + 1, ..x };
    }
    Bounds { hi: mid, ..x }
}

// Halves what is left of the searches of n hashes, side by side, until all are found.
fn halve_all(table: &StringTable, hashes: &[u32; 64], n: usize, left: &mut [Bounds; 64])
    requires { (n ≤ 64) × (length hashes.now ≡ 64) × AllSearching (lent_table table.now) hashes.now n left.old }
    ensures { AllSearching (lent_table table.now) hashes.now n left.new }
{
    for _ in 0..crate::MOST_ROUNDS {
        let mut more = false;
        for j in 0..n {
            let x = halve(table, le::wide(hashes[j]), left[j]);
            left[j] = x;
            if x.lo < x.hi {
                more = true;
            }
        }
        if !more {
            return;
        }
    }
}

// Where hash h stands in its bucket: what is left of the search is halved until nothing is.
fn finish(table: &StringTable, h: usize, left: Bounds) -> usize
    requires { Searching (lent_table table.now) (bucket_of (length table.now.buckets.now) h) h left }
    ensures { Near (lent_table table.now) (bucket_of (length table.now.buckets.now) h) h result }
{
    let mut x = left;
    while x.lo < x.hi {
        x = halve(table, h, x);
    }
    x.lo
}

// The hashes at the first m places of a list.
fn gather(hashes: &[u32; 64], which: &[usize; 64], m: usize, rest: &mut [u32; 64])
    requires { (length hashes.now ≡ 64) × ListedBelow 64 m which.now × (length rest.old ≡ 64) }
    ensures { Gathered hashes.now which.now m rest.new }
{
    for i in 0..m {
        rest[i] = hashes[which[i]];
    }
}

// Begins the search of each of n hashes: its whole bucket is left.
fn begin_each(table: &StringTable, hashes: &[u32; 64], n: usize, left: &mut [Bounds; 64])
    requires { (n ≤ 64) × (length hashes.now ≡ 64) × (length left.old ≡ 64) }
    ensures { AllSearching (lent_table table.now) hashes.now n left.new }
{
    for j in 0..n {
        let k = hash::bucket(le::wide(hashes[j]), table.buckets.len());
        left[j] = Bounds {
            lo: 0,
            hi: entry::entry_count(table, k),
        };
    }
}

// Finds n hashes by halving, side by side.
pub fn find_all(table: &StringTable, hashes: &[u32; 64], n: usize, low: &mut [usize; 64])
    requires { (length hashes.now ≡ 64) × (n ≤ 64) × (length low.old ≡ 64) }
    ensures { AllNear (lent_table table.now) hashes.now n low.new }
{
    let mut left = [Bounds::default(); 64];
    begin_each(table, hashes, n, &mut left);
    halve_all(table, hashes, n, &mut left);
    for j in 0..n {
        low[j] = finish(table, le::wide(hashes[j]), left[j]);
    }
}

// Finds by halving those of n hashes that are not found yet: the first m of a list.
pub fn find_rest(
    table: &StringTable,
    hashes: &[u32; 64],
    n: usize,
    which: &[usize; 64],
    m: usize,
    low: &mut [usize; 64],
)
    requires { (length hashes.now ≡ 64) × (n ≤ 64) × Looked (lent_table table.now) hashes.now n low.old which.now m 0 }
    ensures { AllNear (lent_table table.now) hashes.now n low.new }
{
    let mut rest = [0u32; 64];
    gather(hashes, which, m, &mut rest);
    let mut found = [0usize; 64];
    find_all(table, &rest, m, &mut found);
    for i in 0..m {
        low[which[i]] = found[i];
    }
}
