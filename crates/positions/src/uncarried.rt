// The first list position that no entry carries, in a table that has fewer entries than list positions.
ghost use Rattle.std.specs.Prelude.{◌≡◌, ◌+◌, ◌≤◌, ◌<◌, length};
ghost use Rattle.verdict.specs.Checks.{first_fault};
ghost use Rattle.verdict.specs.Verdict.{Accepted};
ghost use Rattle.layout.specs.Table.{entries, count};
ghost use Rattle.strings.specs.Order.{all_entry_checks};
ghost use Rattle.strings.specs.inner.Lent.{lent_table};
ghost use Rattle.positions.specs.inner.Total.{all_entries, below_in, all_below, FirstUncarried};

use strings::{StringTable, entry, fields};

// How many entries of bucket k carry an index below m.
fn count_carrying_in(table: &StringTable, k: usize, m: usize) -> usize
    requires { k < length table.now.buckets.now }
    ensures { (result ≡ below_in (lent_table table.now) m k)
        × (result ≤ entries (lent_table table.now) k) }
{
    let n = entry::entry_count(table, k);
    let mut c = 0usize;
    for j in 0..n {
        let e = entry::entry_at(table, k, j);
        if fields::index(table.file, e) < m {
            c += 1;
        }
    }
    c
}

// How many entries of the table carry one.
fn count_carrying(table: &StringTable, m: usize) -> usize
    ensures { (result ≡ all_below (lent_table table.now) m)
        × (result ≤ all_entries (lent_table table.now)) }
{
    let mut c = 0usize;
    for k in 0..table.buckets.len() {
        c += count_carrying_in(table, k, m);
    }
    c
}

// The first of n list positions that no entry carries. No two entries carry one index, so all positions below m are carried exactly where as
// many entries carry an index below m: that is searched by halving, with a pass over the entries for each round.
pub fn first_uncarried(table: &StringTable, n: usize) -> usize
    requires { (first_fault (all_entry_checks (lent_table table.now)) ≡ Accepted) × (n ≡ count (lent_table table.now)) × (all_entries (lent_table table.now) + 1 < n) }
    ensures { FirstUncarried (lent_table table.now) result }
{
    let mut lo = 1usize;
    let mut hi = n;
    while lo + 1 < hi {
        let mid = lo + (hi - lo) / 2;
        if count_carrying(table, mid) + 1 == mid {
            lo = mid;
        } else {
            hi = mid;
        }
    }
    lo
}
