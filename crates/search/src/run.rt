// The entries of a bucket that have one hash.
ghost use Rattle.std.specs.Prelude.{◌+◌, ◌≤◌, ◌<◌, ◌≡◌, length};
ghost use Rattle.verdict.specs.Checks.{first_fault};
ghost use Rattle.verdict.specs.Verdict.{Accepted};
ghost use Rattle.strings.specs.Order.{all_entry_checks};
ghost use Rattle.strings.specs.inner.Lent.{lent_table};
ghost use Rattle.search.specs.inner.LowerBound.{LowerBound};
ghost use Rattle.search.specs.inner.Run.{Meets};

use strings::{StringTable, entry, fields};

// Whether an entry of bucket k with hash h has w in the field at `field`: fields::INDEX_AT, or fields::ADDRESS_AT. `low` is where h stands in the
// bucket, or would. Among equal hashes all are read.
pub fn run_has(table: &StringTable, k: usize, h: usize, low: usize, field: usize, w: usize) -> bool
    requires { (k < length table.now.buckets.now) × (first_fault (all_entry_checks (lent_table table.now)) ≡ Accepted) × LowerBound (lent_table table.now) k h low × (field + 4 ≤ 16) }
    ensures { Meets (lent_table table.now) k h field w result }
{
    let n = entry::entry_count(table, k);
    for j in low..n {
        let e = entry::entry_at(table, k, j);
        if fields::hash(table.file, e) != h {
            return false;
        }
        if le::u32_at(table.file, e + field) == w {
            return true;
        }
    }
    false
}
