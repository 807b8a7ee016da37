// Refusal 11, first for all entries. An index leads anywhere in the address list, which is small beside the texts: in a pass of its own the
// list stays near, where between texts it would be read from afar each time.
ghost use Rattle.std.specs.Prelude.{◌<◌, length};
ghost use Rattle.verdict.specs.inner.Tells.{Sure};
ghost use Rattle.strings.specs.inner.Lent.{lent_table};
ghost use Rattle.strings.specs.inner.Ahead.{BucketIndexed, AllIndexed};

use crate::{StringTable, entry};

// Whether the indices of bucket k are right.
fn bucket_listed(table: &StringTable, k: usize) -> bool
    requires { k < length table.now.buckets.now }
    ensures { Sure (BucketIndexed (lent_table table.now) k) result }
{
    let n = entry::entry_count(table, k);
    (0..n).all(|j| entry::indexed(table, k, j))
}

// Whether those of every bucket are. False tells only that some entry is at fault, and not which fault comes first.
pub fn all_listed(table: &StringTable) -> bool
    ensures { Sure (AllIndexed (lent_table table.now)) result }
{
    // A copy of its own, whose parts the compiler keeps in registers: most buckets of a small file are empty, and the loop is all that they cost.
    let own = *table;
    (0..own.buckets.len()).all(|k| bucket_listed(&own, k))
}
