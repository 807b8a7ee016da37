// Refusals 2 and 5 along a string table, and where its buckets start.
ghost use Rattle.std.specs.Prelude.{◌≡◌, ◌+◌, ◌≤◌, length};
ghost use Rattle.verdict.specs.Checks.{first_fault};
ghost use Rattle.verdict.specs.inner.Gives.{Ends};
ghost use Rattle.layout.specs.Table.{table, bucket_at, list_at, table_end, bucket_checks, list_checks};
ghost use Rattle.layout.specs.inner.Scanned.{BucketsScanned, TableScanned};

use crate::CHARACTER_SIZE;
use verdict::{Refusal, Rule};

// Bucket k of n, which starts at p.
fn check_bucket(b: &[u8], at: usize, n: usize, k: usize, p: usize) -> Result<usize, Refusal>
    requires { (p ≡ bucket_at (table b.now at n) k) × (p ≤ length b.now) }
    ensures { Ends (first_fault (bucket_checks (table b.now at n) k)) (bucket_at (table b.now at n) (k + 1)) result }
{
    if b.len() - p < 4 {
        return Err(Refusal(Rule::CutShort, p));
    }
    let count = le::u32_at(b, p);
    let e = p + 4;
    if b.len() - e < 16 * count {
        return Err(Refusal(Rule::CutShort, e));
    }
    Ok(e + 16 * count)
}

// All buckets, the first at p: each one's start is kept.
fn check_buckets(b: &[u8], at: usize, from: usize, buckets: &mut [u32]) -> Result<usize, Refusal>
    requires { (from ≡ bucket_at (table b.now at (length buckets.old)) 0) × (from ≤ length b.now) × (length b.now ≤ 1073741824) }
    ensures { BucketsScanned (table b.now at (length buckets.old)) result buckets.new }
{
    let n = buckets.len();
    let mut p = from;
    for (k, start) in buckets.iter_mut().enumerate() {
        *start = p as u32;
        p = check_bucket(b, at, n, k, p)?;
    }
    Ok(p)
}

// The address list at p.
fn check_list(b: &[u8], at: usize, n: usize, p: usize, most: usize) -> Result<usize, Refusal>
    requires { (p ≡ list_at (table b.now at n)) × (p ≤ length b.now) }
    ensures { Ends (first_fault (list_checks (table b.now at n) most)) (table_end (table b.now at n)) result }
{
    if b.len() - p < 4 {
        return Err(Refusal(Rule::CutShort, p));
    }
    let count = le::u32_at(b, p);
    if count < 1 {
        return Err(Refusal(Rule::Count, p));
    }
    if count > most {
        return Err(Refusal(Rule::Count, p));
    }
    let e = p + 4;
    let bytes = 4 * (count - 1);
    if b.len() - e < bytes {
        return Err(Refusal(Rule::CutShort, e));
    }
    Ok(e + bytes)
}

// Where a table's address count stands, and where the table ends.
#[derive(Clone, Copy)]
pub struct TableEnds {
    pub list: usize,
    pub end: usize,
}

// The table at an offset, of as many buckets as there are starts to fill.
pub fn scan_table(
    b: &[u8],
    at: usize,
    buckets: &mut [u32],
    most: usize,
) -> Result<TableEnds, Refusal>
    requires { (at ≤ length b.now) × (length b.now ≤ 1073741824) }
    ensures { TableScanned (table b.now at (length buckets.old)) most result buckets.new }
{
    let n = buckets.len();
    let from = region::lay(b, at, CHARACTER_SIZE)?;
    let list = check_buckets(b, at, from, buckets)?;
    let end = check_list(b, at, n, list, most)?;
    Ok(TableEnds { list, end })
}
