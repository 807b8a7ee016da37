// The places of many hashes at once. Where a table is large, each look at an entry waits for memory; the steps here go over all hashes
// of a group, so that the waits of different hashes overlap. A step that looks does nothing else: the fewer the instructions between two
// looks, the more of them the processor has under way.
ghost use Rattle.std.specs.Prelude.{◌≡◌, ◌+◌, ◌≤◌, ◌<◌, ◌^◌, length};
ghost use Rattle.verdict.specs.Checks.{first_fault};
ghost use Rattle.verdict.specs.inner.Tells.{Tells};
ghost use Rattle.verdict.specs.Verdict.{Accepted};
ghost use Rattle.layout.specs.Table.{bucket_at};
ghost use Rattle.strings.specs.Order.{all_entry_checks};
ghost use Rattle.strings.specs.inner.Lent.{lent_table};
ghost use Rattle.search.specs.inner.Group.{LowerBounds, Looked, Readable, Within, Lengths};

use crate::{near, pending};
use strings::{StringTable, entry};

// After a group of which most estimates were of no use, as many groups go without.
const SKIPPED: usize = 15;

// Whether the buckets of a table take that many bytes: where they do, most looks at what they lead to would wait for memory.
pub fn spread(table: &StringTable, bytes: usize) -> bool
    ensures { Tells (bucket_at (lent_table table.now) 0 + bytes ≤ table.now.parts.list) result }
{
    table.parts.list - le::wide(table.buckets[0]) >= bytes
}

// Some entries in a row that a hash is to be expected among: the number of the first, and where the first and the last of them stand.
#[derive(Clone, Copy, Default)]
struct Window {
    start: u32,
    first: u32,
    last: u32,
}

// M entries for hash h when w was met at place g of its bucket. Of a bucket of fewer it is the bucket's count twice: it can be read, too.
fn window_at<const M: usize>(table: &StringTable, h: usize, g: usize, w: usize) -> Window
    requires { (h < 2 ^ 32) × (g < 2 ^ 32) × (w < 2 ^ 32) × (1 ≤ M) }
    ensures { Readable table.now.file.now result }
{
    let k = hash::bucket(h, table.buckets.len());
    let n = entry::entry_count(table, k);
    if n < M {
        return Window {
            start: 0,
            first: table.buckets[k],
            last: table.buckets[k],
        };
    }
    let r = crate::expected(n, h, g, w);
    let f = r.saturating_sub(M / 2).min(n - M);
    let e = entry::entry_at(table, k, f);
    let l = entry::entry_at(table, k, f + M - 1);
    Window {
        start: f as u32,
        first: e as u32,
        last: l as u32,
    }
}

// M entries for each hash, from where it was looked for before.
fn find_windows<const M: usize>(
    table: &StringTable,
    hashes: &[u32; 64],
    n: usize,
    met: &[u32; 64],
    windows: &mut [Window; 64],
)
    requires { (n ≤ 64) × Lengths hashes.now met.now windows.old × (1 ≤ M) }
    ensures { Within table.now.file.now n windows.new }
{
    for j in 0..n {
        windows[j] = window_at::<M>(
            table,
            le::wide(hashes[j]),
            le::wide(windows[j].start),
            le::wide(met[j]),
        );
    }
}

// Looks at the first entry of each window, or at the last. The hashes that are met there fill two arrays, not one of pairs: a loop that fills
// both would look twice where one look is enough.
fn probe<const LAST: bool>(b: &[u8], n: usize, windows: &[Window; 64], met: &mut [u32; 64])
    requires { (n ≤ 64) × Within b.now n windows.now × (length met.old ≡ 64) }
    ensures { length met.new ≡ 64 }
{
    for j in 0..n {
        let at = if LAST {
            windows[j].last
        } else {
            windows[j].first
        };
        met[j] = le::u32_at(b, le::wide(at)) as u32;
    }
}

// Eight entries for each hash, with the first and the last hash of them. One entry for each is looked at first, from nowhere and then from what was
// met there. In a table of less than a megabyte one look is enough.
fn probe_windows(
    table: &StringTable,
    hashes: &[u32; 64],
    n: usize,
    windows: &mut [Window; 64],
    least: &mut [u32; 64],
    most: &mut [u32; 64],
)
    requires { (n ≤ 64) × (length hashes.now ≡ 64) × Lengths windows.old least.old most.old }
    ensures { Lengths windows.new least.new most.new }
{
    find_windows::<1>(table, hashes, n, least, windows);
    probe::<false>(table.file, n, windows, least);
    if spread(table, 1048576) {
        find_windows::<1>(table, hashes, n, least, windows);
        probe::<false>(table.file, n, windows, least);
    }
    find_windows::<8>(table, hashes, n, least, windows);
    probe::<false>(table.file, n, windows, least);
    probe::<true>(table.file, n, windows, most);
}

// Where to look for h when eight entries from g on have hashes from `least` to `most`: there, or seven entries on or back.
// Counted with seven more, so that no branch is needed: which way it goes cannot be predicted.
fn shifted(h: usize, g: usize, least: usize, most: usize) -> usize
    requires { g < 2 ^ 32 }
    ensures { result < 2 ^ 32 }
{
    let mut r = g + 7;
    if most < h {
        r += 7;
    }
    if h <= least {
        r -= 7;
    }
    r.saturating_sub(7) % 4294967296
}

// The same for each hash.
fn shift_each(
    hashes: &[u32; 64],
    n: usize,
    windows: &[Window; 64],
    least: &[u32; 64],
    most: &[u32; 64],
    estimate: &mut [u32; 64],
)
    requires { (n ≤ 64) × (length hashes.now ≡ 64) × Lengths windows.now least.now most.now × (length estimate.old ≡ 64) }
    ensures { length estimate.new ≡ 64 }
{
    for j in 0..n {
        let g = shifted(
            le::wide(hashes[j]),
            le::wide(windows[j].start),
            le::wide(least[j]),
            le::wide(most[j]),
        );
        estimate[j] = g as u32;
    }
}

// A guess for each hash: where eight entries are to be read. In a table of less than 64 kilobytes nothing is read for it: it is near as it is.
fn estimate_windows(table: &StringTable, hashes: &[u32; 64], n: usize, estimate: &mut [u32; 64])
    requires { (n ≤ 64) × (length hashes.now ≡ 64) × (length estimate.old ≡ 64) }
    ensures { length estimate.new ≡ 64 }
{
    if !spread(table, 65536) {
        return;
    }
    let mut windows = [Window::default(); 64];
    let mut least = [0u32; 64];
    let mut most = [0u32; 64];
    probe_windows(table, hashes, n, &mut windows, &mut least, &mut most);
    shift_each(hashes, n, &windows, &least, &most, estimate);
}

// Looks for each hash where it is guessed to stand. Answers how many are not found so, and lists these.
fn probe_each(
    table: &StringTable,
    hashes: &[u32; 64],
    n: usize,
    estimate: &[u32; 64],
    low: &mut [usize; 64],
    which: &mut [usize; 64],
) -> usize
    requires { (n ≤ 64) × (length hashes.now ≡ 64) × Lengths estimate.now low.old which.old }
    ensures { Looked (lent_table table.now) hashes.now n low.new which.new result 0 }
{
    let mut m = 0;
    for j in 0..n {
        let h = le::wide(hashes[j]);
        let k = hash::bucket(h, table.buckets.len());
        let told = near::probe_near(table, k, h, le::wide(estimate[j]));
        // Written before it is known whether it stays, so that no branch is needed.
        low[j] = told.unwrap_or(0);
        which[m] = j;
        if told.is_none() {
            m += 1;
        }
    }
    m
}

// The places of the first n hashes, each in its bucket. The next `skipped` groups are halved without an estimate. Answers how many are left of
// these, or how many are to be next: some where most estimates were of no use, so that these cost little where hashes are not spread evenly.
pub fn lower_bounds(
    table: &StringTable,
    hashes: &[u32; 64],
    n: usize,
    skipped: usize,
    low: &mut [usize; 64],
) -> usize
    requires { (first_fault (all_entry_checks (lent_table table.now)) ≡ Accepted) × (n ≤ 64) × (length hashes.now ≡ 64) × (length low.old ≡ 64) }
    ensures { LowerBounds (lent_table table.now) hashes.now n low.new }
{
    if skipped > 0 {
        pending::find_all(table, hashes, n, low);
        return skipped - 1;
    }
    let mut estimate = [0u32; 64];
    estimate_windows(table, hashes, n, &mut estimate);
    let mut which = [0usize; 64];
    let m = probe_each(table, hashes, n, &estimate, low, &mut which);
    if m == 0 {
        return 0;
    }
    pending::find_rest(table, hashes, n, &which, m, low);
    if n < 2 * m { SKIPPED } else { 0 }
}
