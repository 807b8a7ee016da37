// Segmented regions: refusals 2 and 5 along one, and addresses found through samples of its segment starts.
#![tactic(auto)]

ghost use Rattle.std.specs.Prelude.{◌≡◌, ◌+◌, ◌*◌, ◌≤◌, ◌<◌, ◌^◌, length};
ghost use Rattle.le.specs.Le.{u32_at};
ghost use Rattle.verdict.specs.Checks.{first_fault};
ghost use Rattle.verdict.specs.inner.Gives.{Ends};
ghost use Rattle.region.specs.Region.{Laid, start_of, end_of, total_of, range_at, number_of};
ghost use Rattle.region.specs.Checks.{segment_checks, region_checks};
ghost use Rattle.region.specs.inner.Samples.{Mapped, Starts, Counts};

use verdict::{Refusal, Rule};

// The bytes of a count. A region starts with its segment count, a segment with its full count and its used count.
pub const COUNT_SIZE: usize = 4;

// The bytes before a segment's elements.
pub const SEGMENT_HEADER: usize = 8;

// So many segment starts of a region are kept: those of all segments, or of every second, fourth ..
pub const SAMPLES: usize = 1024;

// A region of the file: its offset, its segment count, and how its samples are spaced.
#[derive(Clone, Copy, Debug, PartialEq, Eq)]
pub struct Region {
    pub at: usize,
    pub count: usize,
    pub shift: u32,
    pub mask: usize,
}

// Where the first segment starts.
pub fn first_start(r: Region) -> usize
    requires { r.at < 2 ^ 32 }
    ensures { result ≡ r.at + 4 }
{
    r.at + COUNT_SIZE
}

// The used count of the segment at p.
pub fn used_count(b: &[u8], p: usize) -> usize
    requires { p + 8 ≤ length b.now }
    ensures { (result ≡ u32_at b.now (p + 4)) × (result < 2 ^ 32) }
{
    le::u32_at(b, p + COUNT_SIZE)
}

// Where the segment behind the one at p starts.
pub fn next_start(b: &[u8], p: usize, size: usize) -> usize
    requires { p + 8 + u32_at b.now p * size ≤ length b.now }
    ensures { result ≡ p + 8 + u32_at b.now p * size }
{
    p + SEGMENT_HEADER + le::u32_at(b, p) * size
}

// Refusals 2 and 5 of segment s, which starts at p.
fn check_segment(b: &[u8], at: usize, size: usize, s: usize, p: usize) -> Result<usize, Refusal>
    requires { (size ≤ 24) × (p ≡ start_of size b.now at s) × (p ≤ length b.now) }
    ensures { Ends (first_fault (segment_checks size b.now at s)) (start_of size b.now at (s + 1)) result }
{
    if b.len() - p < COUNT_SIZE {
        return Err(Refusal(Rule::CutShort, p));
    }
    let full = le::u32_at(b, p);
    if full > 65535 {
        return Err(Refusal(Rule::Count, p));
    }
    let u = p + COUNT_SIZE;
    if b.len() - u < COUNT_SIZE {
        return Err(Refusal(Rule::CutShort, u));
    }
    let used = le::u32_at(b, u);
    if used > full {
        return Err(Refusal(Rule::Count, u));
    }
    let e = p + SEGMENT_HEADER;
    let bytes = full * size;
    if b.len() - e < bytes {
        return Err(Refusal(Rule::CutShort, e));
    }
    Ok(e + bytes)
}

// Refusals 2 and 5 of the region at an offset, or where it ends. Not inlined: where four of these loops stand in one function, the compiler keeps
// the offset of one in memory.
#[inline(never)]
pub fn lay(b: &[u8], at: usize, size: usize) -> Result<usize, Refusal>
    requires { (at ≤ length b.now) × (size ≤ 24) }
    ensures { Ends (first_fault (region_checks size b.now at)) (end_of size b.now at) result }
{
    if b.len() - at < COUNT_SIZE {
        return Err(Refusal(Rule::CutShort, at));
    }
    let n = le::u32_at(b, at);
    if n > 65535 {
        return Err(Refusal(Rule::Count, at));
    }
    let mut p = at + COUNT_SIZE;
    for s in 0..n {
        p = check_segment(b, at, size, s, p)?;
    }
    Ok(p)
}

// The region at an offset that is laid, with the widest spacing of samples that its segments need.
pub fn mapped(b: &[u8], at: usize, size: usize) -> Region
    requires { (1 ≤ size) × (size ≤ 24) × (length b.now < 2 ^ 32) × Laid size b.now at }
    ensures { Mapped size b.now at result }
{
    let count = le::u32_at(b, at);
    let spacing = count.div_ceil(SAMPLES).next_power_of_two();
    Region {
        at,
        count,
        shift: spacing.ilog2(),
        mask: spacing - 1,
    }
}

// Fills the samples of segment starts.
pub fn sample_starts(b: &[u8], r: Region, size: usize, segments: &mut [u32; SAMPLES])
    requires { Mapped size b.now r.at r × (length segments.old ≡ 1024) }
    ensures { Starts size b.now r.at r.shift segments.new }
{
    let mask = r.mask;
    let mut p = first_start(r);
    for s in 0..r.count {
        if s & mask == 0 {
            segments[s >> r.shift] = p as u32;
        }
        p = next_start(b, p, size);
    }
}

// Fills the samples of used elements before a segment, and answers how many used elements there are. A walk of its own: for most regions only the
// starts are kept.
pub fn sample_counts(b: &[u8], r: Region, size: usize, counts: &mut [u32; SAMPLES]) -> usize
    requires { Mapped size b.now r.at r × (length counts.old ≡ 1024) }
    ensures { (result ≡ total_of size b.now r.at) × Counts size b.now r.at r.shift counts.new }
{
    let mask = r.mask;
    let mut p = first_start(r);
    let mut n = 0;
    for s in 0..r.count {
        if s & mask == 0 {
            counts[s >> r.shift] = n as u32;
        }
        n += used_count(b, p);
        p = next_start(b, p, size);
    }
    n
}

// Where segment seg starts: from the sample before it, at most mask headers on.
pub fn locate(b: &[u8], r: Region, size: usize, segments: &[u32; SAMPLES], seg: usize) -> usize
    requires { Mapped size b.now r.at r × Starts size b.now r.at r.shift segments.now × (seg < r.count) }
    ensures { result ≡ start_of size b.now r.at seg }
{
    let mut p = segments[seg >> r.shift] as usize;
    for _ in 0..seg & r.mask {
        p = next_start(b, p, size);
    }
    p
}

// Where n elements from seg:el on stand, if they lie within one segment's used part. A single address is a range of one.
pub fn range_at(
    b: &[u8],
    r: Region,
    size: usize,
    segments: &[u32; SAMPLES],
    seg: usize,
    el: usize,
    n: usize,
) -> Option<usize>
    requires mapped { Mapped size b.now r.at r × Starts size b.now r.at r.shift segments.now }
    requires el_bound { (el < 65536) × (n < 65536) }
    ensures { result ≡ range_at size b.now r.at seg el n }
{
    if seg >= r.count {
        return None;
    }
    let p = locate(b, r, size, segments, seg);
    if el + n > used_count(b, p) {
        return None;
    }
    Some(p + SEGMENT_HEADER + el * size)
}

// The running number of seg:el among the used elements. One walk finds the segment and counts.
pub fn number(
    b: &[u8],
    r: Region,
    size: usize,
    segments: &[u32; SAMPLES],
    counts: &[u32; SAMPLES],
    seg: usize,
    el: usize,
) -> usize
    requires mapped { Mapped size b.now r.at r × Starts size b.now r.at r.shift segments.now × Counts size b.now r.at r.shift counts.now }
    requires seg_lt_count { (seg < r.count) × (el < 65536) }
    ensures { result ≡ number_of size b.now r.at seg el }
{
    let k = seg >> r.shift;
    let mut p = segments[k] as usize;
    let mut n = counts[k] as usize;
    for _ in 0..seg & r.mask {
        n += used_count(b, p);
        p = next_start(b, p, size);
    }
    n + el
}
