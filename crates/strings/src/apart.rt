// Duplicates among many entries with one hash (12). To compare each with all before it takes time that grows with the square of their number. Here
// the fingerprints of 8,192 texts at a time are collected, and each later entry is compared only with those of its own fingerprint: n entries take
// n / 8,192 rounds. Refusals 7 to 9 are not looked for yet when an entry is compared, so what is found holds only if its text is right.
ghost use Rattle.std.specs.Prelude.{◌≡◌, ◌+◌, ◌≤◌, ◌<◌, length};
ghost use Rattle.multimap.specs.inner.Multimap.{Filled};
ghost use Rattle.layout.specs.Table.{entries};
ghost use Rattle.strings.specs.inner.Held.{Here};
ghost use Rattle.strings.specs.inner.Lent.{lent_table};
ghost use Rattle.strings.specs.inner.Apart.{Apart, Fingerprinted, Collected, Met, Sifted, Clear, AwayWithin};

use crate::{StringTable, entry, fields, spot};

// Entries of one bucket that have different texts: those from start on, before end. Not a Range, which is not Copy.
#[derive(Clone, Copy)]
pub struct Span {
    pub start: usize,
    pub end: usize,
}

// What a round finds: how many entries it collected, and before which entry each of them has a text of its own.
#[derive(Clone, Copy)]
pub struct Round {
    pub collected: usize,
    pub clear: usize,
}

// The fingerprint of the text of entry j. The length is that which the entry tells. Where the text is not right, any number does.
fn fingerprint_at(table: &StringTable, k: usize, j: usize) -> usize
    requires { Here (lent_table table.now) k j }
    ensures { Fingerprinted (lent_table table.now) k j result }
{
    let e = entry::entry_at(table, k, j);
    let Some(spot) = spot::entry_spot(table.file, table.parts.chars, table.segments, e) else {
        return 0;
    };
    let length = fields::length(table.file, e);
    if length == 0 || length > spot.left + 1 {
        return 0;
    }
    text::fingerprint::fingerprint(table.file, spot.at, length - 1)
}

// Whether entry j, whose fingerprint is x, may have the text of one of the n collected entries, those from `from` on.
fn met(
    table: &StringTable,
    k: usize,
    from: usize,
    n: usize,
    j: usize,
    x: usize,
    map: &[u16; 20480],
) -> bool
    requires { Here (lent_table table.now) k j × (from + n ≤ j) × Fingerprinted (lent_table table.now) k j x × Collected (lent_table table.now) k from n map.now }
    ensures { Met (lent_table table.now) k from n j result }
{
    let mut next = multimap::last(map, n, x);
    // From place to place with fingerprint x, the last one first.
    while let Some(i) = next {
        if entry::same_text(table, k, from + i, j) {
            return true;
        }
        next = multimap::before(map, n, i, x);
    }
    false
}

// Collects the fingerprints of entries from `from` on, at most so many, up to one that may have the text of one before it.
fn collect(table: &StringTable, k: usize, from: usize, most: usize, map: &mut [u16; 20480]) -> usize
    requires { (k < length table.now.buckets.now) × (from + most ≤ entries (lent_table table.now) k) × (most ≤ 8192) × Filled 0 map.old }
    ensures answer { Sifted (lent_table table.now) k from result most }
    ensures map { Collected (lent_table table.now) k from result map.new }
{
    for n in 0..most {
        let j = from + n;
        let x = fingerprint_at(table, k, j);
        if met(table, k, from, n, j, x, map) {
            return n;
        }
        multimap::insert(map, n, x);
    }
    most
}

// The first entry behind the n collected ones, before end, that may have the text of one of them; end if there is none.
fn sift(
    table: &StringTable,
    k: usize,
    from: usize,
    n: usize,
    end: usize,
    map: &[u16; 20480],
) -> usize
    requires { (k < length table.now.buckets.now) × (from + n ≤ end) × (end ≤ entries (lent_table table.now) k) × Apart (lent_table table.now) k from (from + n) × Collected (lent_table table.now) k from n map.now }
    ensures { Clear (lent_table table.now) k from n result × (result ≤ end) }
{
    for j in from + n..end {
        let x = fingerprint_at(table, k, j);
        if met(table, k, from, n, j, x, map) {
            return j;
        }
    }
    end
}

// One round: entries from `from` on are collected, and those behind them, before end, are compared with them.
fn sift_some(table: &StringTable, k: usize, from: usize, end: usize) -> Round
    requires { (k < length table.now.buckets.now) × (from < end) × (end ≤ entries (lent_table table.now) k) }
    ensures { Clear (lent_table table.now) k from result.collected result.clear × (result.clear ≤ end) × (0 < result.collected) }
{
    let mut map = [0u16; 20480];
    let most = (end - from).min(8192);
    let collected = collect(table, k, from, most, &mut map);
    let clear = sift(table, k, from, collected, end, &map);
    Round { collected, clear }
}

// The entry before which, from `from` on and before end, no two entries have the same text.
pub(crate) fn apart_until(table: &StringTable, k: usize, from: usize, end: usize) -> usize
    requires { (k < length table.now.buckets.now) × (from ≤ end) × (end ≤ entries (lent_table table.now) k) }
    ensures { Apart (lent_table table.now) k from result }
{
    let mut done = from;
    let mut clear = end;
    // A round at a time: each tells how many entries are done.
    while done < clear {
        let r = sift_some(table, k, done, clear);
        done += r.collected;
        clear = r.clear;
    }
    clear
}

// Where the run of entries with hash h that holds entry j starts.
fn run_start(table: &StringTable, k: usize, j: usize, h: usize) -> usize
    requires { Here (lent_table table.now) k j }
    ensures { result ≤ j }
{
    (0..j)
        .rev()
        .find(|i| entry::hash_at(table, k, *i) != h)
        .map_or(0, |i| i + 1)
}

// Where it ends, of the n entries of the bucket.
fn run_end(table: &StringTable, k: usize, n: usize, j: usize, h: usize) -> usize
    requires { (k < length table.now.buckets.now) × (j ≤ n) × (n ≤ entries (lent_table table.now) k) }
    ensures { (j ≤ result) × (result ≤ n) }
{
    (j..n)
        .find(|i| entry::hash_at(table, k, *i) != h)
        .unwrap_or(n)
}

// Entries that are known to have different texts, when entry j of the n of bucket k is next: where 64 entries from a multiple of 64 on have one
// hash, those of the whole run are compared.
pub(crate) fn span_at(table: &StringTable, k: usize, n: usize, j: usize, span: Span) -> Span
    requires { (k < length table.now.buckets.now) × (n ≡ entries (lent_table table.now) k) × (j < n) × Apart (lent_table table.now) k span.start span.end }
    ensures { Apart (lent_table table.now) k result.start result.end }
{
    if j % 64 != 0 || j < span.end || n - j < 64 {
        return span;
    }
    let h = entry::hash_at(table, k, j);
    if entry::hash_at(table, k, j + 63) != h {
        return span;
    }
    let start = run_start(table, k, j, h);
    let end = run_end(table, k, n, j, h);
    let clear = apart_until(table, k, start, end);
    Span { start, end: clear }
}

// From which entry on those before entry j are known to have other texts.
pub(crate) fn away_from(span: Span, j: usize) -> usize
    ensures { AwayWithin span.start span.end result j }
{
    if span.start > j {
        return j;
    }
    if j < span.end {
        return span.start;
    }
    j
}
