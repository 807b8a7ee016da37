// One entry: its fields, and refusals 7 to 12.
ghost use Rattle.std.specs.Prelude.{◌≡◌, ℕ, ◌+◌, ◌*◌, ◌≤◌, ◌<◌, length};
ghost use Rattle.verdict.specs.Checks.{first_fault};
ghost use Rattle.verdict.specs.Verdict.{Accepted, answer_of};
ghost use Rattle.verdict.specs.inner.Tells.{Tells, Sure};
ghost use Rattle.layout.specs.Table.{entry_at, entries, hash_of, count, position_at, listed_segment, listed_element};
ghost use Rattle.strings.specs.Texts.{spot_at};
ghost use Rattle.strings.specs.Rules.{Placed, Indexed, Duplicate};
ghost use Rattle.strings.specs.Order.{entry_checks};
ghost use Rattle.strings.specs.inner.Held.{Here, TextPasses, Sorted};
ghost use Rattle.strings.specs.inner.Lent.{lent_table};
ghost use Rattle.strings.specs.inner.Ahead.{Prefetched};
ghost use Rattle.strings.specs.inner.Apart.{Compared, Away};

use crate::ahead::PrefetchedText;
use crate::spot::Spot;
use crate::{StringTable, fields, spot};
use hash::HashTables;
use layout::{BUCKET_COUNT_SIZE, ENTRY_SIZE, POSITION_SIZE};
use verdict::{Refusal, Rule};

// Where entry j of bucket k stands.
pub fn entry_at(table: &StringTable, k: usize, j: usize) -> usize
    requires { Here (lent_table table.now) k j }
    ensures { (result ≡ entry_at (lent_table table.now) k j) × (result + 16 ≤ length table.now.file.now) }
{
    le::wide(table.buckets[k]) + BUCKET_COUNT_SIZE + ENTRY_SIZE * j
}

// The hash that entry j of bucket k tells.
pub(crate) fn hash_at(table: &StringTable, k: usize, j: usize) -> usize
    requires { Here (lent_table table.now) k j }
    ensures { result ≡ hash_of (lent_table table.now) k j }
{
    fields::hash(table.file, entry_at(table, k, j))
}

// The number of entries of bucket k: as many as fit between its start and where the next bucket starts, or the address count. The starts are
// near, while the count in the file may have to be waited for.
pub fn entry_count(table: &StringTable, k: usize) -> usize
    requires { k < length table.now.buckets.now }
    ensures { result ≡ entries (lent_table table.now) k }
{
    let at = le::wide(table.buckets[k]);
    let end = if k + 1 < table.buckets.len() {
        le::wide(table.buckets[k + 1])
    } else {
        table.parts.list
    };
    (end - at - BUCKET_COUNT_SIZE) / ENTRY_SIZE
}

// Where list position i stands.
pub fn position_at(table: &StringTable, i: usize) -> usize
    requires { i < count (lent_table table.now) }
    ensures { (result ≡ position_at (lent_table table.now) i) × (result + 4 ≤ length table.now.file.now) }
{
    table.parts.list + POSITION_SIZE * i
}

// The spot of the address at list position i.
pub fn listed_spot(table: &StringTable, i: usize) -> Option<Spot>
    requires { i < count (lent_table table.now) }
    ensures { result ≡ spot_at table.now.file.now table.now.parts.chars.at (listed_segment (lent_table table.now) i)
        (listed_element (lent_table table.now) i) }
{
    spot::spot_to(
        table.file,
        table.parts.chars,
        table.segments,
        position_at(table, i),
    )
}

// Refusal 10 is not due.
fn placed(table: &StringTable, k: usize, j: usize) -> bool
    requires { Here (lent_table table.now) k j }
    ensures { Tells (Placed (lent_table table.now) k j) result }
{
    let e = entry_at(table, k, j);
    let h = fields::hash(table.file, e);
    if hash::bucket(h, table.buckets.len()) != k {
        return false;
    }
    if j == 0 {
        return true;
    }
    fields::hash(table.file, e - ENTRY_SIZE) <= h
}

// Refusal 11 is not due.
pub(crate) fn indexed(table: &StringTable, k: usize, j: usize) -> bool
    requires { Here (lent_table table.now) k j }
    ensures { Tells (Indexed (lent_table table.now) k j) result }
{
    let e = entry_at(table, k, j);
    let i = fields::index(table.file, e);
    if i == 0 {
        return false;
    }
    if le::u32_at(table.file, table.parts.list) <= i {
        return false;
    }
    let p = position_at(table, i);
    if le::u16_at(table.file, p) != fields::segment(table.file, e) {
        return false;
    }
    le::u16_at(table.file, p + spot::ELEMENT_AT) == fields::element(table.file, e)
}

// Whether entries i and j of bucket k have the same text, if their texts are right. Their lengths are compared first: texts that repeat one
// word, which have one hash if that of the word is 0, share all but their ends.
pub(crate) fn same_text(table: &StringTable, k: usize, i: usize, j: usize) -> bool
    requires { Here (lent_table table.now) k i × Here (lent_table table.now) k j }
    ensures { Compared (lent_table table.now) k i j result }
{
    let d = entry_at(table, k, i);
    let e = entry_at(table, k, j);
    if fields::length(table.file, d) != fields::length(table.file, e) {
        return false;
    }
    let Some(x) = spot::entry_spot(table.file, table.parts.chars, table.segments, d) else {
        return false;
    };
    let Some(y) = spot::entry_spot(table.file, table.parts.chars, table.segments, e) else {
        return false;
    };
    text::same(table.file, x.at, x.left, y.at, y.left)
}

// What refusal 12 is given for, where the entries from `from` on are known to have other texts. Texts that are the same have one hash, and
// hashes ascend: only the run of entries just before with the same hash is read.
fn duplicate(table: &StringTable, k: usize, j: usize, from: usize) -> bool
    requires { Here (lent_table table.now) k j × Sorted (lent_table table.now) k j × Away (lent_table table.now) k from j }
    ensures { Tells (Duplicate (lent_table table.now) k j) result }
{
    let h = hash_at(table, k, j);
    for i in (0..from).rev() {
        if hash_at(table, k, i) != h {
            return false;
        }
        if same_text(table, k, i, j) {
            return true;
        }
    }
    false
}

// Refusals 10 to 12 of an entry whose text is right, where 11 was looked for before.
fn check_order(
    table: &StringTable,
    k: usize,
    j: usize,
    listed: bool,
    from: usize,
) -> Result<(), Refusal>
    requires { Here (lent_table table.now) k j × ((i : ℕ) → i < j → first_fault (entry_checks (lent_table table.now) k i) ≡ Accepted) × TextPasses (lent_table table.now) k j × Tells (Indexed (lent_table table.now) k j) listed × Away (lent_table table.now) k from j }
    ensures { answer_of result ≡ first_fault (entry_checks (lent_table table.now) k j) }
{
    let e = entry_at(table, k, j);
    if !placed(table, k, j) {
        return Err(Refusal(Rule::EntryOrder, e));
    }
    if !listed {
        return Err(Refusal(Rule::EntryIndex, e));
    }
    if duplicate(table, k, j, from) {
        return Err(Refusal(Rule::Duplicate, e));
    }
    Ok(())
}

// Whether refusal 11 is not due, where that may be known already.
fn index_passes(table: &StringTable, k: usize, j: usize, known: bool) -> bool
    requires { Here (lent_table table.now) k j × Sure (Indexed (lent_table table.now) k j) known }
    ensures { Tells (Indexed (lent_table table.now) k j) result }
{
    known || indexed(table, k, j)
}

// Refusals 7 to 12 of an entry that is prefetched, where those before it in the bucket passed; 11 may be known not to be due.
pub(crate) fn check_entry(
    table: &StringTable,
    t: &HashTables,
    k: usize,
    j: usize,
    g: PrefetchedText,
    listed: bool,
) -> Result<(), Refusal>
    requires { Here (lent_table table.now) k j × ((i : ℕ) → i < j → first_fault (entry_checks (lent_table table.now) k i) ≡ Accepted) × Prefetched (lent_table table.now) k j g.spot g.seen × Away (lent_table table.now) k g.from j × Sure (Indexed (lent_table table.now) k j) listed }
    ensures { answer_of result ≡ first_fault (entry_checks (lent_table table.now) k j) }
{
    let e = entry_at(table, k, j);
    let Some(spot) = g.spot else {
        return Err(Refusal(Rule::EntryAddress, e));
    };
    let m = text::measure(table.file, t, spot.at, spot.left);
    if fields::length(table.file, e) != m.length + 1 {
        return Err(Refusal(Rule::EntryLength, e));
    }
    if fields::hash(table.file, e) != m.hash {
        return Err(Refusal(Rule::EntryHash, e));
    }
    let right = index_passes(table, k, j, listed);
    check_order(table, k, j, right, g.from)
}
