// Name by text and value by text in an accepted string table (FORMAT, "Questions").
#![tactic(auto)]

ghost use Rattle.std.specs.Prelude.{◌≡◌, ◌+◌, ◌≤◌, length};
ghost use Rattle.verdict.specs.inner.Tells.{Tells};
ghost use Rattle.hash.specs.Hash.{hash_text, bucket_of};
ghost use Rattle.text.specs.Text.{holds_zero?};
ghost use Rattle.strings.specs.Texts.{text_of};
ghost use Rattle.strings.specs.inner.Held.{Here};
ghost use Rattle.strings.specs.inner.Lent.{lent_table};
ghost use Rattle.search.specs.inner.LowerBound.{LowerBound};
ghost use Rattle.lookup.specs.Lookup.{text_from, entry_of_text, told_unborne};
ghost use Rattle.lookup.specs.Kinds.{told_in, tells_at, kind_of, told_number};

pub mod first;

use hash::HashTables;
use strings::checked::CheckedTable;
use strings::{entry, fields, spot};

// What a look-up answers: found, with a number; collided, with how many entries have the text's hash; absent.
#[derive(Clone, Copy, Debug, PartialEq, Eq)]
pub enum Lookup {
    Found(usize),
    Collided(usize),
    Absent,
}

// As two numbers, for C.
#[tactic(auto, unfolding(crate::specs::Kinds::kind_of, crate::specs::Kinds::told_number))]
impl Lookup {
    pub fn code(self) -> u32
        ensures { result ≡ kind_of self }
    {
        match self {
            Lookup::Found(_) => 0,
            Lookup::Absent => 1,
            Lookup::Collided(_) => 2,
        }
    }

    pub fn value(self) -> usize
        ensures { result ≡ told_number self }
    {
        match self {
            Lookup::Found(n) | Lookup::Collided(n) => n,
            Lookup::Absent => 0,
        }
    }
}

// What is asked for: a name's index, or a value's address.
#[derive(Clone, Copy, Debug, PartialEq, Eq)]
pub enum Kind {
    Name,
    Value,
}

// Whether entry j of bucket k bears the text that is asked. Its length is right: where that fits, no 0 is looked for.
fn entry_bears(checked: &CheckedTable, k: usize, j: usize, q: &[u8]) -> bool
    requires { Here (lent_table checked.now.table) k j }
    ensures { Tells (text_of (lent_table checked.now.table) k j ≡ text_from q.now) result }
{
    let table = &checked.table;
    let n = q.len() / 2;
    let e = entry::entry_at(table, k, j);
    if fields::length(table.file, e) != n + 1 {
        return false;
    }
    let Some(spot) = spot::entry_spot(table.file, table.parts.chars, table.segments, e) else {
        return false;
    };
    text::alike(table.file, spot.at, q, 0, n)
}

// What is told of a text that no entry bears, when `count` entries have its hash. A 0 is looked for only where it matters.
fn unborne(q: &[u8], count: usize) -> Lookup
    ensures { result ≡ told_unborne (text_from q.now) (holds_zero? (text_from q.now)) count }
{
    if count == 0 {
        return Lookup::Absent;
    }
    if text::holds_zero(q) {
        return Lookup::Absent;
    }
    Lookup::Collided(count)
}

// The entry that bears the text that is asked, whose hash is h: from `low` on, the first entry of its bucket whose hash is not below h.
// Among equal hashes all are read. Where none bears the text, these are all entries of the table with the hash.
fn find_entry(checked: &CheckedTable, h: usize, low: usize, q: &[u8]) -> Lookup
    requires { (h ≡ hash_text (text_from q.now))
        × LowerBound (lent_table checked.now.table) (bucket_of (length checked.now.table.buckets.now) h) h low }
    ensures { result ≡ entry_of_text (lent_table checked.now.table) (text_from q.now) }
{
    let table = &checked.table;
    let k = hash::bucket(h, table.buckets.len());
    let m = entry::entry_count(table, k);
    for j in low..m {
        let e = entry::entry_at(table, k, j);
        if fields::hash(table.file, e) != h {
            return unborne(q, j - low);
        }
        if entry_bears(checked, k, j, q) {
            return Lookup::Found(e);
        }
    }
    unborne(q, m - low)
}

// What is told of the entry at e: a value by kind, and no step.
fn result_at(b: &[u8], kind: Kind, e: usize) -> usize
    requires { e + 16 ≤ length b.now }
    ensures { result ≡ tells_at kind b.now e }
{
    match kind {
        Kind::Name => fields::index(b, e),
        Kind::Value => fields::segment(b, e) * 65536 + fields::element(b, e),
    }
}

// What is told of that text, for a caller that has its hash, and the hash's place in the bucket.
pub(crate) fn find_from(
    checked: &CheckedTable,
    kind: Kind,
    h: usize,
    low: usize,
    q: &[u8],
) -> Lookup
    requires { (h ≡ hash_text (text_from q.now))
        × LowerBound (lent_table checked.now.table) (bucket_of (length checked.now.table.buckets.now) h) h low }
    ensures { result ≡ told_in kind (lent_table checked.now.table) (text_from q.now) }
{
    match find_entry(checked, h, low, q) {
        Lookup::Found(e) => Lookup::Found(result_at(checked.table.file, kind, e)),
        other => other,
    }
}

// The same for a caller that has the text only. It comes as bytes, two a character; an odd last byte is no part of it.
pub fn find_text(checked: &CheckedTable, t: &HashTables, kind: Kind, q: &[u8]) -> Lookup
    ensures { result ≡ told_in kind (lent_table checked.now.table) (text_from q.now) }
{
    let table = &checked.table;
    let h = text::hash_chars(q, t, 0, q.len() / 2, 0);
    let k = hash::bucket(h, table.buckets.len());
    let low = search::lower_bound(table, k, h);
    find_from(checked, kind, h, low, q)
}
