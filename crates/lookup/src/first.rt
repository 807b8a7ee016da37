// A lookup whose text is compared later: what is known before any text of the table is read, so that a caller with many can have their
// texts read ahead.
ghost use Rattle.std.specs.Prelude.{◌≡◌, ◌+◌, ◌/◌, ◌≤◌, IfSome, length};
ghost use Rattle.hash.specs.Hash.{hash_text, bucket_of};
ghost use Rattle.region.specs.Region.{place_of, Resolves};
ghost use Rattle.region.specs.inner.Samples.{Mapped, Starts};
ghost use Rattle.layout.specs.Table.{entry_segment, entry_element};
ghost use Rattle.strings.specs.inner.Lent.{lent_table};
ghost use Rattle.search.specs.inner.LowerBound.{LowerBound};
ghost use Rattle.lookup.specs.Lookup.{text_from};
ghost use Rattle.lookup.specs.Kinds.{told_in};
ghost use Rattle.lookup.specs.inner.PickedEntry.{PickedEntry};

use crate::{Kind, Lookup};
use layout::CHARACTER_SIZE;
use region::{Region, SAMPLES};
use strings::checked::CheckedTable;
use strings::{entry, fields};

// An entry that bears as many characters as are asked for: where its text starts, where it ends, and what is told of it.
#[derive(Clone, Copy, Debug, PartialEq, Eq)]
pub struct Candidate {
    pub text: usize,
    pub end: usize,
    pub result: usize,
}

// Where the text of the entry at e starts. Its address resolves, so no count is read.
fn text_at(b: &[u8], chars: Region, segments: &[u32; SAMPLES], e: usize) -> usize
    requires { Mapped 2 b.now chars.at chars × Starts 2 b.now chars.at chars.shift segments.now × (e + 16 ≤ length b.now)
        × Resolves 2 b.now chars.at (entry_segment b.now e) (entry_element b.now e) }
    ensures { result ≡ place_of 2 b.now chars.at (entry_segment b.now e) (entry_element b.now e) }
{
    let p = region::locate(b, chars, CHARACTER_SIZE, segments, fields::segment(b, e));
    p + 8 + fields::element(b, e) * CHARACTER_SIZE
}

// Entry `low` of the bucket of hash h, if it has that hash and bears a text of n characters.
pub fn pick(checked: &CheckedTable, kind: Kind, h: usize, low: usize, n: usize) -> Option<Candidate>
    ensures places { IfSome result (λ c. (c.text + 2 ≤ length checked.now.table.file.now) × (c.end + 2 ≤ length checked.now.table.file.now)) }
    ensures bears { IfSome result (PickedEntry kind (lent_table checked.now.table) n) }
{
    let table = &checked.table;
    let k = hash::bucket(h, table.buckets.len());
    if entry::entry_count(table, k) <= low {
        return None;
    }
    let e = entry::entry_at(table, k, low);
    if fields::hash(table.file, e) != h || fields::length(table.file, e) - 1 != n {
        return None;
    }
    let text = text_at(table.file, table.parts.chars, table.segments, e);
    Some(Candidate {
        text,
        end: text + 2 * n,
        result: crate::result_at(table.file, kind, e),
    })
}

// What is told of a text, for a caller that has its hash, the hash's place in the bucket, and what was picked there. Where that bears
// another text, all entries with the hash are read.
pub fn find_picked(
    checked: &CheckedTable,
    kind: Kind,
    h: usize,
    low: usize,
    picked: Option<Candidate>,
    q: &[u8],
) -> Lookup
    requires hashed { (h ≡ hash_text (text_from q.now))
        × LowerBound (lent_table checked.now.table) (bucket_of (length checked.now.table.buckets.now) h) h low }
    requires picked_entry { IfSome picked (PickedEntry kind (lent_table checked.now.table) (length q.now / 2)) }
    ensures { result ≡ told_in kind (lent_table checked.now.table) (text_from q.now) }
{
    if let Some(c) = picked
        && text::alike(checked.table.file, c.text, q, 0, q.len() / 2)
    {
        return Lookup::Found(c.result);
    }
    crate::find_from(checked, kind, h, low, q)
}
