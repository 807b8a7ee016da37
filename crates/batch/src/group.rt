// A group of texts. A lookup waits for memory at its entry, and again at that entry's text. The steps here go over all texts of a
// group, so that the waits of different texts overlap.
ghost use Rattle.std.specs.Prelude.{◌≡◌, ◌+◌, ◌%◌, ◌≤◌, ◌<◌, length};
ghost use Rattle.verdict.specs.Checks.{first_fault};
ghost use Rattle.verdict.specs.Verdict.{Accepted};
ghost use Rattle.strings.specs.inner.Lent.{lent_table};
ghost use Rattle.path.specs.Names.{path_checks};
ghost use Rattle.search.specs.inner.Group.{LowerBounds, Lengths};
ghost use Rattle.batch.specs.inner.Groups.{Group, PackedBounds, Texts, Picked, SameLow};

use hash::HashTables;
use lookup::first::Candidate;
use lookup::{Kind, first};
use search::group;
use strings::checked::CheckedTable;

// Measures the texts from offset `at` on, until the slots are full or the texts end. One pass finds a text's end and its hash.
pub fn measure_group(
    texts: &[u8],
    t: &HashTables,
    at: usize,
    lengths: &mut [usize; 64],
    hashes: &mut [u32; 64],
) -> usize
    requires { (first_fault (path_checks texts.now) ≡ Accepted) × (at % 2 ≡ 0) × (at < length texts.now) × (length lengths.old ≡ 64) × (length hashes.old ≡ 64) }
    ensures { (1 ≤ result) × Group texts.now at result lengths.new hashes.new }
{
    let mut p = at;
    for n in 0..64 {
        if p >= texts.len() {
            return n;
        }
        let x = text::measure(texts, t, p, (texts.len() - p) / 2);
        lengths[n] = x.length;
        hashes[n] = x.hash as u32;
        p += 2 * x.length + 2;
    }
    64
}

// Picks an entry for each text, by its hash and its length.
fn pick_each(
    checked: &CheckedTable,
    kind: Kind,
    lengths: &[usize; 64],
    hashes: &[u32; 64],
    low: &[usize; 64],
    n: usize,
    picked: &mut [Option<Candidate>; 64],
)
    requires { (n ≤ 64) × Lengths lengths.now hashes.now low.now × (length picked.old ≡ 64) }
    ensures { Texts checked.now.table.file.now n picked.new × Picked kind (lent_table checked.now.table) lengths.now n picked.new }
{
    for j in 0..n {
        picked[j] = first::pick(checked, kind, le::wide(hashes[j]), low[j], lengths[j]);
    }
}

// Reads where the picked texts start and end. What was read stands above the 32 bits of a place, where nobody asks for it: a read whose
// value is put nowhere would be left out.
fn read_ends(b: &[u8], picked: &[Option<Candidate>; 64], n: usize, low: &mut [usize; 64])
    requires { (n ≤ 64) × Texts b.now n picked.now × (length low.old ≡ 64) }
    ensures { SameLow low.old low.new }
{
    for j in 0..n {
        if let Some(c) = picked[j] {
            let x = le::u16_at(b, c.text) + 65536 * le::u16_at(b, c.end);
            low[j] = low[j] % 4294967296 + 4294967296 * x;
        }
    }
}

// An entry picked for each text of a group. The entries' texts are read ahead, unless the table is small: texts take a few times as much
// memory as entries, so that is sooner than for the entries themselves.
pub fn prefetch_texts(
    checked: &CheckedTable,
    kind: Kind,
    lengths: &[usize; 64],
    hashes: &[u32; 64],
    n: usize,
    low: &mut [usize; 64],
    picked: &mut [Option<Candidate>; 64],
)
    requires { (n ≤ 64) × Lengths lengths.now hashes.now low.old × (length picked.old ≡ 64) × LowerBounds (lent_table checked.now.table) hashes.now n low.old }
    ensures near { PackedBounds (lent_table checked.now.table) hashes.now n low.new }
    ensures picked { Picked kind (lent_table checked.now.table) lengths.now n picked.new }
{
    let table = &checked.table;
    pick_each(checked, kind, lengths, hashes, low, n, picked);
    if group::spread(table, 262144) {
        read_ends(table.file, picked, n, low);
    }
}
