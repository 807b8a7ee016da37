// The steps of a batch: each goes over all its slots.
ghost use Rattle.std.specs.Prelude.{◌≡◌, ◌+◌, ◌-◌, ◌%◌, ◌≤◌, ◌<◌, ◌^◌, length};
ghost use Rattle.verdict.specs.Checks.{first_fault};
ghost use Rattle.verdict.specs.inner.Tells.{Sure};
ghost use Rattle.verdict.specs.Verdict.{Accepted};
ghost use Rattle.le.specs.Le.{u16_at};
ghost use Rattle.words.specs.Words.{extended_of};
ghost use Rattle.hash.specs.Hash.{bucket_of};
ghost use Rattle.hash.specs.Fold.{value_hash};
ghost use Rattle.region.specs.inner.Samples.{Mapped, Starts};
ghost use Rattle.text.specs.Text.{text_in};
ghost use Rattle.memo.specs.inner.Memo.{Remembers};
ghost use Rattle.layout.specs.Edition.{attribute_size};
ghost use Rattle.layout.specs.declared.Edition.TheVariants.{Bits64};
ghost use Rattle.strings.specs.Rules.{EntryAddress};
ghost use Rattle.strings.specs.Order.{all_entry_checks};
ghost use Rattle.strings.specs.inner.Lent.{lent_table};
ghost use Rattle.search.specs.inner.LowerBound.{LowerBound};
ghost use Rattle.search.specs.inner.Group.{LowerBounds};
ghost use Rattle.positions.specs.inner.Packed.{Packed};
ghost use Rattle.nodes.specs.Attribute.{type_word, text_segment, text_element};
ghost use Rattle.nodes.specs.inner.Noted.{noted};
ghost use Rattle.prefetch.specs.inner.Slots.{SlotsIn};
ghost use Rattle.prefetch.specs.inner.Batch.{SpotFits, Behind, AllSpots, AllFit, Stay, AllSeen, AllBehind, AllHashed, AllFound, AllRight};

use hash::HashTables;
use nodes::{fields, long};
use region::{Region, SAMPLES};
use search::{group, run};
use strings::checked::ValuesTable;
use strings::{StringTable, ahead, spot};

// The text of a slot: where it stands, how many characters are left there, and the character that was seen before it.
#[derive(Clone, Copy)]
struct SlotText {
    at: u32,
    left: u32,
    seen: u32,
}

// Where the texts stand, and how many characters are left there.
fn find_spots(
    b: &[u8],
    chars: Region,
    segments: &[u32; SAMPLES],
    slots: &[u32; 64],
    n: usize,
    texts: &mut [SlotText; 64],
) -> bool
    requires { Mapped 2 b.now chars.at chars × Starts 2 b.now chars.at chars.shift segments.now × (length b.now < 2 ^ 32)
        × (length slots.now ≡ 64) × SlotsIn Bits64 b.now slots.now n × (n ≤ 64) × (length texts.old ≡ 64) }
    ensures answer { Sure (AllSpots b.now chars.at slots.now n texts.new
        × AllFit b.now n texts.new) result }
    ensures texts_len { length texts.new ≡ 64 }
{
    for j in 0..n {
        let q = le::wide(slots[j]);
        let a = spot::spot_at(
            b,
            chars,
            segments,
            fields::text_segment(b, q),
            fields::text_element(b, q),
        );
        let Some(spot) = a else {
            return false;
        };
        texts[j] = SlotText {
            at: spot.at as u32,
            left: spot.left as u32,
            seen: 0,
        };
    }
    true
}

// The characters before them. This is where the memory is waited for, so nothing else is done here: the fewer the instructions between two
// reads, the more of them the processor has under way.
fn load_before(b: &[u8], n: usize, texts: &mut [SlotText; 64])
    requires { (n ≤ 64) × (length texts.old ≡ 64) × AllFit b.now n texts.old }
    ensures { AllSeen b.now n texts.new × Stay texts.old texts.new }
{
    for j in 0..n {
        texts[j].seen = ahead::touch(b, le::wide(texts[j].at), le::wide(texts[j].left)) as u32;
    }
}

// Whether the text of the attribute at q, which stands at x with n characters left there, has the extended code for its value hash; and, in
// a packed table, whether it can begin where it does, by the character that was seen before it. In a table that is not packed that tells
// nothing, and is not asked for.
fn passes(
    b: &[u8],
    t: &HashTables,
    q: usize,
    x: usize,
    n: usize,
    seen: usize,
    packed: bool,
    memo: &mut [u32; 3072],
) -> bool
    requires { (q + attribute_size Bits64 ≤ length b.now) × SpotFits b.now x n × (seen % 65536 ≡ u16_at b.now (x - 2)) × (length b.now < 2 ^ 32) × Remembers (noted b.now) memo.old }
    ensures answer { Sure ((extended_of (type_word b.now q) ≡ value_hash (text_in b.now x n))
        × Sure (Behind b.now x (text_element b.now q)) packed) result }
    ensures memo { Remembers (noted b.now) memo.new }
{
    if packed && !ahead::can_begin(fields::text_element(b, q), seen) {
        return false;
    }
    words::extended(fields::type_word(b, q)) == long::remembered_hash(b, t, x, n, memo)
}

// Whether each does.
fn all_pass(
    b: &[u8],
    t: &HashTables,
    slots: &[u32; 64],
    n: usize,
    texts: &[SlotText; 64],
    packed: bool,
    memo: &mut [u32; 3072],
) -> bool
    requires { (length slots.now ≡ 64) × SlotsIn Bits64 b.now slots.now n × (n ≤ 64) × (length texts.now ≡ 64) × AllFit b.now n texts.now × AllSeen b.now n texts.now × (length b.now < 2 ^ 32) × Remembers (noted b.now) memo.old }
    ensures answer { Sure (AllHashed b.now slots.now n texts.now
        × Sure (AllBehind b.now slots.now n texts.now) packed) result }
    ensures memo { Remembers (noted b.now) memo.new }
{
    for j in 0..n {
        if !passes(
            b,
            t,
            le::wide(slots[j]),
            le::wide(texts[j].at),
            le::wide(texts[j].left),
            le::wide(texts[j].seen),
            packed,
            memo,
        ) {
            return false;
        }
    }
    true
}

// The string hashes of the texts: any would do, but with these their entries are found.
fn hash_texts(
    b: &[u8],
    t: &HashTables,
    n: usize,
    texts: &[SlotText; 64],
    hashes: &mut [u32; 64],
    memo: &mut [u32; 3072],
)
    requires { (n ≤ 64) × (length texts.now ≡ 64) × (length hashes.old ≡ 64) × AllFit b.now n texts.now × (length b.now < 2 ^ 32) × Remembers (noted b.now) memo.old }
    ensures hashes { length hashes.new ≡ 64 }
    ensures memo { Remembers (noted b.now) memo.new }
{
    for j in 0..n {
        hashes[j] = long::text_hash(
            b,
            t,
            le::wide(texts[j].at),
            le::wide(texts[j].left),
            memo,
        ) as u32;
    }
}

// Whether the text of the attribute at q, whose hash h stands at place `low` of its bucket, or would, is at an entry's address.
fn found(table: &StringTable, q: usize, h: usize, low: usize) -> bool
    requires { (first_fault (all_entry_checks (lent_table table.now)) ≡ Accepted) × LowerBound (lent_table table.now) (bucket_of (length table.now.buckets.now) h) h low × (q + attribute_size Bits64 ≤ length table.now.file.now) }
    ensures { Sure (EntryAddress (lent_table table.now) (text_segment table.now.file.now q) (text_element table.now.file.now q)) result }
{
    let k = hash::bucket(h, table.buckets.len());
    run::run_has(
        table,
        k,
        h,
        low,
        strings::fields::ADDRESS_AT,
        fields::value_word(table.file, q),
    )
}

// Whether each is.
fn find_entries(
    table: &StringTable,
    slots: &[u32; 64],
    n: usize,
    hashes: &[u32; 64],
    low: &[usize; 64],
) -> bool
    requires { (first_fault (all_entry_checks (lent_table table.now)) ≡ Accepted) × SlotsIn Bits64 table.now.file.now slots.now n × (n ≤ 64) × (length slots.now ≡ 64) × (length hashes.now ≡ 64) × LowerBounds (lent_table table.now) hashes.now n low.now }
    ensures { Sure (AllFound table.now.file.now (lent_table table.now) slots.now n) result }
{
    (0..n).all(|j| found(table, le::wide(slots[j]), le::wide(hashes[j]), low[j]))
}

// Whether 19 holds of the attributes in the first n slots. In a packed table the character before a text tells that its address is an
// entry's; in another the entry is looked for.
pub fn batch_right(
    values: &ValuesTable,
    t: &HashTables,
    slots: &[u32; 64],
    n: usize,
    packed: bool,
    memo: &mut [u32; 3072],
) -> bool
    requires { (length slots.now ≡ 64) × SlotsIn Bits64 values.now.checked.table.file.now slots.now n × (n ≤ 64) × Sure (Packed (lent_table values.now.checked.table)) packed × Remembers (noted values.now.checked.table.file.now) memo.old }
    ensures answer { Sure (AllRight Bits64 values.now.checked.table.file.now slots.now n) result }
    ensures memo { Remembers (noted values.now.checked.table.file.now) memo.new }
{
    let table = &values.checked.table;
    let mut texts = [SlotText {
        at: 0,
        left: 0,
        seen: 0,
    }; 64];
    if !find_spots(
        table.file,
        table.parts.chars,
        table.segments,
        slots,
        n,
        &mut texts,
    ) {
        return false;
    }
    load_before(table.file, n, &mut texts);
    if !all_pass(table.file, t, slots, n, &texts, packed, memo) {
        return false;
    }
    if packed {
        return true;
    }
    let mut hashes = [0u32; 64];
    hash_texts(table.file, t, n, &texts, &mut hashes, memo);
    let mut low = [0usize; 64];
    group::lower_bounds(table, &hashes, n, 0, &mut low);
    find_entries(table, slots, n, &hashes, &low)
}
