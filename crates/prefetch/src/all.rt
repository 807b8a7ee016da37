// All used attributes, in the order of the file.
ghost use Rattle.std.specs.Prelude.{◌≡◌, ◌+◌, ◌≤◌, length};
ghost use Rattle.verdict.specs.Checks.{first_fault};
ghost use Rattle.verdict.specs.inner.Tells.{Sure};
ghost use Rattle.verdict.specs.Verdict.{answer_of};
ghost use Rattle.memo.specs.inner.Memo.{Remembers};
ghost use Rattle.layout.specs.Edition.{attribute_size};
ghost use Rattle.layout.specs.Layout.{values};
ghost use Rattle.layout.specs.declared.Edition.TheVariants.{Bits64};
ghost use Rattle.strings.specs.inner.Lent.{lent_table};
ghost use Rattle.positions.specs.inner.Packed.{Packed};
ghost use Rattle.nodes.specs.inner.Doubts.{Trusted, AllTrusted};
ghost use Rattle.nodes.specs.Order.{all_node_checks};
ghost use Rattle.nodes.specs.inner.Noted.{noted};
ghost use Rattle.prefetch.specs.inner.Slots.{SlotsIn};
ghost use Rattle.prefetch.specs.inner.Examined.{Kept, Examined};

use crate::{slots, steps};
use hash::HashTables;
use layout::ATTRIBUTE_SIZE;
use nodes::attribute;
use nodes::doubts::Doubts;
use nodes::prepared::PreparedFile;
use region::SEGMENT_HEADER;
use strings::checked::ValuesTable;
use verdict::Refusal;

// Doubts the attribute at q, unless 19 holds of it.
fn doubt(
    values: &ValuesTable,
    t: &HashTables,
    q: usize,
    doubts: &mut Doubts,
    memo: &mut [u32; 3072],
)
    requires { (q + attribute_size Bits64 ≤ length values.now.checked.table.file.now) × Remembers (noted values.now.checked.table.file.now) memo.old }
    ensures doubts { Trusted Bits64 values.now.checked.table.file.now doubts.new.places q × Kept doubts.old.places doubts.new.places }
    ensures memo { Remembers (noted values.now.checked.table.file.now) memo.new }
{
    if attribute::text_right(values, t, q, memo) {
        return;
    }
    doubts.doubt(q);
}

// Doubts those of the attributes in the first n slots of which 19 does not hold.
fn doubt_wrong(
    values: &ValuesTable,
    t: &HashTables,
    slots: &[u32; 64],
    n: usize,
    doubts: &mut Doubts,
    memo: &mut [u32; 3072],
)
    requires { (length slots.now ≡ 64) × SlotsIn Bits64 values.now.checked.table.file.now slots.now n × (n ≤ 64) × Remembers (noted values.now.checked.table.file.now) memo.old }
    ensures doubts { Examined Bits64 values.now.checked.table.file.now slots.now n doubts.old.places doubts.new.places }
    ensures memo { Remembers (noted values.now.checked.table.file.now) memo.new }
{
    for j in 0..n {
        doubt(values, t, le::wide(slots[j]), doubts, memo);
    }
}

// Doubts those of the attributes in the first n slots of which 19 does not hold, one by one unless it is known to hold of all.
fn examine_batch(
    values: &ValuesTable,
    t: &HashTables,
    packed: bool,
    slots: &[u32; 64],
    n: usize,
    doubts: &mut Doubts,
    memo: &mut [u32; 3072],
)
    requires { (length slots.now ≡ 64) × SlotsIn Bits64 values.now.checked.table.file.now slots.now n × (n ≤ 64) × Sure (Packed (lent_table values.now.checked.table)) packed × Remembers (noted values.now.checked.table.file.now) memo.old }
    ensures doubts { Examined Bits64 values.now.checked.table.file.now slots.now n doubts.old.places doubts.new.places }
    ensures memo { Remembers (noted values.now.checked.table.file.now) memo.new }
{
    if steps::batch_right(values, t, slots, n, packed, memo) {
        return;
    }
    doubt_wrong(values, t, slots, n, doubts, memo);
}

// Doubts every used attribute of which 19 does not hold. An attribute that no node has may be at fault, so a doubt
// refuses nothing; and it costs those a second check that share its place, not all others.
fn find_doubts(
    prepared: &PreparedFile,
    t: &HashTables,
    packed: bool,
    doubts: &mut Doubts,
    memo: &mut [u32; 3072],
)
    requires { Sure (Packed (values Bits64 prepared.now.file.now)) packed × Remembers (noted prepared.now.file.now) memo.old }
    ensures doubts { AllTrusted Bits64 prepared.now.file.now doubts.new.places }
    ensures memo { Remembers (noted prepared.now.file.now) memo.new }
{
    let b = prepared.file;
    let attributes = prepared.view.places.attributes;
    let values = prepared.values();
    let mut slots = [0u32; 64];
    let mut at = region::first_start(attributes);
    for _seg in 0..attributes.count {
        let used = region::used_count(b, at);
        let mut el = 0;
        // A batch at a time: take_texts tells where the next one begins.
        while el < used {
            let taken = slots::take_texts(b, at + SEGMENT_HEADER, el, used, &mut slots);
            examine_batch(&values, t, packed, &slots, taken.count, doubts, memo);
            el = taken.next;
        }
        at = region::next_start(b, at, ATTRIBUTE_SIZE);
    }
}

// Refusals 16 to 19 and 23 of every used node, up to the first fault: 19 in batches, and where that leaves doubts, node by node.
pub fn check_nodes_in_batches(
    prepared: &PreparedFile,
    t: &HashTables,
    packed: bool,
) -> Result<(), Refusal>
    requires { Sure (Packed (values Bits64 prepared.now.file.now)) packed }
    ensures { answer_of result ≡ first_fault (all_node_checks Bits64 prepared.now.file.now) }
{
    let mut doubts = Doubts::new();
    let mut memo = [0u32; 3072];
    find_doubts(prepared, t, packed, &mut doubts, &mut memo);
    nodes::all::check_nodes(prepared, t, &doubts, &mut memo)
}
