// Refusals 18 and 19: the attributes of a node.
ghost use Rattle.std.specs.Prelude.{◌≡◌, ℕ, ◌+◌, ◌*◌, ◌≤◌, ◌<◌, length};
ghost use Rattle.verdict.specs.Checks.{first_fault};
ghost use Rattle.verdict.specs.inner.Tells.{Tells};
ghost use Rattle.verdict.specs.Verdict.{answer_of};
ghost use Rattle.memo.specs.inner.Memo.{Remembers};
ghost use Rattle.layout.specs.Edition.{attribute_size};
ghost use Rattle.layout.specs.declared.Edition.TheVariants.{Bits64};
ghost use Rattle.keys.specs.inner.Known.{Known};
ghost use Rattle.nodes.specs.Node.{attribute_count, attribute_at};
ghost use Rattle.nodes.specs.Attribute.{Typed};
ghost use Rattle.nodes.specs.Rules.{AttributeRule, TextRight};
ghost use Rattle.nodes.specs.inner.Doubts.{Trusted};
ghost use Rattle.nodes.specs.Order.{node_attribute_checks};
ghost use Rattle.nodes.specs.inner.Noted.{noted};

use crate::doubts::Doubts;
use crate::{fields, long};
use hash::HashTables;
use keys::Names;
use layout::ATTRIBUTE_SIZE;
use search::run;
use strings::checked::ValuesTable;
use strings::spot;
use verdict::{Refusal, Rule};
use words::AttributeType;

// Whether type, extended code and truth word of the attribute at q are right.
fn typed(b: &[u8], q: usize) -> bool
    requires { q + attribute_size Bits64 ≤ length b.now }
    ensures { Tells (Typed b.now q) result }
{
    let word = fields::type_word(b, q);
    let kind = words::kind(word);
    let extended = words::extended(word);
    // A text, whose code 19 looks at, or code 0: types come and go too irregularly for a branch each.
    if extended * (3 - kind.number()) == 0 {
        return kind != AttributeType::None;
    }
    if kind != AttributeType::Whole {
        return false;
    }
    if extended != 1 {
        return false;
    }
    fields::value_word(b, q) <= 1
}

// Whether refusal 18 is not due to attribute i of the node at p, which stands at q.
fn attribute_right(b: &[u8], names: Names, p: usize, i: usize, q: usize) -> bool
    requires { Known Bits64 b.now names × (q ≡ attribute_at Bits64 b.now p i) × (q + attribute_size Bits64 ≤ length b.now) }
    ensures { Tells (AttributeRule Bits64 b.now p i) result }
{
    let name = fields::attribute_name(b, q);
    if name == 0 {
        return false;
    }
    if name > names.count {
        return false;
    }
    if i > 0 {
        if name <= fields::attribute_name(b, q - ATTRIBUTE_SIZE) {
            return false;
        }
    }
    if !typed(b, q) {
        return false;
    }
    if name != names.value {
        return true;
    }
    words::kind(fields::type_word(b, q)) == AttributeType::Text
}

// Whether refusal 19 is not due to the attribute at q. An entry with its address would stand in the bucket of the text there.
pub fn text_right(values: &ValuesTable, t: &HashTables, q: usize, memo: &mut [u32; 3072]) -> bool
    requires { (q + attribute_size Bits64 ≤ length values.now.checked.table.file.now) × Remembers (noted values.now.checked.table.file.now) memo.old }
    ensures answer { Tells (TextRight Bits64 values.now.checked.table.file.now q) result }
    ensures memo { Remembers (noted values.now.checked.table.file.now) memo.new }
{
    let table = &values.checked.table;
    let word = fields::type_word(table.file, q);
    if words::kind(word) != AttributeType::Text {
        return true;
    }
    let seg = fields::text_segment(table.file, q);
    let el = fields::text_element(table.file, q);
    let Some(spot) = spot::spot_at(table.file, table.parts.chars, table.segments, seg, el) else {
        return false;
    };
    if words::extended(word) != long::remembered_hash(table.file, t, spot.at, spot.left, memo) {
        return false;
    }
    let h = long::text_hash(table.file, t, spot.at, spot.left, memo);
    let k = hash::bucket(h, table.buckets.len());
    let low = search::lower_bound(table, k, h);
    let address = fields::value_word(table.file, q);
    run::run_has(table, k, h, low, strings::fields::ADDRESS_AT, address)
}

// The same, where it is looked at only if the attribute is doubted.
fn text_passes(
    values: &ValuesTable,
    t: &HashTables,
    q: usize,
    doubts: &Doubts,
    memo: &mut [u32; 3072],
) -> bool
    requires { (q + attribute_size Bits64 ≤ length values.now.checked.table.file.now) × Trusted Bits64 values.now.checked.table.file.now doubts.now.places q × Remembers (noted values.now.checked.table.file.now) memo.old }
    ensures answer { Tells (TextRight Bits64 values.now.checked.table.file.now q) result }
    ensures memo { Remembers (noted values.now.checked.table.file.now) memo.new }
{
    if !doubts.doubted(q) {
        return true;
    }
    text_right(values, t, q, memo)
}

// Refusals 18 and 19 of the attributes of the node at p, the first of which stands at a; 19 is due only to those that are doubted.
pub fn check_attributes(
    values: &ValuesTable,
    t: &HashTables,
    names: Names,
    p: usize,
    a: usize,
    n: usize,
    doubts: &Doubts,
    memo: &mut [u32; 3072],
) -> Result<(), Refusal>
    requires attributes { Known Bits64 values.now.checked.table.file.now names × (n ≡ attribute_count values.now.checked.table.file.now p) × (a ≡ attribute_at Bits64 values.now.checked.table.file.now p 0)
        × (a + n * attribute_size Bits64 ≤ length values.now.checked.table.file.now) }
    requires doubts { ((i : ℕ) → i < n → Trusted Bits64 values.now.checked.table.file.now doubts.now.places (attribute_at Bits64 values.now.checked.table.file.now p i))
        × Remembers (noted values.now.checked.table.file.now) memo.old }
    ensures answer { answer_of result ≡ first_fault (node_attribute_checks Bits64 values.now.checked.table.file.now p) }
    ensures memo { Remembers (noted values.now.checked.table.file.now) memo.new }
{
    for i in 0..n {
        let q = a + i * ATTRIBUTE_SIZE;
        if !attribute_right(values.checked.table.file, names, p, i, q) {
            return Err(Refusal(Rule::Attribute, q));
        }
        if !text_passes(values, t, q, doubts, memo) {
            return Err(Refusal(Rule::AttributeText, q));
        }
    }
    Ok(())
}
