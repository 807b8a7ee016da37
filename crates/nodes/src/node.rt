// Refusals 16, 17 and 23, and all of one node.
ghost use Rattle.std.specs.Prelude.{◌≡◌, ◌+◌, ◌*◌, ◌≤◌, ◌<◌, length};
ghost use Rattle.verdict.specs.Checks.{first_fault};
ghost use Rattle.verdict.specs.inner.Tells.{Tells};
ghost use Rattle.verdict.specs.Verdict.{answer_of};
ghost use Rattle.memo.specs.inner.Memo.{Remembers};
ghost use Rattle.region.specs.Region.{Resolves};
ghost use Rattle.layout.specs.Header.{key_count};
ghost use Rattle.layout.specs.Edition.{node_size};
ghost use Rattle.layout.specs.Layout.{nodes_at};
ghost use Rattle.layout.specs.declared.Edition.TheVariants.{Bits64};
ghost use Rattle.keys.specs.inner.Known.{Known};
ghost use Rattle.nodes.specs.Node.{node_at, Live};
ghost use Rattle.nodes.specs.Rules.{NodeRule, ChildRule};
ghost use Rattle.nodes.specs.inner.Doubts.{AllTrusted};
ghost use Rattle.nodes.specs.inner.Search.{NamesRise};
ghost use Rattle.nodes.specs.Order.{attribute_range_checks, node_checks};
ghost use Rattle.nodes.specs.inner.Noted.{noted};

use crate::doubts::Doubts;
use crate::prepared::PreparedFile;
use crate::{attribute, fields};
use hash::HashTables;
use keys::Names;
use layout::{ATTRIBUTE_SIZE, NODE_SIZE};
use verdict::{Refusal, Rule};

// Whether refusal 16 is not due to node seg:el, which stands at p.
fn node_right(b: &[u8], names: Names, keys: usize, seg: usize, el: usize, p: usize) -> bool
    requires { Known Bits64 b.now names × (keys ≡ key_count b.now) × (p ≡ node_at Bits64 b.now seg el) × (p + node_size Bits64 ≤ length b.now) }
    ensures { Tells (NodeRule Bits64 b.now seg el) result }
{
    let name = fields::node_name(b, p);
    if seg == 0 && el == 0 {
        if name != names.root {
            return false;
        }
        if fields::attribute_field(b, p) != 0 {
            return false;
        }
    }
    if name == 0 {
        return true;
    }
    if name > names.count {
        return false;
    }
    let word = fields::key_word(b, p);
    if words::flags(word) > 1 {
        return false;
    }
    words::key_index(word) < keys
}

// Whether the name indices of the live ones among the n nodes from q on do not fall.
fn rising(b: &[u8], q: usize, n: usize) -> bool
    requires { q + n * node_size Bits64 ≤ length b.now }
    ensures { Tells (NamesRise Bits64 b.now q n) result }
{
    let mut last = 0;
    for i in 0..n {
        let name = fields::node_name(b, q + i * NODE_SIZE);
        if name != 0 {
            if name < last {
                return false;
            }
            last = name;
        }
    }
    true
}

// Whether refusal 23 is not due to the live node at p.
fn children_right(prepared: &PreparedFile, p: usize) -> bool
    requires { (p + node_size Bits64 ≤ length prepared.now.file.now) × Live prepared.now.file.now p }
    ensures { Tells (ChildRule Bits64 prepared.now.file.now p) result }
{
    let b = prepared.file;
    let n = fields::child_field(b, p);
    if n == 0 {
        return true;
    }
    let r = region::range_at(
        b,
        prepared.view.places.nodes,
        NODE_SIZE,
        &prepared.view.node_segments,
        fields::child_segment(b, p),
        fields::child_element(b, p),
        n,
    );
    let Some(q) = r else {
        return false;
    };
    rising(b, q, n)
}

// Refusals 17 to 19 of the live node at x; 19 is due only to attributes that are doubted.
fn check_attribute_range(
    prepared: &PreparedFile,
    t: &HashTables,
    x: usize,
    doubts: &Doubts,
    memo: &mut [u32; 3072],
) -> Result<(), Refusal>
    requires node { (x + node_size Bits64 ≤ length prepared.now.file.now) × Live prepared.now.file.now x }
    requires doubts { AllTrusted Bits64 prepared.now.file.now doubts.now.places × Remembers (noted prepared.now.file.now) memo.old }
    ensures answer { answer_of result ≡ first_fault (attribute_range_checks Bits64 prepared.now.file.now x) }
    ensures memo { Remembers (noted prepared.now.file.now) memo.new }
{
    let b = prepared.file;
    let n = fields::attribute_field(b, x);
    if n == 0 {
        return Ok(());
    }
    let r = region::range_at(
        b,
        prepared.view.places.attributes,
        ATTRIBUTE_SIZE,
        &prepared.view.attribute_segments,
        fields::attribute_segment(b, x),
        fields::attribute_element(b, x),
        n,
    );
    let Some(a) = r else {
        return Err(Refusal(Rule::AttributeRange, x));
    };
    attribute::check_attributes(&prepared.values(), t, prepared.names, x, a, n, doubts, memo)
}

// Refusals 16 to 19 and 23 of node seg:el, which stands at x; 19 is due only to attributes that are doubted.
pub fn check_node(
    prepared: &PreparedFile,
    t: &HashTables,
    seg: usize,
    el: usize,
    x: usize,
    doubts: &Doubts,
    memo: &mut [u32; 3072],
) -> Result<(), Refusal>
    requires node { Resolves (node_size Bits64) prepared.now.file.now (nodes_at Bits64 prepared.now.file.now) seg el × (x ≡ node_at Bits64 prepared.now.file.now seg el) }
    requires doubts { AllTrusted Bits64 prepared.now.file.now doubts.now.places × Remembers (noted prepared.now.file.now) memo.old }
    ensures answer { answer_of result ≡ first_fault (node_checks Bits64 prepared.now.file.now seg el) }
    ensures memo { Remembers (noted prepared.now.file.now) memo.new }
{
    let b = prepared.file;
    if !node_right(b, prepared.names, prepared.view.places.keys, seg, el, x) {
        return Err(Refusal(Rule::Node, x));
    }
    if fields::node_name(b, x) == 0 {
        return Ok(());
    }
    check_attribute_range(prepared, t, x, doubts, memo)?;
    if !children_right(prepared, x) {
        return Err(Refusal(Rule::Children, x));
    }
    Ok(())
}
