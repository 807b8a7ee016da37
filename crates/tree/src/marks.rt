// Refusal 21: each live node's child range is marked in the workspace, and a second mark refuses.
ghost use Rattle.std.specs.Prelude.{◌≡◌, ◌+◌, ◌≤◌, ◌<◌, length};
ghost use Rattle.verdict.specs.Checks.{first_fault};
ghost use Rattle.verdict.specs.Verdict.{answer_of};
ghost use Rattle.verdict.specs.inner.Tells.{Tells};
ghost use Rattle.region.specs.inner.Samples.{Counts};
ghost use Rattle.layout.specs.Edition.{node_size};
ghost use Rattle.layout.specs.Layout.{nodes_at};
ghost use Rattle.layout.specs.declared.Edition.TheVariants.{Bits64};
ghost use Rattle.tree.specs.File.{used_node_count};
ghost use Rattle.tree.specs.Order.{all_range_checks};
ghost use Rattle.tree.specs.Outcome.{workspace_after};
ghost use Rattle.tree.specs.inner.Marking.{Free, Reached, MarkedOne};

use crate::Nodes;
use layout::NODE_SIZE;
use nodes::fields;
use region::{SAMPLES, SEGMENT_HEADER};
use verdict::{Refusal, Rule};

// Whether none of the n nodes from number i on is the root or is marked. The marks are bytes of the caller's workspace: 0 or 1, by the contract of
// acceptance.
fn range_free(ws: &[u8], i: usize, n: usize) -> bool
    requires { (0 < n) × (i + n ≤ length ws.now) }
    ensures { Tells (Free ws.now i n) result }
{
    i != 0 && ws[i..i + n].iter().all(|mark| *mark == 0)
}

// Marks the child range of the node at p, or tells that it is not free and marks nothing.
fn mark_node(nodes: &Nodes, counts: &[u32; SAMPLES], p: usize, ws: &mut [u8]) -> bool
    requires within { Counts (node_size Bits64) nodes.now.file.now (nodes_at Bits64 nodes.now.file.now) nodes.now.region.shift counts.now
        × (p + node_size Bits64 ≤ length nodes.now.file.now) × (used_node_count Bits64 nodes.now.file.now ≤ length ws.old) }
    requires reached { Reached Bits64 nodes.now.file.now p }
    ensures { MarkedOne Bits64 nodes.now.file.now p ws.old result ws.new }
{
    if fields::node_name(nodes.file, p) == 0 {
        return true;
    }
    let n = fields::child_field(nodes.file, p);
    if n == 0 {
        return true;
    }
    let i = region::number(
        nodes.file,
        nodes.region,
        NODE_SIZE,
        nodes.segments,
        counts,
        fields::child_segment(nodes.file, p),
        fields::child_element(nodes.file, p),
    );
    if !range_free(ws, i, n) {
        return false;
    }
    ws[i..i + n].fill(1);
    true
}

// Refusal 21 of every used node in file order; the first U bytes are 0 before.
pub fn mark_nodes(
    nodes: &Nodes,
    counts: &[u32; SAMPLES],
    used: usize,
    ws: &mut [u8],
) -> Result<(), Refusal>
    requires { Counts (node_size Bits64) nodes.now.file.now (nodes_at Bits64 nodes.now.file.now) nodes.now.region.shift counts.now
        × (used ≡ used_node_count Bits64 nodes.now.file.now) × (used_node_count Bits64 nodes.now.file.now ≤ length ws.old) }
    ensures answer { answer_of result ≡ first_fault (all_range_checks Bits64 nodes.now.file.now) }
    ensures workspace { ws.new ≡ workspace_after Bits64 nodes.now.file.now ws.old (first_fault (all_range_checks Bits64 nodes.now.file.now)) }
{
    ws[..used].fill(0);
    let mut answer = Ok(());
    let mut at = region::first_start(nodes.region);
    // The labelled loops are left with the first fault, as the customer asked for this place.
    'segments: for seg in 0..nodes.region.count {
        let first = at + SEGMENT_HEADER;
        for el in 0..region::used_count(nodes.file, at) {
            let p = first + el * NODE_SIZE;
            if !mark_node(nodes, counts, p, ws) {
                ws[..used].fill(0);
                answer = Err(Refusal(Rule::ChildRange, p));
                break 'segments;
            }
        }
        at = region::next_start(nodes.file, at, NODE_SIZE);
    }
    answer
}
