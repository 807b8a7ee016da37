// All used nodes, in the order of the file.
ghost use Rattle.std.specs.Prelude.{◌≡◌};
ghost use Rattle.verdict.specs.Checks.{first_fault};
ghost use Rattle.verdict.specs.Verdict.{answer_of};
ghost use Rattle.memo.specs.inner.Memo.{Remembers};
ghost use Rattle.nodes.specs.inner.Doubts.{AllTrusted};
ghost use Rattle.layout.specs.declared.Edition.TheVariants.{Bits64};
ghost use Rattle.nodes.specs.Order.{all_node_checks};
ghost use Rattle.nodes.specs.inner.Noted.{noted};

use crate::doubts::Doubts;
use crate::node;
use crate::prepared::PreparedFile;
use hash::HashTables;
use layout::NODE_SIZE;
use region::SEGMENT_HEADER;
use verdict::{Refusal, Rule};

// Refusals 16 to 19 and 23 of every used node, up to the first fault; 19 is due only to attributes that are doubted.
pub fn check_nodes(
    prepared: &PreparedFile,
    t: &HashTables,
    doubts: &Doubts,
    memo: &mut [u32; 3072],
) -> Result<(), Refusal>
    requires { AllTrusted Bits64 prepared.now.file.now doubts.now.places × Remembers (noted prepared.now.file.now) memo.old }
    ensures answer { answer_of result ≡ first_fault (all_node_checks Bits64 prepared.now.file.now) }
    ensures memo { Remembers (noted prepared.now.file.now) memo.new }
{
    let b = prepared.file;
    let nodes = prepared.view.places.nodes;
    if nodes.count == 0 {
        return Err(Refusal(Rule::Node, nodes.at));
    }
    let mut at = region::first_start(nodes);
    if region::used_count(b, at) == 0 {
        return Err(Refusal(Rule::Node, nodes.at));
    }
    let mut answer = Ok(());
    // The labelled loops are left with the first fault, as the customer asked for this place.
    'segments: for seg in 0..nodes.count {
        let first = at + SEGMENT_HEADER;
        for el in 0..region::used_count(b, at) {
            let x = first + el * NODE_SIZE;
            answer = node::check_node(prepared, t, seg, el, x, doubts, memo);
            if answer.is_err() {
                break 'segments;
            }
        }
        at = region::next_start(b, at, NODE_SIZE);
    }
    answer
}
