// Refusals 20 to 22: the workspace, the tree test and the depth (FORMAT, "Refusals").
#![tactic(auto)]

ghost use Rattle.std.specs.Prelude.{◌≡◌, length};
ghost use Rattle.verdict.specs.Checks.{first_fault};
ghost use Rattle.verdict.specs.Verdict.{answer_of};
ghost use Rattle.region.specs.inner.Samples.{Counts};
ghost use Rattle.layout.specs.Edition.{node_size};
ghost use Rattle.layout.specs.Layout.{nodes_at};
ghost use Rattle.layout.specs.declared.Edition.TheVariants.{Bits64};
ghost use Rattle.tree.specs.File.{used_node_count};
ghost use Rattle.tree.specs.Outcome.{tree_checks, workspace_after};
ghost use Rattle.tree.specs.inner.Marking.{TreeReady};

mod depth;
mod marks;
pub mod ranges;

use region::{Region, SAMPLES};
use verdict::{Refusal, Rule};

// A chain has at most so many nodes.
pub const MOST_LEVELS: usize = 64;

// The root is at level 0.
pub const DEEPEST_LEVEL: usize = MOST_LEVELS - 1;

// The nodes of a file that passed all before the tree, as they are lent: the file, their region, and its samples of segment starts.
#[derive(Clone, Copy)]
pub struct Nodes<'a> {
    pub file: &'a [u8],
    pub region: Region,
    pub segments: &'a [u32; SAMPLES],
    pub ghost ready: { TreeReady Bits64 file.now region segments.now },
}

// Refusals 20 to 22 of a file that passed the others, with what they leave in the workspace.
pub fn check_tree(
    nodes: &Nodes,
    counts: &[u32; SAMPLES],
    used: usize,
    ws: &mut [u8],
) -> Result<(), Refusal>
    requires { Counts (node_size Bits64) nodes.now.file.now (nodes_at Bits64 nodes.now.file.now) nodes.now.region.shift counts.now
        × (used ≡ used_node_count Bits64 nodes.now.file.now) }
    ensures answer { answer_of result ≡ first_fault (tree_checks Bits64 nodes.now.file.now (length ws.old)) }
    ensures workspace { ws.new ≡ workspace_after Bits64 nodes.now.file.now ws.old (first_fault (tree_checks Bits64 nodes.now.file.now (length ws.old))) }
{
    if ws.len() < used {
        return Err(Refusal(Rule::Workspace, used));
    }
    marks::mark_nodes(nodes, counts, used, ws)?;
    let root = ranges::root_at(nodes.region);
    if let Some(p) = depth::find_deep(nodes, 0, root, MOST_LEVELS) {
        ws[..used].fill(0);
        return Err(Refusal(Rule::Depth, p));
    }
    Ok(())
}
