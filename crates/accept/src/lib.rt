// Acceptance: every refusal of 1 to 23, the first fault in the stated order (FORMAT, "Refusals").
#![tactic(auto)]

ghost use Rattle.std.specs.Prelude.{◌≡◌, length};
ghost use Rattle.verdict.specs.Verdict.{answer_of};
ghost use Rattle.layout.specs.inner.View.{Fits};
ghost use Rattle.layout.specs.declared.Edition.TheVariants.{Bits64};
ghost use Rattle.tree.specs.Outcome.{workspace_after};
ghost use Rattle.accept.specs.Verdict.{verdict_of};
ghost use Rattle.accept.specs.inner.Accepted.{Judged};

pub mod file;
mod tables;

use hash::HashTables;
use layout::View;
use nodes::prepared::PreparedFile;
use strings::checked::CheckedTable;
use tree::Nodes;
use verdict::Refusal;

// Refusals 7 to 23 of a file that is laid out, with what they leave in the workspace.
fn check_contents(b: &[u8], v: &View, ws: &mut [u8]) -> Result<(), Refusal>
    requires { Fits Bits64 b.now v.now }
    ensures answer { answer_of result ≡ verdict_of Bits64 b.now (length ws.old) }
    ensures workspace { ws.new ≡ workspace_after Bits64 b.now ws.old (verdict_of Bits64 b.now (length ws.old)) }
{
    let t = HashTables::new();
    let values = tables::values_of(b, v);
    let packed = positions::check_table(&values, &t)?;
    let names = tables::names_of(b, v);
    positions::check_table(&names, &t)?;
    let checked = CheckedTable { table: names };
    let special = keys::special::check_special(&checked)?;
    keys::list::check_keys(b, special)?;
    let prepared = PreparedFile {
        file: b,
        view: v,
        names: special,
    };
    prefetch::all::check_nodes_in_batches(&prepared, &t, packed)?;
    let nodes = Nodes {
        file: b,
        region: v.places.nodes,
        segments: &v.node_segments,
    };
    tree::check_tree(&nodes, &v.node_counts, v.places.used_nodes, ws)
}

// Accepts a file, with its view, or refuses it.
pub fn accept(b: &[u8], ws: &mut [u8]) -> Result<View, Refusal>
    ensures answer { Judged Bits64 b.now ws.old result }
    ensures workspace { ws.new ≡ workspace_after Bits64 b.now ws.old (verdict_of Bits64 b.now (length ws.old)) }
{
    let v = layout::whole::check_layout(b)?;
    check_contents(b, &v, ws)?;
    Ok(v)
}
