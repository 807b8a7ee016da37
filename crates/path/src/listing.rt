// The listing of a path's matches.
ghost use Rattle.std.specs.Prelude.{◌≡◌, length};
ghost use Rattle.verdict.specs.Verdict.{answer_of};
ghost use Rattle.layout.specs.Layout.{names};
ghost use Rattle.layout.specs.declared.Edition.TheVariants.{Bits64};
ghost use Rattle.strings.specs.inner.Lent.{lent_table};
ghost use Rattle.accept.specs.Rules.{FileRules};
ghost use Rattle.path.specs.Listing.{listing_after};
ghost use Rattle.path.specs.inner.Answer.{PathListed};

use crate::{below, names};
use hash::HashTables;
use strings::checked::CheckedTable;
use tree::{Nodes, ranges};
use verdict::{Refusal, Rule};

// Lists the matches of a path in a file that is accepted: refusal 24 or 25, or how many there are. The first pass, with an empty listing,
// counts them, so nothing is written unless all fit.
pub fn list_path(
    checked: &CheckedTable,
    nodes: &Nodes,
    t: &HashTables,
    path: &[u8],
    list: &mut [u8],
) -> Result<usize, Refusal>
    requires file { (lent_table checked.now.table ≡ names Bits64 checked.now.table.file.now) × (nodes.now.file.now ≡ checked.now.table.file.now) }
    requires rules { FileRules Bits64 checked.now.table.file.now }
    ensures answer { PathListed Bits64 checked.now.table.file.now path.now (length list.old) result }
    ensures listing { list.new ≡ listing_after Bits64 checked.now.table.file.now path.now list.old (answer_of result) }
{
    names::check_path(path)?;
    let Some(w) = names::find_names(checked, t, path) else {
        return Ok(0);
    };
    let wanted = &w.indices[..w.count];
    let root = ranges::root_at(nodes.region);
    let k = below::list_below(nodes, wanted, 0, root, &mut [], 0);
    if list.len() / 4 < k {
        return Err(Refusal(Rule::AnswerRoom, k));
    }
    Ok(below::list_below(nodes, wanted, 0, root, list, 0))
}
