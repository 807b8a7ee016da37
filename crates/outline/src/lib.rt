// The outline of an accepted file (FORMAT, "Outline").
#![tactic(auto)]

ghost use Rattle.std.specs.Prelude.{◌≡◌, length};
ghost use Rattle.verdict.specs.Verdict.{answer_of};
ghost use Rattle.layout.specs.declared.Edition.TheVariants.{Bits64};
ghost use Rattle.outline.specs.Outlined.{outline_after};
ghost use Rattle.outline.specs.inner.Answer.{OutlineWritten};

mod blocks;
pub mod source;
mod texts;
mod values;

use source::Source;
use tree::{DEEPEST_LEVEL, ranges};
use verdict::{Refusal, Rule};

// Writes the root's block: its length in bytes, or refusal 26. The first pass, with an empty buffer, tells the length, so nothing is written
// unless all of it fits.
pub fn write_outline(source: &Source, out: &mut [u8]) -> Result<usize, Refusal>
    ensures answer { OutlineWritten Bits64 source.now.file.now (length out.old) result }
    ensures buffer { out.new ≡ outline_after Bits64 source.now.file.now out.old (answer_of result) }
{
    let root = ranges::root_at(source.view.places.nodes);
    let n = blocks::write_node(source, 0, root, 0, DEEPEST_LEVEL, &mut [], 0);
    if out.len() < n {
        return Err(Refusal(Rule::OutlineRoom, n));
    }
    Ok(blocks::write_node(source, 0, root, 0, DEEPEST_LEVEL, out, 0))
}
