// Lines and blocks. The node writer and the child-range writer call each other: a level deeper at each turn, never along the children.
ghost use Rattle.std.specs.Prelude.{◌≡◌, ◌+◌, ◌≤◌};
ghost use Rattle.layout.specs.declared.Edition.TheVariants.{Bits64};
ghost use Rattle.nodes.specs.Node.{Live};
ghost use Rattle.tree.specs.Chain.{ranged, deepest_level};
ghost use Rattle.tree.specs.File.{Used, node_of, tree_of};
ghost use Rattle.print.specs.inner.Put.{Put};
ghost use Rattle.outline.specs.Outline.{line, shown, block};
ghost use Rattle.outline.specs.inner.Ready.{NodeReady};

use crate::source::Source;
use crate::{texts, values};
use layout::NODE_SIZE;
use nodes::fields;
use tree::ranges;

// The line of the live node at x.
fn put_node(source: &Source, level: usize, x: usize, out: &mut [u8], at: usize) -> usize
    requires { NodeReady Bits64 source.now.file.now x × (level ≤ deepest_level) }
    ensures { Put out.old at (line Bits64 source.now.file.now level x) result out.new }
{
    let c = print::put_spaces(out, at, 2 * level);
    let d = texts::put_name(source, fields::node_name(source.file, x), out, c);
    let e = values::put_attributes(source, x, out, d);
    print::put(out, e, b'\n')
}

// The block of the live node a, which stands at x: its line and, while `left` levels may follow, the blocks of its children.
#[cycle(write_node_write_range)]
pub fn write_node(
    source: &Source,
    a: usize,
    x: usize,
    level: usize,
    left: usize,
    out: &mut [u8],
    at: usize,
) -> usize
    requires { Used Bits64 source.now.file.now a × (x ≡ node_of Bits64 source.now.file.now a) × Live source.now.file.now x × (level + left ≤ deepest_level) }
    ensures { Put out.old at (block Bits64 source.now.file.now left level a) result out.new }
{
    let e = put_node(source, level, x, out, at);
    if left == 0 {
        return e;
    }
    write_range(source, a, x, level + 1, left - 1, out, e)
}

// The blocks of the live ones in the child range of node a, which stands at x.
#[cycle(write_node_write_range)]
fn write_range(
    source: &Source,
    a: usize,
    x: usize,
    level: usize,
    left: usize,
    out: &mut [u8],
    at: usize,
) -> usize
    requires { Used Bits64 source.now.file.now a × (x ≡ node_of Bits64 source.now.file.now a) × (level + left ≤ deepest_level) }
    ensures { Put out.old at (ranged (shown Bits64 source.now.file.now (block Bits64 source.now.file.now left level))
        ((tree_of Bits64 source.now.file.now).first a) ((tree_of Bits64 source.now.file.now).count a)) result out.new }
{
    let k = ranges::children_of(&source.nodes(), x);
    let mut e = at;
    for j in 0..k.count {
        let c = k.place + j * NODE_SIZE;
        if fields::node_name(source.file, c) != 0 {
            e = write_node(source, k.first + j, c, level, left, out, e);
        }
    }
    e
}
