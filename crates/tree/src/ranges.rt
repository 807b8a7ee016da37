// A node's child range, as the walks down the tree find it.
ghost use Rattle.std.specs.Prelude.{◌≡◌, ◌+◌, ◌≤◌, ◌<◌, ◌^◌, length};
ghost use Rattle.layout.specs.Edition.{node_size};
ghost use Rattle.layout.specs.declared.Edition.TheVariants.{Bits64};
ghost use Rattle.tree.specs.inner.Marking.{Reached};
ghost use Rattle.tree.specs.inner.Children.{ChildrenOf};

use crate::Nodes;
use layout::NODE_SIZE;
use nodes::fields;
use region::{Region, SEGMENT_HEADER};

// The number of the first, where it stands, and how many they are. No children are an empty range: where it starts, nobody asks.
#[derive(Clone, Copy)]
pub struct Children {
    pub first: usize,
    pub place: usize,
    pub count: usize,
}

// Where the root stands: it is the first node of the first segment.
pub fn root_at(nodes: Region) -> usize
    requires { nodes.at < 2 ^ 32 }
    ensures { result ≡ nodes.at + 12 }
{
    region::first_start(nodes) + SEGMENT_HEADER
}

// The children of the node at p; a nameless node has none.
pub fn children_of(nodes: &Nodes, p: usize) -> Children
    requires { Reached Bits64 nodes.now.file.now p × (p + node_size Bits64 ≤ length nodes.now.file.now) }
    ensures { ChildrenOf Bits64 nodes.now.file.now p result }
{
    let seg = fields::child_segment(nodes.file, p);
    let el = fields::child_element(nodes.file, p);
    let first = seg * 65536 + el;
    let none = Children {
        first,
        place: 0,
        count: 0,
    };
    if fields::node_name(nodes.file, p) == 0 {
        return none;
    }
    let count = fields::child_field(nodes.file, p);
    if count == 0 {
        return none;
    }
    let Some(place) = region::range_at(
        nodes.file,
        nodes.region,
        NODE_SIZE,
        nodes.segments,
        seg,
        el,
        count,
    ) else {
        return none;
    };
    Children {
        first,
        place,
        count,
    }
}
