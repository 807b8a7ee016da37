// What the outline is written from: an accepted file, and the places and samples of its view.
ghost use Rattle.std.specs.Prelude.{◌≡◌};
ghost use Rattle.verdict.specs.Verdict.{Accepted};
ghost use Rattle.region.specs.inner.Samples.{Starts};
ghost use Rattle.layout.specs.Edition.{attribute_size, node_size};
ghost use Rattle.layout.specs.Layout.{attributes_at, nodes_at};
ghost use Rattle.layout.specs.inner.View.{PlacesFit};
ghost use Rattle.layout.specs.declared.Edition.TheVariants.{Bits64};
ghost use Rattle.tree.specs.File.{used_node_count};
ghost use Rattle.accept.specs.Verdict.{verdict_of};
ghost use Rattle.outline.specs.inner.Ready.{ValueStarts, NameStarts};

use accept::file::AcceptedFile;
use layout::View;
use tree::Nodes;

// An accepted file and its view. With room for each used node its verdict is acceptance: every rule but 20, which is about the workspace, holds.
#[derive(Clone, Copy)]
pub struct Source<'a> {
    pub file: &'a [u8],
    pub view: &'a View,
    pub ghost accepted: { verdict_of Bits64 file.now (used_node_count Bits64 file.now) ≡ Accepted },
    pub ghost placed: { PlacesFit Bits64 file.now view.now.places },
    pub ghost attributes: { Starts (attribute_size Bits64) file.now (attributes_at file.now) view.now.places.attributes.shift view.now.attribute_segments },
    pub ghost nodes: { Starts (node_size Bits64) file.now (nodes_at Bits64 file.now) view.now.places.nodes.shift view.now.node_segments },
    pub ghost values: { ValueStarts Bits64 file.now view.now.places view.now.value_segments },
    pub ghost names: { NameStarts Bits64 file.now view.now.places view.now.name_segments },
}

impl<'a> Source<'a> {
    // Its nodes.
    pub(crate) fn nodes(&self) -> Nodes<'a>
        ensures { result.file.now ≡ self.now.file.now }
    {
        Nodes {
            file: self.file,
            region: self.view.places.nodes,
            segments: &self.view.node_segments,
        }
    }
}

impl<'a> From<AcceptedFile<'a>> for Source<'a> {
    ghost from_gives = { λ accepted source. source.file.now ≡ accepted.file.now };

    fn from(accepted: AcceptedFile<'a>) -> Self {
        Source {
            file: accepted.file,
            view: accepted.view,
        }
    }
}
