// An accepted file, with its view: what every question goes by.
ghost use Rattle.std.specs.Prelude.{◌≡◌};
ghost use Rattle.verdict.specs.Verdict.{Accepted};
ghost use Rattle.layout.specs.Layout.{values, names};
ghost use Rattle.layout.specs.inner.View.{Fits};
ghost use Rattle.layout.specs.declared.Edition.TheVariants.{Bits64};
ghost use Rattle.strings.specs.inner.Lent.{lent_table};
ghost use Rattle.tree.specs.File.{used_node_count};
ghost use Rattle.accept.specs.Verdict.{verdict_of};

use crate::tables;
use layout::View;
use strings::checked::CheckedTable;
use tree::Nodes;

// An accepted file and its view. With room for each used node its verdict is acceptance: every rule but 20, which is about the workspace, holds.
#[derive(Clone, Copy)]
pub struct AcceptedFile<'a> {
    pub file: &'a [u8],
    pub view: &'a View,
    pub ghost fits: { Fits Bits64 file.now view.now },
    pub ghost accepted: { verdict_of Bits64 file.now (used_node_count Bits64 file.now) ≡ Accepted },
}

impl<'a> AcceptedFile<'a> {
    // The table of its names.
    pub fn names(&self) -> CheckedTable<'a>
        ensures { (lent_table result.table ≡ names Bits64 self.now.file.now) × (result.table.file.now ≡ self.now.file.now) }
    {
        CheckedTable {
            table: tables::names_of(self.file, self.view),
        }
    }

    // The table of its values.
    pub fn values(&self) -> CheckedTable<'a>
        ensures { (lent_table result.table ≡ values Bits64 self.now.file.now) × (result.table.file.now ≡ self.now.file.now) }
    {
        CheckedTable {
            table: tables::values_of(self.file, self.view),
        }
    }

    // Its nodes.
    pub fn nodes(&self) -> Nodes<'a>
        ensures { (result.file.now ≡ self.now.file.now) × (result.region ≡ self.now.view.now.places.nodes) }
    {
        Nodes {
            file: self.file,
            region: self.view.places.nodes,
            segments: &self.view.node_segments,
        }
    }
}
