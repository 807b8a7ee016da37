// What the checks of nodes go by: a file that is laid out, whose values table passed 7 to 13, and whose special names are known.
ghost use Rattle.std.specs.Prelude.{◌≡◌};
ghost use Rattle.layout.specs.declared.Edition.TheVariants.{Bits64};
ghost use Rattle.nodes.specs.inner.Held.{Ready};

use keys::Names;
use layout::View;
use strings::checked::{CheckedTable, ValuesTable};
use strings::{StringTable, Strings};

// The file, its view, and the special names.
#[derive(Clone, Copy)]
pub struct PreparedFile<'a> {
    pub file: &'a [u8],
    pub view: &'a View,
    pub names: Names,
    pub ghost ready: { Ready Bits64 file.now view.now.places names view.now.attribute_segments view.now.node_segments view.now.value_segments
        view.now.value_buckets },
}

impl<'a> PreparedFile<'a> {
    // Its values table.
    pub fn values(&self) -> ValuesTable<'a>
        ensures { result.checked.table.file.now ≡ self.now.file.now }
    {
        let table = StringTable {
            file: self.file,
            parts: Strings {
                chars: self.view.places.value_chars,
                list: self.view.places.value_list,
            },
            segments: &self.view.value_segments,
            buckets: &self.view.value_buckets,
        };
        ValuesTable {
            checked: CheckedTable { table },
        }
    }
}
