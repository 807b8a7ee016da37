// The string tables of a file that is laid out, lent with what its view holds of them.
ghost use Rattle.std.specs.Prelude.{◌≡◌};
ghost use Rattle.layout.specs.Layout.{values, names};
ghost use Rattle.layout.specs.inner.View.{Fits};
ghost use Rattle.layout.specs.declared.Edition.TheVariants.{Bits64};
ghost use Rattle.strings.specs.inner.Lent.{lent_table};

use layout::View;
use strings::{StringTable, Strings};

// The table of its values.
pub(crate) fn values_of<'a>(file: &'a [u8], view: &'a View) -> StringTable<'a>
    requires { Fits Bits64 file.now view.now }
    ensures { (lent_table result ≡ values Bits64 file.now) × (result.file.now ≡ file.now) }
{
    StringTable {
        file,
        parts: Strings {
            chars: view.places.value_chars,
            list: view.places.value_list,
        },
        segments: &view.value_segments,
        buckets: &view.value_buckets,
    }
}

// The table of its names.
pub(crate) fn names_of<'a>(file: &'a [u8], view: &'a View) -> StringTable<'a>
    requires { Fits Bits64 file.now view.now }
    ensures { (lent_table result ≡ names Bits64 file.now) × (result.file.now ≡ file.now) }
{
    StringTable {
        file,
        parts: Strings {
            chars: view.places.name_chars,
            list: view.places.name_list,
        },
        segments: &view.name_segments,
        buckets: &view.name_buckets,
    }
}
