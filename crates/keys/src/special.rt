// Refusal 14.
ghost use Rattle.std.specs.Prelude.{◌≡◌, ◌/◌, ◌≤◌, ◌<◌, length};
ghost use Rattle.verdict.specs.inner.Tells.{Tells};
ghost use Rattle.text.specs.Text.{chars};
ghost use Rattle.layout.specs.Table.{count};
ghost use Rattle.layout.specs.Layout.{names};
ghost use Rattle.layout.specs.declared.Edition.TheVariants.{Bits64};
ghost use Rattle.strings.specs.Texts.{listed_text};
ghost use Rattle.strings.specs.inner.Lent.{lent_table};
ghost use Rattle.keys.specs.inner.Known.{SpecialsFound};

use crate::Names;
use strings::checked::CheckedTable;
use strings::entry;
use verdict::{Refusal, Rule};

// Whether the text at list position i is the characters of x.
fn listed_is(checked: &CheckedTable, i: usize, x: &[u8]) -> bool
    requires { (1 ≤ i) × (i < count (lent_table checked.now.table)) }
    ensures { Tells (listed_text (lent_table checked.now.table) i ≡ chars x.now 0 (length x.now / 2)) result }
{
    let table = &checked.table;
    let Some(spot) = entry::listed_spot(table, i) else {
        return false;
    };
    text::bears(table.file, spot.at, spot.left, x)
}

// Refusal 14 of a file whose names table passed 7 to 13.
pub fn check_special(checked: &CheckedTable) -> Result<Names, Refusal>
    requires { lent_table checked.now.table ≡ names Bits64 checked.now.table.file.now }
    ensures { SpecialsFound Bits64 checked.now.table.file.now result }
{
    let table = &checked.table;
    let root = b"_\0_\0r\0o\0o\0t\0_\0_\0";
    let value = b"_\0_\0v\0a\0l\0u\0e\0_\0_\0";
    let n = le::u32_at(table.file, table.parts.list) - 1;
    if n >= 2 {
        if listed_is(checked, n, root) && listed_is(checked, n - 1, value) {
            return Ok(Names {
                count: n,
                root: n,
                value: n - 1,
            });
        }
        if listed_is(checked, n, value) && listed_is(checked, n - 1, root) {
            return Ok(Names {
                count: n,
                root: n - 1,
                value: n,
            });
        }
    }
    Err(Refusal(Rule::SpecialNames, table.parts.list))
}
