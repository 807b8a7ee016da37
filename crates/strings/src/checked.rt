// String tables of which more is known.
ghost use Rattle.std.specs.Prelude.{◌≡◌};
ghost use Rattle.verdict.specs.Checks.{first_fault};
ghost use Rattle.verdict.specs.Verdict.{Accepted};
ghost use Rattle.layout.specs.Layout.{values};
ghost use Rattle.layout.specs.declared.Edition.TheVariants.{Bits64};
ghost use Rattle.strings.specs.Order.{string_checks};
ghost use Rattle.strings.specs.inner.Lent.{lent_table};

use crate::StringTable;

// A string table that passed 7 to 13.
#[derive(Clone, Copy)]
pub struct CheckedTable<'a> {
    pub table: StringTable<'a>,
    pub ghost checked: { first_fault (string_checks (lent_table table)) ≡ Accepted },
}

// The checked table that is the values table of its file.
#[derive(Clone, Copy)]
pub struct ValuesTable<'a> {
    pub checked: CheckedTable<'a>,
    pub ghost of_file: { lent_table checked.table ≡ values Bits64 checked.table.file.now },
}
