// Lookups in a file that is accepted and whose view is held: nothing is checked a second time. The view is lent, and so are its arrays.
ghost use Rattle.std.specs.Prelude.{◌≡◌, ◌%◌, length};
ghost use Rattle.verdict.specs.Verdict.{answer_of};
ghost use Rattle.layout.specs.declared.Edition.TheVariants.{Bits64};
ghost use Rattle.strings.specs.inner.Lent.{lent_table};
ghost use Rattle.lookup.specs.Lookup.{text_from};
ghost use Rattle.lookup.specs.Kinds.{told_in, table_of};
ghost use Rattle.batch.specs.Places.{answers_after};
ghost use Rattle.batch.specs.inner.Answer.{Answered};

use accept::file::AcceptedFile;
use hash::HashTables;
use lookup::{Kind, Lookup};
use strings::checked::CheckedTable;
use verdict::Refusal;

// The table that is asked, by kind: a value, and no step.
fn asked_table<'a>(accepted: &AcceptedFile<'a>, kind: Kind) -> CheckedTable<'a>
    ensures { lent_table result.table ≡ table_of Bits64 kind accepted.now.file.now }
{
    match kind {
        Kind::Name => accepted.names(),
        Kind::Value => accepted.values(),
    }
}

// What one text is told. It has an even number of bytes: for an odd one the question is refused with 24.
pub fn find(accepted: &AcceptedFile, kind: Kind, text: &[u8]) -> Lookup
    requires { length text.now % 2 ≡ 0 }
    ensures { result ≡ told_in kind (table_of Bits64 kind accepted.now.file.now) (text_from text.now) }
{
    let t = HashTables::new();
    lookup::find_text(&asked_table(accepted, kind), &t, kind, text)
}

// What each of many texts is told.
pub fn find_texts(
    accepted: &AcceptedFile,
    kind: Kind,
    texts: &[u8],
    answers: &mut [u8],
) -> Result<usize, Refusal>
    ensures answer { Answered texts.now (length answers.old) result }
    ensures answers { answers.new
        ≡ answers_after (told_in kind (table_of Bits64 kind accepted.now.file.now)) texts.now answers.old (answer_of result) }
{
    let t = HashTables::new();
    batch::find_each(&asked_table(accepted, kind), &t, kind, texts, answers)
}
