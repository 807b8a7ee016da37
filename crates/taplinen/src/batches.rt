// Many names by text, and many values by text, in one acceptance.
ghost use Rattle.std.specs.Prelude.{◌≡◌, length};
ghost use Rattle.layout.specs.declared.Edition.TheVariants.{Bits64};
ghost use Rattle.taplinen.specs.Questions.{workspace_left};
ghost use Rattle.taplinen.specs.Batches.{batch_answer, batch_places, name_places, value_places};

use crate::answer::Answer;
use crate::lookups;
use accept::file::AcceptedFile;
use lookup::Kind;

// Asks for many texts in either table.
fn ask_each(file: &[u8], ws: &mut [u8], kind: Kind, texts: &[u8], answers: &mut [u8]) -> Answer
    ensures answer { result ≡ batch_answer Bits64 file.now (length ws.old) texts.now (length answers.old) }
    ensures workspace { ws.new ≡ workspace_left Bits64 file.now ws.old }
    ensures answers { answers.new ≡ batch_places Bits64 kind file.now (length ws.old) texts.now answers.old }
{
    match &accept::accept(file, ws) {
        Ok(view) => lookups::find_texts(&AcceptedFile { file, view }, kind, texts, answers).into(),
        Err(refusal) => (*refusal).into(),
    }
}

// The indices of many names.
pub fn taplinen_names(file: &[u8], ws: &mut [u8], texts: &[u8], answers: &mut [u8]) -> Answer
    ensures answer { result ≡ batch_answer Bits64 file.now (length ws.old) texts.now (length answers.old) }
    ensures workspace { ws.new ≡ workspace_left Bits64 file.now ws.old }
    ensures answers { answers.new ≡ name_places Bits64 file.now (length ws.old) texts.now answers.old }
{
    ask_each(file, ws, Kind::Name, texts, answers)
}

// The addresses of many values.
pub fn taplinen_values(file: &[u8], ws: &mut [u8], texts: &[u8], answers: &mut [u8]) -> Answer
    ensures answer { result ≡ batch_answer Bits64 file.now (length ws.old) texts.now (length answers.old) }
    ensures workspace { ws.new ≡ workspace_left Bits64 file.now ws.old }
    ensures answers { answers.new ≡ value_places Bits64 file.now (length ws.old) texts.now answers.old }
{
    ask_each(file, ws, Kind::Value, texts, answers)
}
