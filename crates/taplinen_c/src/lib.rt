// What C calls: one export for each question of the library taplinen, with the same clauses. Callers check nothing first.
#![tactic(auto)]

ghost use Rattle.std.specs.Prelude.{◌≡◌, length};
ghost use Rattle.layout.specs.declared.Edition.TheVariants.{Bits64};
ghost use Rattle.taplinen.specs.Questions.{accept_answer, header_answer, name_answer, value_answer, path_answer, path_listing, outline_answer, outline_buffer, workspace_left};
ghost use Rattle.taplinen.specs.Batches.{batch_answer, name_places, value_places};
ghost use Rattle.taplinen.specs.Hashes.{hash_answer, value_hash_answer};
ghost use Rattle.taplinen.specs.Version.{version_number};

use taplinen::answer::Answer;
use taplinen::header::HeaderReport;
use taplinen::{batches, hashes, header, outlines, questions, version};

// The version of the library.
#[unsafe(no_mangle)]
pub extern "C" fn taplinen_version() -> u32
    ensures { result ≡ version_number }
{
    version::taplinen_version()
}

// Accepts a file: the number of used nodes, which is the workspace that every question needs.
#[unsafe(no_mangle)]
pub extern "C" fn taplinen_accept(file: &[u8], ws: &mut [u8]) -> Answer
    ensures answer { result ≡ accept_answer Bits64 file.now (length ws.old) }
    ensures workspace { ws.new ≡ workspace_left Bits64 file.now ws.old }
{
    questions::taplinen_accept(file, ws)
}

// The header report.
#[unsafe(no_mangle)]
pub extern "C" fn taplinen_header(file: &[u8], ws: &mut [u8]) -> HeaderReport
    ensures answer { result ≡ header_answer Bits64 file.now (length ws.old) }
    ensures workspace { ws.new ≡ workspace_left Bits64 file.now ws.old }
{
    header::taplinen_header(file, ws)
}

// The index of a name.
#[unsafe(no_mangle)]
pub extern "C" fn taplinen_name(file: &[u8], ws: &mut [u8], text: &[u8]) -> Answer
    ensures answer { result ≡ name_answer Bits64 file.now (length ws.old) text.now }
    ensures workspace { ws.new ≡ workspace_left Bits64 file.now ws.old }
{
    questions::taplinen_name(file, ws, text)
}

// The address of a value.
#[unsafe(no_mangle)]
pub extern "C" fn taplinen_value(file: &[u8], ws: &mut [u8], text: &[u8]) -> Answer
    ensures answer { result ≡ value_answer Bits64 file.now (length ws.old) text.now }
    ensures workspace { ws.new ≡ workspace_left Bits64 file.now ws.old }
{
    questions::taplinen_value(file, ws, text)
}

// The indices of many names.
#[unsafe(no_mangle)]
pub extern "C" fn taplinen_names(
    file: &[u8],
    ws: &mut [u8],
    texts: &[u8],
    answers: &mut [u8],
) -> Answer
    ensures answer { result ≡ batch_answer Bits64 file.now (length ws.old) texts.now (length answers.old) }
    ensures workspace { ws.new ≡ workspace_left Bits64 file.now ws.old }
    ensures answers { answers.new ≡ name_places Bits64 file.now (length ws.old) texts.now answers.old }
{
    batches::taplinen_names(file, ws, texts, answers)
}

// The addresses of many values.
#[unsafe(no_mangle)]
pub extern "C" fn taplinen_values(
    file: &[u8],
    ws: &mut [u8],
    texts: &[u8],
    answers: &mut [u8],
) -> Answer
    ensures answer { result ≡ batch_answer Bits64 file.now (length ws.old) texts.now (length answers.old) }
    ensures workspace { ws.new ≡ workspace_left Bits64 file.now ws.old }
    ensures answers { answers.new ≡ value_places Bits64 file.now (length ws.old) texts.now answers.old }
{
    batches::taplinen_values(file, ws, texts, answers)
}

// The matches of a path.
#[unsafe(no_mangle)]
pub extern "C" fn taplinen_path(file: &[u8], ws: &mut [u8], path: &[u8], list: &mut [u8]) -> Answer
    ensures answer { result ≡ path_answer Bits64 file.now (length ws.old) path.now (length list.old) }
    ensures workspace { ws.new ≡ workspace_left Bits64 file.now ws.old }
    ensures listing { list.new ≡ path_listing Bits64 file.now (length ws.old) path.now list.old }
{
    questions::taplinen_path(file, ws, path, list)
}

// The outline of a file, written to a buffer: its length in bytes, or the bytes needed.
#[unsafe(no_mangle)]
pub extern "C" fn taplinen_outline(file: &[u8], ws: &mut [u8], out: &mut [u8]) -> Answer
    ensures answer { result ≡ outline_answer Bits64 file.now (length ws.old) (length out.old) }
    ensures workspace { ws.new ≡ workspace_left Bits64 file.now ws.old }
    ensures outline { out.new ≡ outline_buffer Bits64 file.now (length ws.old) out.old }
{
    outlines::taplinen_outline(file, ws, out)
}

// The hash of a text, on from the hash of what stands before it, or from 0.
#[unsafe(no_mangle)]
pub extern "C" fn taplinen_hash(start: u32, text: &[u8]) -> u32
    ensures { result ≡ hash_answer start text.now }
{
    hashes::taplinen_hash(start, text)
}

// The value hash of a text.
#[unsafe(no_mangle)]
pub extern "C" fn taplinen_value_hash(text: &[u8]) -> u32
    ensures { result ≡ value_hash_answer text.now }
{
    hashes::taplinen_value_hash(text)
}
