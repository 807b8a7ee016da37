// Accept, name by text, value by text and path listing.
ghost use Rattle.std.specs.Prelude.{◌≡◌, length};
ghost use Rattle.layout.specs.declared.Edition.TheVariants.{Bits64};
ghost use Rattle.taplinen.specs.Questions.{accept_answer, text_answer, name_answer, value_answer, path_answer, path_listing, workspace_left};

use crate::answer::Answer;
use crate::lookups;
use accept::file::AcceptedFile;
use hash::HashTables;
use lookup::Kind;
use verdict::{Refusal, Rule};

// Accepts a file: the number of used nodes, which is the workspace that every question needs.
pub fn taplinen_accept(file: &[u8], ws: &mut [u8]) -> Answer
    ensures answer { result ≡ accept_answer Bits64 file.now (length ws.old) }
    ensures workspace { ws.new ≡ workspace_left Bits64 file.now ws.old }
{
    match &accept::accept(file, ws) {
        Ok(view) => Answer::new(0, view.places.used_nodes),
        Err(refusal) => (*refusal).into(),
    }
}

// Asks for a text in either table. Every question matches on what acceptance gave: of a closure that writes the caller's buffer a proof would know
// nothing afterwards.
fn ask(file: &[u8], ws: &mut [u8], kind: Kind, text: &[u8]) -> Answer
    ensures answer { result ≡ text_answer Bits64 kind file.now (length ws.old) text.now }
    ensures workspace { ws.new ≡ workspace_left Bits64 file.now ws.old }
{
    match &accept::accept(file, ws) {
        Ok(_) if text.len() % 2 != 0 => Refusal(Rule::AskedText, text.len()).into(),
        Ok(view) => lookups::find(&AcceptedFile { file, view }, kind, text).into(),
        Err(refusal) => (*refusal).into(),
    }
}

// C asks for names and for values by functions of their own. The index of a name.
pub fn taplinen_name(file: &[u8], ws: &mut [u8], text: &[u8]) -> Answer
    ensures answer { result ≡ name_answer Bits64 file.now (length ws.old) text.now }
    ensures workspace { ws.new ≡ workspace_left Bits64 file.now ws.old }
{
    ask(file, ws, Kind::Name, text)
}

// The address of a value.
pub fn taplinen_value(file: &[u8], ws: &mut [u8], text: &[u8]) -> Answer
    ensures answer { result ≡ value_answer Bits64 file.now (length ws.old) text.now }
    ensures workspace { ws.new ≡ workspace_left Bits64 file.now ws.old }
{
    ask(file, ws, Kind::Value, text)
}

// The matches of a path.
pub fn taplinen_path(file: &[u8], ws: &mut [u8], path: &[u8], list: &mut [u8]) -> Answer
    ensures answer { result ≡ path_answer Bits64 file.now (length ws.old) path.now (length list.old) }
    ensures workspace { ws.new ≡ workspace_left Bits64 file.now ws.old }
    ensures listing { list.new ≡ path_listing Bits64 file.now (length ws.old) path.now list.old }
{
    match &accept::accept(file, ws) {
        Ok(view) => {
            let accepted = AcceptedFile { file, view };
            let t = HashTables::new();
            path::listing::list_path(&accepted.names(), &accepted.nodes(), &t, path, list).into()
        }
        Err(refusal) => (*refusal).into(),
    }
}
