// The outline.
ghost use Rattle.std.specs.Prelude.{◌≡◌, length};
ghost use Rattle.layout.specs.declared.Edition.TheVariants.{Bits64};
ghost use Rattle.taplinen.specs.Questions.{outline_answer, outline_buffer, workspace_left};

use crate::answer::Answer;
use accept::file::AcceptedFile;
use outline::source::Source;

// The outline of a file, written to a buffer: its length in bytes, or the bytes needed.
pub fn taplinen_outline(file: &[u8], ws: &mut [u8], out: &mut [u8]) -> Answer
    ensures answer { result ≡ outline_answer Bits64 file.now (length ws.old) (length out.old) }
    ensures workspace { ws.new ≡ workspace_left Bits64 file.now ws.old }
    ensures outline { out.new ≡ outline_buffer Bits64 file.now (length ws.old) out.old }
{
    match &accept::accept(file, ws) {
        Ok(view) => {
            let source = Source::from(AcceptedFile { file, view });
            outline::write_outline(&source, out).into()
        }
        Err(refusal) => (*refusal).into(),
    }
}
