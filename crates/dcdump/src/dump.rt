// What is written for what was read (FORMAT, "Frames").
ghost use Rattle.std.specs.Prelude.{◌≡◌, ◌++◌, ◌≤◌, length, take, drop};
ghost use Rattle.verdict.specs.Checks.{first_fault};
ghost use Rattle.print.specs.inner.Put.{Put};
ghost use Rattle.layout.specs.declared.Edition.TheVariants.{Bits64};
ghost use Rattle.accept.specs.Verdict.{verdict_of};
ghost use Rattle.outline.specs.Outlined.{outline_checks};
ghost use Rattle.dcdump.specs.Messages.{accepted_line};
ghost use Rattle.dcdump.specs.Output.{report_accepted, report_file, output_of};

use crate::buffers::{FILE, OUTLINE, WORKSPACE};
use crate::{buffers, messages};
use accept::file::AcceptedFile;
use outline::source::Source;

// A file's length, and the first n bytes of text.
fn put_outline(out: &mut [u8], l: usize, text: &[u8], n: usize) -> usize
    requires { n ≤ length text.now }
    ensures { Put out.old 0 (accepted_line l ++ take n text.now) result out.new }
{
    let p = messages::put_line(out, 0, b"accepted ", l);
    print::put_bytes(out, p, &text[..n])
}

// An accepted file: its length and its outline, or 26.
fn show(accepted: &AcceptedFile, out: &mut [u8]) -> usize
    ensures { Put out.old 0 (report_accepted accepted.now.file.now (first_fault (outline_checks Bits64 accepted.now.file.now 65536))) result out.new }
{
    let mut text = buffers::zeros::<OUTLINE>();
    let source = Source::from(*accepted);
    match outline::write_outline(&source, &mut text) {
        Ok(n) => put_outline(out, accepted.file.len(), &text, n),
        Err(refusal) => messages::put_refused(out, refusal),
    }
}

// A file: its refusal, or what there is to show.
fn judge(b: &[u8], out: &mut [u8]) -> usize
    ensures { Put out.old 0 (report_file b.now (verdict_of Bits64 b.now 2048)) result out.new }
{
    let mut ws = buffers::zeros::<WORKSPACE>();
    match &accept::accept(b, &mut ws) {
        Ok(view) => show(&AcceptedFile { file: b, view }, out),
        Err(refusal) => messages::put_refused(out, *refusal),
    }
}

// The whole output for an input, at the front of out: `accepted 32768`, a newline and 65,536 bytes at most.
pub fn dump(input: &[u8], out: &mut [u8]) -> usize
    requires { 65551 ≤ length out.old }
    ensures long { result ≡ length (output_of input.now) }
    ensures bytes { out.new ≡ output_of input.now ++ drop (length (output_of input.now)) out.old }
{
    let mut file = buffers::zeros::<FILE>();
    match frames::read_frames(input, &mut file) {
        Ok(n) => judge(&file[..n], out),
        Err(line) => messages::put_line(out, 0, b"bad line ", line.0),
    }
}
