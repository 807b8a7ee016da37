// The header report that crosses to C.
ghost use Rattle.std.specs.Prelude.{◌≡◌, ◌<◌, ◌^◌, length};
ghost use Rattle.verdict.specs.Verdict.{Accepted, refused};
ghost use Rattle.layout.specs.declared.Header.{Header};
ghost use Rattle.layout.specs.declared.Edition.TheVariants.{Bits64};
ghost use Rattle.taplinen.specs.Answers.{reported};
ghost use Rattle.taplinen.specs.Questions.{header_answer, workspace_left};

use layout::Header;
use verdict::Refusal;

// refusal 0: accepted, and the header's fields; otherwise the number of the refusal with its place, and 0 elsewhere. has_revision is a number for C.
#[repr(C)]
#[derive(Clone, Copy, Debug, Default)]
pub struct HeaderReport {
    pub refusal: u32,
    pub version: u32,
    pub place: u64,
    pub timestamp: f64,
    pub timestamp_bits: u64,
    pub has_revision: u32,
    pub revision: u32,
}

impl HeaderReport {
    // The fields of an accepted file's header. Each of its two numbers was read from four bytes.
    fn new(header: &Header) -> Self
        requires { (header.now.version < 2 ^ 32) × (header.now.revision < 2 ^ 32) }
        ensures { result ≡ reported Accepted header.now }
    {
        HeaderReport {
            refusal: 0,
            version: header.version as u32,
            place: 0,
            timestamp: header.timestamp.value,
            timestamp_bits: header.timestamp.bits,
            has_revision: 1,
            revision: header.revision as u32,
        }
    }
}

// A refusal, with no header.
impl From<Refusal> for HeaderReport {
    ghost from_gives = { λ r a. (h : Header) → a ≡ reported (refused r) h };

    fn from(r: Refusal) -> Self {
        HeaderReport {
            refusal: r.0.number(),
            place: r.1 as u64,
            ..HeaderReport::default()
        }
    }
}

pub fn taplinen_header(file: &[u8], ws: &mut [u8]) -> HeaderReport
    ensures answer { result ≡ header_answer Bits64 file.now (length ws.old) }
    ensures workspace { ws.new ≡ workspace_left Bits64 file.now ws.old }
{
    match &accept::accept(file, ws) {
        Ok(view) => HeaderReport::new(&view.header),
        Err(refusal) => (*refusal).into(),
    }
}
