// Escaped texts: of an address, and of a name index.
ghost use Rattle.std.specs.Prelude.{◌+◌, ◌*◌, ◌≤◌, length};
ghost use Rattle.text.specs.Text.{text_in, text_at};
ghost use Rattle.layout.specs.declared.Edition.TheVariants.{Bits64};
ghost use Rattle.keys.specs.Names.{name_count, name_text};
ghost use Rattle.print.specs.inner.Put.{Put};
ghost use Rattle.print.specs.Text.{escaped};
ghost use Rattle.outline.specs.inner.Ready.{TextHeld};

use crate::source::Source;
use region::{Region, SAMPLES};
use strings::spot;

// The text at offset q, of at most n characters.
fn put_chars(b: &[u8], q: usize, n: usize, out: &mut [u8], at: usize) -> usize
    requires { q + 2 * n ≤ length b.now }
    ensures { Put out.old at (escaped (text_in b.now q n)) result out.new }
{
    let mut p = at;
    for i in 0..n {
        let c = le::u16_at(b, q + 2 * i);
        if c == 0 {
            return p;
        }
        p = print::put_char(out, p, c);
    }
    p
}

// The text at an address of some characters.
pub fn put_text(
    b: &[u8],
    chars: Region,
    segments: &[u32; SAMPLES],
    seg: usize,
    el: usize,
    out: &mut [u8],
    at: usize,
) -> usize
    requires { TextHeld b.now chars segments.now seg el }
    ensures { Put out.old at (escaped (text_at b.now chars.at seg el)) result out.new }
{
    let spot = spot::spot_at(b, chars, segments, seg, el).unwrap();
    put_chars(b, spot.at, spot.left, out, at)
}

// The text of a name index.
pub fn put_name(source: &Source, i: usize, out: &mut [u8], at: usize) -> usize
    requires { (1 ≤ i) × (i ≤ name_count Bits64 source.now.file.now) }
    ensures { Put out.old at (escaped (name_text Bits64 source.now.file.now i)) result out.new }
{
    let b = source.file;
    let x = source.view.places.name_list + 4 * i;
    put_text(
        b,
        source.view.places.name_chars,
        &source.view.name_segments,
        le::u16_at(b, x),
        le::u16_at(b, x + 2),
        out,
        at,
    )
}
