// Addresses of characters.
ghost use Rattle.std.specs.Prelude.{◌≡◌, ◌+◌, ◌≤◌, ◌<◌, length};
ghost use Rattle.le.specs.Le.{u16_at};
ghost use Rattle.region.specs.inner.Samples.{Mapped, Starts};
ghost use Rattle.layout.specs.Table.{entry_segment, entry_element};
ghost use Rattle.strings.specs.Texts.{spot_at};

use crate::fields;
use layout::CHARACTER_SIZE;
use region::{Region, SAMPLES};

// Where the element number stands in an address, behind the segment number.
pub const ELEMENT_AT: usize = 2;

// Where an address stands and how many characters of its segment's used part are left there.
#[derive(Clone, Copy, Debug, PartialEq, Eq)]
pub struct Spot {
    pub at: usize,
    pub left: usize,
}

// The spot of an address, if that resolves.
pub fn spot_at(
    b: &[u8],
    chars: Region,
    segments: &[u32; SAMPLES],
    seg: usize,
    el: usize,
) -> Option<Spot>
    requires { Mapped 2 b.now chars.at chars × Starts 2 b.now chars.at chars.shift segments.now × (el < 65536) }
    ensures { result ≡ spot_at b.now chars.at seg el }
{
    if seg >= chars.count {
        return None;
    }
    let p = region::locate(b, chars, CHARACTER_SIZE, segments, seg);
    let used = le::u32_at(b, p + 4);
    if el >= used {
        return None;
    }
    Some(Spot {
        at: p + 8 + el * CHARACTER_SIZE,
        left: used - el,
    })
}

// The same for the address that stands at an offset of the file: a list position's, or an attribute's.
pub fn spot_to(b: &[u8], chars: Region, segments: &[u32; SAMPLES], at: usize) -> Option<Spot>
    requires { Mapped 2 b.now chars.at chars × Starts 2 b.now chars.at chars.shift segments.now × (at + 4 ≤ length b.now) }
    ensures { result ≡ spot_at b.now chars.at (u16_at b.now at) (u16_at b.now (at + 2)) }
{
    spot_at(
        b,
        chars,
        segments,
        le::u16_at(b, at),
        le::u16_at(b, at + ELEMENT_AT),
    )
}

// The same for the address of the entry at e.
pub fn entry_spot(b: &[u8], chars: Region, segments: &[u32; SAMPLES], e: usize) -> Option<Spot>
    requires { Mapped 2 b.now chars.at chars × Starts 2 b.now chars.at chars.shift segments.now × (e + 16 ≤ length b.now) }
    ensures { result ≡ spot_at b.now chars.at (entry_segment b.now e) (entry_element b.now e) }
{
    spot_at(
        b,
        chars,
        segments,
        fields::segment(b, e),
        fields::element(b, e),
    )
}
