// The fields of the entry at offset e of the file (FORMAT, "String tables").
ghost use Rattle.std.specs.Prelude.{◌≡◌, ◌+◌, ◌≤◌, ◌<◌, ◌^◌, length};
ghost use Rattle.layout.specs.Table.{entry_hash, entry_length, entry_index, entry_segment, entry_element};

use crate::spot;

// Where the fields stand in an entry, whose hash comes first. An address is a segment number and an element number.
const LENGTH_AT: usize = 4;

pub const INDEX_AT: usize = 8;

pub const ADDRESS_AT: usize = 12;

const ELEMENT_AT: usize = ADDRESS_AT + spot::ELEMENT_AT;

pub fn hash(b: &[u8], e: usize) -> usize
    requires { e + 16 ≤ length b.now }
    ensures { (result ≡ entry_hash b.now e) × (result < 2 ^ 32) }
{
    le::u32_at(b, e)
}

pub fn length(b: &[u8], e: usize) -> usize
    requires { e + 16 ≤ length b.now }
    ensures { result ≡ entry_length b.now e }
{
    le::u32_at(b, e + LENGTH_AT)
}

pub fn index(b: &[u8], e: usize) -> usize
    requires { e + 16 ≤ length b.now }
    ensures { result ≡ entry_index b.now e }
{
    le::u32_at(b, e + INDEX_AT)
}

pub fn segment(b: &[u8], e: usize) -> usize
    requires { e + 16 ≤ length b.now }
    ensures { (result ≡ entry_segment b.now e) × (result < 65536) }
{
    le::u16_at(b, e + ADDRESS_AT)
}

pub fn element(b: &[u8], e: usize) -> usize
    requires { e + 16 ≤ length b.now }
    ensures { (result ≡ entry_element b.now e) × (result < 65536) }
{
    le::u16_at(b, e + ELEMENT_AT)
}
