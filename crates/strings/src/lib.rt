// Refusals 7 to 12: the entries of a string table (FORMAT, "String tables", "Refusals").
#![tactic(auto)]

ghost use Rattle.strings.specs.inner.Held.{Held};

pub mod ahead;
mod apart;
pub mod checked;
pub mod entry;
pub mod fields;
mod listed;
pub mod spot;
pub mod table;

use region::{Region, SAMPLES};

// Where the parts of a string table are: its characters, and its address count.
#[derive(Clone, Copy, Debug, PartialEq, Eq)]
pub struct Strings {
    pub chars: Region,
    pub list: usize,
}

// A string table, as it is lent: the file, where its parts are, the samples of its segment starts, and its bucket starts.
#[derive(Clone, Copy)]
pub struct StringTable<'a> {
    pub file: &'a [u8],
    pub parts: Strings,
    pub segments: &'a [u32; SAMPLES],
    pub buckets: &'a [u32],
    pub ghost held: { Held file.now parts segments.now buckets.now },
}
