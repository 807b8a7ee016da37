// Refusals 1 to 6 along the file, and the view of a file that passes them (FORMAT, "File layout").
#![tactic(auto)]

mod front;
mod tables;
pub mod whole;

use le::Float64;
use region::{Region, SAMPLES};

// A file has at most so many bytes.
pub const MOST_BYTES: usize = 1_073_741_824;

// Where the key count stands.
pub const KEYS_AT: usize = 32;

// Where the first key stands.
pub const FIRST_KEY_AT: usize = 36;

// The bytes of a key.
pub const KEY_SIZE: usize = 8;

// The most keys.
pub const MOST_KEYS: usize = 4096;

// The edition of a file, which decides the sizes of its attributes and nodes.
#[derive(Clone, Copy, Debug, PartialEq, Eq)]
pub enum Edition {
    Bits64,
}

// The bytes of an attribute and of a node in the 64-bit edition, and of a character.
pub const ATTRIBUTE_SIZE: usize = 12;

pub const NODE_SIZE: usize = 24;

pub const CHARACTER_SIZE: usize = 2;

// The bytes of a string table's parts: of a bucket's count, of an entry and of a list position.
pub const BUCKET_COUNT_SIZE: usize = 4;

pub const ENTRY_SIZE: usize = 16;

pub const POSITION_SIZE: usize = 4;

// The buckets of the two tables.
pub const VALUE_BUCKETS: usize = 1024;

pub const NAME_BUCKETS: usize = 512;

// The most that the values' address count can say: the format sets it no limit of its own.
pub const MOST_VALUES: usize = 4_294_967_295;

// The most that the names' address count may say.
pub const MOST_NAMES: usize = 65_536;

// The header report.
#[derive(Clone, Copy)]
pub struct Header {
    pub version: usize,
    pub timestamp: Float64,
    pub revision: usize,
}

// Where the parts of the file are. A string table is its characters and its address count.
#[derive(Clone, Copy)]
pub struct Places {
    pub keys: usize,
    pub attributes: Region,
    pub nodes: Region,
    pub used_nodes: usize,
    pub value_chars: Region,
    pub value_list: usize,
    pub name_chars: Region,
    pub name_list: usize,
}

// The checked view: the header report, the places, samples of the segments, and where each bucket starts.
#[derive(Clone, Copy)]
pub struct View {
    pub header: Header,
    pub places: Places,
    pub attribute_segments: [u32; SAMPLES],
    pub node_segments: [u32; SAMPLES],
    pub node_counts: [u32; SAMPLES],
    pub value_segments: [u32; SAMPLES],
    pub name_segments: [u32; SAMPLES],
    pub value_buckets: [u32; VALUE_BUCKETS],
    pub name_buckets: [u32; NAME_BUCKETS],
}
