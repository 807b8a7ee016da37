// The library: questions on a lent file, a workspace and lent buffers. Callers check nothing first. The crate taplinen_c exports them for C.
#![tactic(auto)]

pub mod answer;
pub mod batches;
pub mod hashes;
pub mod header;
pub mod lookups;
pub mod outlines;
pub mod questions;
pub mod version;
