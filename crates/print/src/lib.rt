// Bytes, numbers and characters, put into a lent buffer as far as it reaches (FORMAT, "Outline", "Frames").
// One function serves both for the length of a text, with an empty buffer, and for writing it.
#![tactic(auto)]

mod bytes;
mod chars;
mod numbers;

pub use bytes::{put, put_bytes, put_spaces};
pub use chars::put_char;
pub use numbers::{put_decimal, put_hex, put_whole};
