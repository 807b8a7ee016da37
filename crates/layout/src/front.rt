// The front of a file: the header, the keys, and the regions of attributes and nodes.
ghost use Rattle.std.specs.Prelude.{◌≡◌, ◌≤◌, length};
ghost use Rattle.verdict.specs.Verdict.{answer_of};
ghost use Rattle.verdict.specs.Checks.{first_fault, each};
ghost use Rattle.verdict.specs.inner.Gives.{Ends};
ghost use Rattle.layout.specs.inner.Scanned.{FrontScanned};
ghost use Rattle.layout.specs.Header.{header_of, header_checks, zero_word_checks, keys_at, key_checks, key_at, key_count};
ghost use Rattle.layout.specs.declared.Edition.TheVariants.{Bits64};

use crate::{ATTRIBUTE_SIZE, FIRST_KEY_AT, Header, KEYS_AT, MOST_BYTES, MOST_KEYS, NODE_SIZE};
use verdict::{Refusal, Rule};

// The four words that must be 0.
fn zero_words(b: &[u8]) -> Result<(), Refusal>
    requires { 16 ≤ length b.now }
    ensures { answer_of result ≡ first_fault (each (zero_word_checks b.now) 4 0) }
{
    for i in 0..4 {
        let p = 16 + 4 * i;
        if b.len() - p < 4 {
            return Err(Refusal(Rule::CutShort, p));
        }
        if le::u32_at(b, p) != 0 {
            return Err(Refusal(Rule::ZeroWord, p));
        }
    }
    Ok(())
}

// Refusals 2 to 4 of the header.
fn header(b: &[u8]) -> Result<(), Refusal>
    ensures { answer_of result ≡ first_fault (header_checks b.now) }
{
    if b.len() < 4 {
        return Err(Refusal(Rule::CutShort, 0));
    }
    if le::u32_at(b, 0) != 6 {
        return Err(Refusal(Rule::Version, 0));
    }
    if b.len() < 12 {
        return Err(Refusal(Rule::CutShort, 4));
    }
    if b.len() < 16 {
        return Err(Refusal(Rule::CutShort, 12));
    }
    zero_words(b)
}

// Refusals 2 and 5 of the keys, or where they end.
fn keys(b: &[u8]) -> Result<usize, Refusal>
    requires { keys_at ≤ length b.now }
    ensures { Ends (first_fault (key_checks b.now)) (key_at (key_count b.now)) result }
{
    if b.len() - KEYS_AT < 4 {
        return Err(Refusal(Rule::CutShort, KEYS_AT));
    }
    let n = le::u32_at(b, KEYS_AT);
    if n < 1 {
        return Err(Refusal(Rule::Count, KEYS_AT));
    }
    if n > MOST_KEYS {
        return Err(Refusal(Rule::Count, KEYS_AT));
    }
    if b.len() - FIRST_KEY_AT < 8 * n {
        return Err(Refusal(Rule::CutShort, FIRST_KEY_AT));
    }
    Ok(FIRST_KEY_AT + 8 * n)
}

// The offsets of the front's regions, and where the nodes end.
#[derive(Clone, Copy)]
pub struct Front {
    pub attributes: usize,
    pub nodes: usize,
    pub end: usize,
}

// Refusals 1 to 5 up to the end of the nodes.
pub fn scan_front(b: &[u8]) -> Result<Front, Refusal>
    ensures { FrontScanned Bits64 b.now result }
{
    if b.len() > MOST_BYTES {
        return Err(Refusal(Rule::FileSize, 0));
    }
    header(b)?;
    let attributes = keys(b)?;
    let nodes = region::lay(b, attributes, ATTRIBUTE_SIZE)?;
    let end = region::lay(b, nodes, NODE_SIZE)?;
    Ok(Front {
        attributes,
        nodes,
        end,
    })
}

// The header report.
pub fn header_report(b: &[u8]) -> Header
    requires { 32 ≤ length b.now }
    ensures { result ≡ header_of b.now }
{
    Header {
        version: le::u32_at(b, 0),
        timestamp: le::double_at(b, 4),
        revision: le::u32_at(b, 12),
    }
}
