// The whole file: refusals 1 to 6 in order, and the view.
ghost use Rattle.std.specs.Prelude.{◌≡◌, ◌≤◌, length};
ghost use Rattle.verdict.specs.Verdict.{answer_of};
ghost use Rattle.verdict.specs.Checks.{first_fault};
ghost use Rattle.layout.specs.Layout.{footer_at, footer_checks, value_bucket_count, name_bucket_count};
ghost use Rattle.layout.specs.inner.View.{WalkFits, Walked, Fits, Viewed};
ghost use Rattle.layout.specs.declared.Edition.TheVariants.{Bits64};

use crate::{
    ATTRIBUTE_SIZE, CHARACTER_SIZE, KEYS_AT, MOST_NAMES, MOST_VALUES, NAME_BUCKETS, NODE_SIZE,
    Places, VALUE_BUCKETS, View, front, tables,
};
use region::SAMPLES;
use verdict::{Refusal, Rule};

// Where the parts of the file start, and the address counts of the two tables.
#[derive(Clone, Copy)]
pub struct Walk {
    pub attributes: usize,
    pub nodes: usize,
    pub values: usize,
    pub value_list: usize,
    pub names: usize,
    pub name_list: usize,
}

// The footer at p.
fn footer(b: &[u8], p: usize) -> Result<(), Refusal>
    requires { (p ≡ footer_at Bits64 b.now) × (p ≤ length b.now) }
    ensures { answer_of result ≡ first_fault (footer_checks Bits64 b.now) }
{
    if b.len() - p < 4 {
        return Err(Refusal(Rule::CutShort, p));
    }
    if le::u32_at(b, p) != 0 {
        return Err(Refusal(Rule::Footer, p));
    }
    if b.len() - p > 4 {
        return Err(Refusal(Rule::Footer, p + 4));
    }
    Ok(())
}

// Refusals 1 to 6 along the file.
fn along(b: &[u8], value_buckets: &mut [u32], name_buckets: &mut [u32]) -> Result<Walk, Refusal>
    requires { (length value_buckets.old ≡ value_bucket_count) × (length name_buckets.old ≡ name_bucket_count) }
    ensures { Walked Bits64 b.now result value_buckets.new name_buckets.new }
{
    let front = front::scan_front(b)?;
    let values = tables::scan_table(b, front.end, value_buckets, MOST_VALUES)?;
    let names = tables::scan_table(b, values.end, name_buckets, MOST_NAMES)?;
    footer(b, names.end)?;
    Ok(Walk {
        attributes: front.attributes,
        nodes: front.nodes,
        values: front.end,
        value_list: values.list,
        names: values.end,
        name_list: names.list,
    })
}

// The view of a file that passed.
fn view_of(
    b: &[u8],
    w: Walk,
    value_buckets: [u32; VALUE_BUCKETS],
    name_buckets: [u32; NAME_BUCKETS],
) -> View
    requires { WalkFits Bits64 b.now value_buckets name_buckets w }
    ensures { Fits Bits64 b.now result }
{
    let attributes = region::mapped(b, w.attributes, ATTRIBUTE_SIZE);
    let nodes = region::mapped(b, w.nodes, NODE_SIZE);
    let value_chars = region::mapped(b, w.values, CHARACTER_SIZE);
    let name_chars = region::mapped(b, w.names, CHARACTER_SIZE);
    let mut attribute_segments = [0u32; SAMPLES];
    region::sample_starts(b, attributes, ATTRIBUTE_SIZE, &mut attribute_segments);
    let mut node_segments = [0u32; SAMPLES];
    region::sample_starts(b, nodes, NODE_SIZE, &mut node_segments);
    let mut node_counts = [0u32; SAMPLES];
    let used_nodes = region::sample_counts(b, nodes, NODE_SIZE, &mut node_counts);
    let mut value_segments = [0u32; SAMPLES];
    region::sample_starts(b, value_chars, CHARACTER_SIZE, &mut value_segments);
    let mut name_segments = [0u32; SAMPLES];
    region::sample_starts(b, name_chars, CHARACTER_SIZE, &mut name_segments);
    View {
        header: front::header_report(b),
        places: Places {
            keys: le::u32_at(b, KEYS_AT),
            attributes,
            nodes,
            used_nodes,
            value_chars,
            value_list: w.value_list,
            name_chars,
            name_list: w.name_list,
        },
        attribute_segments,
        node_segments,
        node_counts,
        value_segments,
        name_segments,
        value_buckets,
        name_buckets,
    }
}

// Refusals 1 to 6, and the view of a file that passes them. Not inlined: its arrays are off the stack before the rest of the file is checked.
#[inline(never)]
pub fn check_layout(b: &[u8]) -> Result<View, Refusal>
    ensures { Viewed Bits64 b.now result }
{
    let mut value_buckets = [0u32; VALUE_BUCKETS];
    let mut name_buckets = [0u32; NAME_BUCKETS];
    let walk = along(b, &mut value_buckets, &mut name_buckets)?;
    Ok(view_of(b, walk, value_buckets, name_buckets))
}
