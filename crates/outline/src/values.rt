// Attributes and their values.
ghost use Rattle.layout.specs.declared.Edition.TheVariants.{Bits64};
ghost use Rattle.nodes.specs.Node.{attribute_count, attribute_at};
ghost use Rattle.nodes.specs.Attribute.{value_of};
ghost use Rattle.tree.specs.Chain.{ranged};
ghost use Rattle.print.specs.inner.Put.{Put};
ghost use Rattle.outline.specs.Outline.{truth_text, value_text, attribute_text};
ghost use Rattle.outline.specs.inner.Ready.{AttributeReady, NodeReady};

use crate::source::Source;
use crate::texts;
use layout::ATTRIBUTE_SIZE;
use nodes::value::Value;
use nodes::{fields, value};

// A truth.
fn put_truth(t: bool, out: &mut [u8], at: usize) -> usize
    ensures { Put out.old at (truth_text t) result out.new }
{
    if t {
        return print::put_bytes(out, at, b"b:true");
    }
    print::put_bytes(out, at, b"b:false")
}

// The value of the attribute at q.
fn put_value(source: &Source, q: usize, out: &mut [u8], at: usize) -> usize
    requires { AttributeReady Bits64 source.now.file.now q }
    ensures { Put out.old at (value_text Bits64 source.now.file.now (value_of source.now.file.now q)) result out.new }
{
    let v = value::value_at(source.file, q);
    match v {
        Value::Whole(z) => {
            let e = print::put_bytes(out, at, b"i:");
            print::put_whole(out, e, z)
        }
        Value::Truth(t) => put_truth(t, out, at),
        Value::Float(f) => {
            let e = print::put_bytes(out, at, b"f:");
            print::put_hex(out, e, f.bits as usize, 8)
        }
        Value::Text(seg, el) => {
            let e = print::put_bytes(out, at, b"s:");
            texts::put_text(
                source.file,
                source.view.places.value_chars,
                &source.view.value_segments,
                seg,
                el,
                out,
                e,
            )
        }
    }
}

// The attribute at q.
fn put_attribute(source: &Source, q: usize, out: &mut [u8], at: usize) -> usize
    requires { AttributeReady Bits64 source.now.file.now q }
    ensures { Put out.old at (attribute_text Bits64 source.now.file.now q) result out.new }
{
    let c = print::put(out, at, b' ');
    let d = texts::put_name(source, fields::attribute_name(source.file, q), out, c);
    let e = print::put(out, d, b'=');
    put_value(source, q, out, e)
}

// The attributes of the live node at x.
pub fn put_attributes(source: &Source, x: usize, out: &mut [u8], at: usize) -> usize
    requires { NodeReady Bits64 source.now.file.now x }
    ensures { Put out.old at (ranged (λ i. attribute_text Bits64 source.now.file.now (attribute_at Bits64 source.now.file.now x i)) 0 (attribute_count source.now.file.now x)) result out.new }
{
    let b = source.file;
    let n = fields::attribute_field(b, x);
    if n == 0 {
        return at;
    }
    let seg = fields::attribute_segment(b, x);
    let el = fields::attribute_element(b, x);
    let q = region::range_at(
        b,
        source.view.places.attributes,
        ATTRIBUTE_SIZE,
        &source.view.attribute_segments,
        seg,
        el,
        n,
    )
    .unwrap();
    let mut e = at;
    for i in 0..n {
        e = put_attribute(source, q + i * ATTRIBUTE_SIZE, out, e);
    }
    e
}
