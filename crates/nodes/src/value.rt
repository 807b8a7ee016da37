// The value of an attribute, read out.
ghost use Rattle.std.specs.Prelude.{◌≡◌, ◌+◌, ◌≤◌, length};
ghost use Rattle.layout.specs.Edition.{attribute_size};
ghost use Rattle.layout.specs.declared.Edition.TheVariants.{Bits64};
ghost use Rattle.nodes.specs.Attribute.{value_of};

use crate::fields;
use le::Float32;
use words::AttributeType;

// A whole number, a truth, a float beside its bits, or a text address: segment, element.
#[derive(Clone, Copy)]
pub enum Value {
    Whole(i32),
    Truth(bool),
    Float(Float32),
    Text(usize, usize),
}

// The value of the attribute at q.
pub fn value_at(b: &[u8], q: usize) -> Value
    requires { q + attribute_size Bits64 ≤ length b.now }
    ensures { result ≡ value_of b.now q }
{
    let word = fields::type_word(b, q);
    match words::kind(word) {
        AttributeType::Whole => {
            let w = fields::value_word(b, q);
            if words::extended(word) == 0 {
                Value::Whole((w as u32).cast_signed())
            } else {
                Value::Truth(w == 1)
            }
        }
        AttributeType::Float => Value::Float(le::single(fields::value_word(b, q) as u32)),
        AttributeType::None | AttributeType::Text => {
            Value::Text(fields::text_segment(b, q), fields::text_element(b, q))
        }
    }
}
