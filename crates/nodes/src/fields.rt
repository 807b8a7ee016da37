// The fields of nodes and attributes (FORMAT, "Nodes", "Attributes"). Their offsets stand here and nowhere else.
#![tactic(auto, unfolding(crate::specs::Node::node_name, crate::specs::Node::key_word, crate::specs::Node::attribute_field, crate::specs::Node::child_field, crate::specs::Node::attribute_segment, crate::specs::Node::attribute_element, crate::specs::Node::child_segment, crate::specs::Node::child_element, crate::specs::Attribute::attribute_name, crate::specs::Attribute::type_word, crate::specs::Attribute::value_word, crate::specs::Attribute::text_segment, crate::specs::Attribute::text_element,))]

ghost use Rattle.std.specs.Prelude.{◌≡◌, ℕ, ◌+◌, ◌≤◌, ◌<◌, ◌^◌, length, get_or};
ghost use Rattle.layout.specs.Edition.{attribute_size, node_size};
ghost use Rattle.layout.specs.declared.Edition.TheVariants.{Bits64};
ghost use Rattle.nodes.specs.Node.{node_name, key_word, attribute_field, child_field, attribute_segment, attribute_element, child_segment, child_element};
ghost use Rattle.nodes.specs.Attribute.{attribute_name, type_word, value_word, text_segment, text_element};

// Of the node at p: the name index, 0 where it is nameless.
pub fn node_name(b: &[u8], p: usize) -> usize
    requires { p + node_size Bits64 ≤ length b.now }
    ensures { (result ≡ node_name b.now p) × (result < 65536) }
{
    le::u16_at(b, p)
}

// The word that holds flags and key index.
pub fn key_word(b: &[u8], p: usize) -> usize
    requires { p + node_size Bits64 ≤ length b.now }
    ensures { (result ≡ key_word b.now p) × (result < 65536) }
{
    le::u16_at(b, p + 2)
}

// The attribute count and the child count, which mean nothing where the node is nameless.
pub fn attribute_field(b: &[u8], p: usize) -> usize
    requires { p + node_size Bits64 ≤ length b.now }
    ensures { (result ≡ attribute_field b.now p) × (result < 65536) }
{
    le::u16_at(b, p + 4)
}

pub fn child_field(b: &[u8], p: usize) -> usize
    requires { p + node_size Bits64 ≤ length b.now }
    ensures { (result ≡ child_field b.now p) × (result < 65536) }
{
    le::u16_at(b, p + 6)
}

// The address of the first attribute.
pub fn attribute_segment(b: &[u8], p: usize) -> usize
    requires { p + node_size Bits64 ≤ length b.now }
    ensures { (result ≡ attribute_segment b.now p) × (result < 65536) }
{
    le::u16_at(b, p + 8)
}

pub fn attribute_element(b: &[u8], p: usize) -> usize
    requires { p + node_size Bits64 ≤ length b.now }
    ensures { (result ≡ attribute_element b.now p) × (result < 65536) }
{
    le::u16_at(b, p + 10)
}

// The address of the first child.
pub fn child_segment(b: &[u8], p: usize) -> usize
    requires { p + node_size Bits64 ≤ length b.now }
    ensures { (result ≡ child_segment Bits64 b.now p) × (result < 65536) }
{
    le::u16_at(b, p + 16)
}

pub fn child_element(b: &[u8], p: usize) -> usize
    requires { p + node_size Bits64 ≤ length b.now }
    ensures { (result ≡ child_element Bits64 b.now p) × (result < 65536) }
{
    le::u16_at(b, p + 18)
}

// Of the attribute at q: the name index.
pub fn attribute_name(b: &[u8], q: usize) -> usize
    requires { q + attribute_size Bits64 ≤ length b.now }
    ensures { (result ≡ attribute_name b.now q) × (result < 65536) }
{
    le::u16_at(b, q)
}

// The word that holds type and extended code.
pub fn type_word(b: &[u8], q: usize) -> usize
    requires { q + attribute_size Bits64 ≤ length b.now }
    ensures { (result ≡ type_word b.now q) × (result < 65536) }
{
    le::u16_at(b, q + 2)
}

// The value as one word. Two texts' addresses are alike where their words are, since each byte is below 256.
pub fn value_word(b: &[u8], q: usize) -> usize
    requires { q + attribute_size Bits64 ≤ length b.now }
    ensures { (result ≡ value_word b.now q) × (result < 2 ^ 32) × ((k : ℕ) → get_or b.now k 0 < 256) }
{
    le::u32_at(b, q + 4)
}

// A text's address.
pub fn text_segment(b: &[u8], q: usize) -> usize
    requires { q + attribute_size Bits64 ≤ length b.now }
    ensures { (result ≡ text_segment b.now q) × (result < 65536) }
{
    le::u16_at(b, q + 4)
}

pub fn text_element(b: &[u8], q: usize) -> usize
    requires { q + attribute_size Bits64 ≤ length b.now }
    ensures { (result ≡ text_element b.now q) × (result < 65536) }
{
    le::u16_at(b, q + 6)
}
