// The two words of nodes and attributes that hold two fields each (FORMAT, "Nodes", "Attributes").
#![tactic(auto)]

ghost use Rattle.std.specs.Prelude.{◌≡◌, ◌<◌};
ghost use Rattle.words.specs.Words.{flags_of, key_index_of, type_number, type_of, extended_of};

// The types of attributes, by their numbers (FORMAT, "Attributes"): 0 is no type, and a truth is of the type of whole numbers.
#[derive(Clone, Copy, Debug, PartialEq, Eq)]
pub enum AttributeType {
    None = 0,
    Whole = 1,
    Float = 2,
    Text = 3,
}

impl AttributeType {
    // The number that the format gives it.
    pub fn number(self) -> usize
        ensures { (result ≡ type_number self) × (result < 4) }
    {
        self as usize
    }
}

// The low four bits of a key word.
pub fn flags(w: usize) -> usize
    ensures { (result ≡ flags_of w) × (result < 16) }
{
    w & 15
}

// Its high twelve bits.
pub fn key_index(w: usize) -> usize
    ensures { result ≡ key_index_of w }
{
    w >> 4
}

// The type that the low two bits of a type word name.
pub fn kind(w: usize) -> AttributeType
    ensures { type_number result ≡ type_of w }
{
    match w & 3 {
        0 => AttributeType::None,
        1 => AttributeType::Whole,
        2 => AttributeType::Float,
        _ => AttributeType::Text,
    }
}

// The rest of it.
pub fn extended(w: usize) -> usize
    ensures { result ≡ extended_of w }
{
    w >> 2
}
