// The two hashes by themselves, for people who write builders.
ghost use Rattle.std.specs.Prelude.{◌≡◌};
ghost use Rattle.taplinen.specs.Hashes.{hash_answer, value_hash_answer};

// The hash of a text, on from the hash of what stands before it, or from 0.
pub fn taplinen_hash(start: u32, text: &[u8]) -> u32
    ensures { result ≡ hash_answer start text.now }
{
    text::parts::hash_bytes(text, start as usize) as u32
}

// The value hash of a text.
pub fn taplinen_value_hash(text: &[u8]) -> u32
    ensures { result ≡ value_hash_answer text.now }
{
    text::parts::value_hash_all(text) as u32
}
