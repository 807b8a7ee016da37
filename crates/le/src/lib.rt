// Little-endian numbers at an offset of a slice of bytes (FORMAT, "Conventions").
#![tactic(auto)]

ghost use Rattle.std.specs.Prelude.{◌≡◌, ◌+◌, ◌≤◌, ◌<◌, ◌^◌, length};
ghost use Rattle.std.specs.Float.Ieee.{of_bits};
ghost use Rattle.std.specs.Float.{binary32, binary64};
ghost use Rattle.laws.specs.inner.Lists.{splice};
ghost use Rattle.le.specs.Le.{u16_at, u32_at, u64_at, le4};
ghost use Rattle.le.specs.Floats.{single_of, double_at};

// A number of 32 bits as the code counts.
pub fn wide(x: u32) -> usize
    ensures { (result ≡ x) × (result < 2 ^ 32) }
{
    x as usize
}

// Each width by the method of its own type: a trait for the three would be longer.
pub fn u16_at(s: &[u8], at: usize) -> usize
    requires { at + 2 ≤ length s.now }
    ensures { (result ≡ u16_at s.now at) × (result < 65536) }
{
    usize::from(u16::from_le_bytes([s[at], s[at + 1]]))
}

pub fn u32_at(s: &[u8], at: usize) -> usize
    requires { at + 4 ≤ length s.now }
    ensures { (result ≡ u32_at s.now at) × (result < 2 ^ 32) }
{
    wide(u32::from_le_bytes([s[at], s[at + 1], s[at + 2], s[at + 3]]))
}

// Its two halves, as its definition has them.
pub fn u64_at(s: &[u8], at: usize) -> u64
    requires { at + 8 ≤ length s.now }
    ensures { result ≡ u64_at s.now at }
{
    u32_at(s, at) as u64 + (u32_at(s, at + 4) as u64) * 4294967296
}

// Writes a number's four low bytes. The number may be larger, so `to_le_bytes` would need a mask.
pub fn put_u32(d: &mut [u8], at: usize, x: usize)
    requires { at + 4 ≤ length d.old }
    ensures { d.new ≡ splice d.old at (le4 x) }
{
    d[at] = (x % 256) as u8;
    d[at + 1] = (x / 256 % 256) as u8;
    d[at + 2] = (x / 65536 % 256) as u8;
    d[at + 3] = (x / 16777216 % 256) as u8;
}

// A float beside its bits: a NaN's own bits cannot live in the float. Two types, since `from_bits` has another type in each.
#[derive(Clone, Copy)]
pub struct Float32 {
    pub value: f32,
    pub bits: u32,
}

#[derive(Clone, Copy)]
pub struct Float64 {
    pub value: f64,
    pub bits: u64,
}

fn f32_of(bits: u32) -> f32
    ensures { result ≡ of_bits binary32 bits }
{
    if bits % 0x8000_0000 <= 0x7f80_0000 {
        f32::from_bits(bits)
    } else {
        f32::NAN
    }
}

fn f64_of(bits: u64) -> f64
    ensures { result ≡ of_bits binary64 bits }
{
    if bits % 0x8000_0000_0000_0000 <= 0x7ff0_0000_0000_0000 {
        f64::from_bits(bits)
    } else {
        f64::NAN
    }
}

// The float of a pattern of 32 bits.
pub fn single(bits: u32) -> Float32
    ensures { result ≡ single_of bits }
{
    Float32 {
        value: f32_of(bits),
        bits,
    }
}

pub fn double_at(s: &[u8], at: usize) -> Float64
    requires { at + 8 ≤ length s.now }
    ensures { result ≡ double_at s.now at }
{
    let bits = u64_at(s, at);
    Float64 {
        value: f64_of(bits),
        bits,
    }
}
