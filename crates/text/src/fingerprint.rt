// A second hash of a text, for the search of duplicates among texts that have the same hash. It is no part of the format. The hash of the format is
// linear in the bits of a text, so many texts with one hash are easily made. The fingerprint is not linear.
ghost use Rattle.std.specs.Prelude.{◌≡◌, ◌+◌, ◌*◌, ◌≤◌, ◌<◌, ◌^◌, length};
ghost use Rattle.text.specs.Text.{chars};
ghost use Rattle.text.specs.inner.Fingerprint.{stirred, fingerprint_of};

// Goes on from g with one character, or with two as one number.
fn stir(g: usize, v: usize) -> usize
    requires { (g < 2 ^ 32) × (v < 2 ^ 32) }
    ensures { (result ≡ stirred g v) × (result < 2 ^ 32) }
{
    (g + v) * 1640531527 / 65536 % 4294967296
}

// The fingerprint of the n characters at p.
pub fn fingerprint(b: &[u8], p: usize, n: usize) -> usize
    requires { p + 2 * n ≤ length b.now }
    ensures { (result ≡ fingerprint_of (chars b.now p n)) × (result < 2 ^ 16) }
{
    let mut g = 0;
    for k in 0..n / 2 {
        let i = 2 * k;
        g = stir(g, le::u32_at(b, p + 2 * i));
    }
    let i = 2 * (n / 2);
    if i < n {
        return stir(g, le::u16_at(b, p + 2 * i)) / 65536;
    }
    g / 65536
}
