// Bytes as they are.
ghost use Rattle.std.specs.Prelude.{◌∷◌, [], replicate};
ghost use Rattle.print.specs.inner.Put.{Put};

// One byte; answers the next place, which stops at the largest number.
pub fn put(out: &mut [u8], at: usize, c: u8) -> usize
    ensures { Put out.old at (c ∷ []) result out.new }
{
    if at < out.len() {
        out[at] = c;
    }
    at.saturating_add(1)
}

// n spaces.
pub fn put_spaces(out: &mut [u8], at: usize, n: usize) -> usize
    ensures { Put out.old at (replicate n 32) result out.new }
{
    let mut p = at;
    for _ in 0..n {
        p = put(out, p, b' ');
    }
    p
}

// All of s, as a fixed word.
pub fn put_bytes(out: &mut [u8], at: usize, s: &[u8]) -> usize
    ensures { Put out.old at s.now result out.new }
{
    let mut p = at;
    for c in s {
        p = put(out, p, *c);
    }
    p
}
