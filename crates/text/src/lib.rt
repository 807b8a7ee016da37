// Texts among the characters of a string table, and the texts that a caller asks with.
#![tactic(auto)]

ghost use Rattle.std.specs.Prelude.{◌≡◌, ◌+◌, ◌*◌, ◌/◌, ◌≤◌, ◌<◌, ◌^◌, length};
ghost use Rattle.verdict.specs.inner.Tells.{Tells};
ghost use Rattle.hash.specs.Hash.{hash_on};
ghost use Rattle.hash.specs.Fold.{fold_text, value_hash_of};
ghost use Rattle.text.specs.Text.{chars, text_in, HoldsZero};
ghost use Rattle.text.specs.inner.Zeros.{zeros_in};
ghost use Rattle.text.specs.inner.Measure.{MeasuredOn, Measured, ValueRun, CharOrEnd};

use hash::HashTables;
use std::ops::ControlFlow;

pub mod fingerprint;
pub mod parts;

// What is measured of a text: its characters, its hash.
#[derive(Clone, Copy, Debug, PartialEq, Eq)]
pub struct Extent {
    pub length: usize,
    pub hash: usize,
}

// So that each place where a text can end takes one line.
fn measured(length: usize, hash: usize) -> Extent
    ensures { (result.length ≡ length) × (result.hash ≡ hash) }
{
    Extent { length, hash }
}

// The text at offset p, of at most n characters: four in a step, while four are left.
pub fn measure(b: &[u8], t: &HashTables, p: usize, n: usize) -> Extent
    requires { p + 2 * n ≤ length b.now }
    ensures { Measured b.now p n result }
{
    let mut h = 0;
    for k in 0..n / 4 {
        let i = 4 * k;
        let v = le::u32_at(b, p + 2 * i);
        if v & 65535 == 0 {
            return measured(i, h);
        }
        if v < 65536 {
            return measured(i + 1, t.char_on(h, v));
        }
        let w = le::u32_at(b, p + 2 * (i + 2));
        if w & 65535 == 0 {
            return measured(i + 2, t.pair_on(h, v));
        }
        if w < 65536 {
            return measured(i + 3, t.char_on(t.pair_on(h, v), w));
        }
        h = t.quad_on(h, v, w);
    }
    let i = 4 * (n / 4);
    let few = measure_few(b, t, p + 2 * i, n - i, h);
    measured(i + few.length, few.hash)
}

// The same by single characters, on from the hash h: where a segment ends, fewer than four are left.
fn measure_few(b: &[u8], t: &HashTables, p: usize, n: usize, h: usize) -> Extent
    requires { (p + 2 * n ≤ length b.now) × (h < 2 ^ 32) }
    ensures { MeasuredOn b.now p n h result }
{
    let mut g = h;
    for i in 0..n {
        let c = le::u16_at(b, p + 2 * i);
        if c == 0 {
            return measured(i, g);
        }
        g = t.char_on(g, c);
    }
    measured(n, g)
}

// The value hash, on from h, of the text at offset p, if a 0 ends it within n characters; otherwise the hash of the n folded characters, with
// which the text goes on. Four characters in a step, while four are left.
pub fn value_run(
    b: &[u8],
    t: &HashTables,
    p: usize,
    n: usize,
    h: usize,
) -> ControlFlow<usize, usize>
    requires { (p + 2 * n ≤ length b.now) × (h < 2 ^ 32) }
    ensures { ValueRun b.now p n h result }
{
    let mut g = h;
    for k in 0..n / 4 {
        let i = 4 * k;
        let v = le::u32_at(b, p + 2 * i);
        let w = le::u32_at(b, p + 2 * (i + 2));
        let f = hash::fold_quad(v, w);
        if v & 65535 == 0 {
            return ControlFlow::Break(hash::low_14(g));
        }
        if v < 65536 {
            return ControlFlow::Break(hash::low_14(t.char_on(g, f.first)));
        }
        if w & 65535 == 0 {
            return ControlFlow::Break(hash::low_14(t.pair_on(g, f.first)));
        }
        if w < 65536 {
            return ControlFlow::Break(hash::low_14(t.char_on(t.pair_on(g, f.first), f.second)));
        }
        g = t.quad_on(g, f.first, f.second);
    }
    let i = 4 * (n / 4);
    value_run_few(b, t, p + 2 * i, n - i, g)
}

// The same by single characters.
fn value_run_few(
    b: &[u8],
    t: &HashTables,
    p: usize,
    n: usize,
    h: usize,
) -> ControlFlow<usize, usize>
    requires { (p + 2 * n ≤ length b.now) × (h < 2 ^ 32) }
    ensures { ValueRun b.now p n h result }
{
    let mut g = h;
    for i in 0..n {
        let c = le::u16_at(b, p + 2 * i);
        if c == 0 {
            return ControlFlow::Break(hash::low_14(g));
        }
        g = t.char_on(g, hash::fold(c));
    }
    ControlFlow::Continue(g)
}

// The value hash, on from h, of the text at offset p, of at most n characters.
pub fn value_hash(b: &[u8], t: &HashTables, p: usize, n: usize, h: usize) -> usize
    requires { (p + 2 * n ≤ length b.now) × (h < 2 ^ 32) }
    ensures { result ≡ value_hash_of (hash_on h (fold_text (text_in b.now p n))) }
{
    match value_run(b, t, p, n, h) {
        ControlFlow::Break(value) => value,
        ControlFlow::Continue(g) => hash::low_14(g),
    }
}

// How many of the n characters at p are 0. They are counted in 16 bits, since the compiler then takes many characters at a step.
pub fn zeros(b: &[u8], p: usize, n: usize) -> usize
    requires { (p + 2 * n ≤ length b.now) × (n < 65536) }
    ensures { (result ≡ zeros_in b.now p n) × (result ≤ n) }
{
    let mut found = 0u16;
    for i in 0..n {
        if le::u16_at(b, p + 2 * i) == 0 {
            found += 1;
        }
    }
    usize::from(found)
}

// Whether one of the characters that a caller asks with is 0.
pub fn holds_zero(s: &[u8]) -> bool
    ensures { Tells (HoldsZero (chars s.now 0 (length s.now / 2))) result }
{
    for i in 0..s.len() / 2 {
        if le::u16_at(s, 2 * i) == 0 {
            return true;
        }
    }
    false
}

// The hash, on from h, of k characters that a caller asks with: four in a step, while four are left.
pub fn hash_chars(s: &[u8], t: &HashTables, p: usize, k: usize, h: usize) -> usize
    requires { (p + 2 * k ≤ length s.now) × (h < 2 ^ 32) }
    ensures { (result ≡ hash_on h (chars s.now p k)) × (result < 2 ^ 32) }
{
    let mut g = h;
    for j in 0..k / 4 {
        let i = 4 * j;
        let v = le::u32_at(s, p + 2 * i);
        g = t.quad_on(g, v, le::u32_at(s, p + 2 * (i + 2)));
    }
    let i = 4 * (k / 4);
    hash_few(s, t, p + 2 * i, k - i, g)
}

// The same of fewer than four characters, on from the hash h.
fn hash_few(s: &[u8], t: &HashTables, p: usize, k: usize, h: usize) -> usize
    requires { (p + 2 * k ≤ length s.now) × (k < 4) × (h < 2 ^ 32) }
    ensures { (result ≡ hash_on h (chars s.now p k)) × (result < 2 ^ 32) }
{
    if k == 0 {
        return h;
    }
    if k == 1 {
        return t.char_on(h, le::u16_at(s, p));
    }
    let g = t.pair_on(h, le::u32_at(s, p));
    if k == 2 {
        return g;
    }
    t.char_on(g, le::u16_at(s, p + 4))
}

// Three comparisons of texts: each knows another end of the texts that it compares.
// Whether two texts of the file are the same: that at p with m characters left, and that at q with n.
pub fn same(b: &[u8], p: usize, m: usize, q: usize, n: usize) -> bool
    requires { (p + 2 * m ≤ length b.now) × (q + 2 * n ≤ length b.now) }
    ensures { Tells (text_in b.now p m ≡ text_in b.now q n) result }
{
    for i in 0..m {
        let c = le::u16_at(b, p + 2 * i);
        if char_or_end(b, q, n, i) != c {
            return false;
        }
        if c == 0 {
            return true;
        }
    }
    char_or_end(b, q, n, m) == 0
}

// Character i of the n at p, or 0 past them: 0 ends a text either way.
fn char_or_end(b: &[u8], p: usize, n: usize, i: usize) -> usize
    requires { p + 2 * n ≤ length b.now }
    ensures { CharOrEnd b.now p n i result }
{
    if i < n { le::u16_at(b, p + 2 * i) } else { 0 }
}

// Whether the text at p, of at most n characters, is the characters that a caller asks with.
pub fn bears(b: &[u8], p: usize, n: usize, s: &[u8]) -> bool
    requires { p + 2 * n ≤ length b.now }
    ensures { Tells (text_in b.now p n ≡ chars s.now 0 (length s.now / 2)) result }
{
    let k = s.len() / 2;
    for i in 0..k {
        let c = char_or_end(b, p, n, i);
        if c == 0 {
            return false;
        }
        if c != le::u16_at(s, 2 * i) {
            return false;
        }
    }
    char_or_end(b, p, n, k) == 0
}

// Whether the n characters at p of one slice are those at q of another, when there are few. A `for`: of a closure that calls u16_at the proof would
// know nothing.
fn alike_few(b: &[u8], p: usize, s: &[u8], q: usize, n: usize) -> bool
    requires { (p + 2 * n ≤ length b.now) × (q + 2 * n ≤ length s.now) }
    ensures { Tells (chars b.now p n ≡ chars s.now q n) result }
{
    for i in 0..n {
        if le::u16_at(b, p + 2 * i) != le::u16_at(s, q + 2 * i) {
            return false;
        }
    }
    true
}

// The same for any number: four in a step, and the last four once more. The library compares slices byte by byte.
pub fn alike(b: &[u8], p: usize, s: &[u8], q: usize, n: usize) -> bool
    requires { (p + 2 * n ≤ length b.now) × (q + 2 * n ≤ length s.now) }
    ensures { Tells (chars b.now p n ≡ chars s.now q n) result }
{
    if n < 4 {
        return alike_few(b, p, s, q, n);
    }
    for k in 0..(n - 1) / 4 {
        let i = 4 * k;
        if le::u64_at(b, p + 2 * i) != le::u64_at(s, q + 2 * i) {
            return false;
        }
    }
    le::u64_at(b, p + 2 * (n - 4)) == le::u64_at(s, q + 2 * (n - 4))
}
