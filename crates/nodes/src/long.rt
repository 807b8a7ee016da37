// The hashes of texts that may be long. Thousands of attributes may share one text, and thousands of nodes one attribute: what was found out
// about a text of more than 64 characters is remembered. Shorter ones are hashed each time, which costs less than to look them up.
ghost use Rattle.std.specs.Prelude.{◌≡◌, ◌+◌, ◌*◌, ◌≤◌, ◌<◌, ◌^◌, length};
ghost use Rattle.verdict.specs.inner.Tells.{Sure};
ghost use Rattle.hash.specs.Hash.{hash_text};
ghost use Rattle.hash.specs.Fold.{value_hash};
ghost use Rattle.text.specs.Text.{text_in};
ghost use Rattle.memo.specs.inner.Memo.{Remembers};
ghost use Rattle.nodes.specs.inner.Noted.{noted};

use hash::HashTables;
use std::ops::ControlFlow;

// Whether a text with n characters left is worth remembering: at most 65,535 characters are left anywhere.
fn worth(n: usize) -> bool
    ensures { Sure ((64 ≤ n) × (n < 65536)) result }
{
    64 < n && n < 65536
}

// The value hash of the text at x, where n characters are left.
pub fn remembered_hash(
    b: &[u8],
    t: &HashTables,
    x: usize,
    n: usize,
    memo: &mut [u32; 3072],
) -> usize
    requires { (x + 2 * n ≤ length b.now) × (length b.now < 2 ^ 32) × Remembers (noted b.now) memo.old }
    ensures answer { result ≡ value_hash (text_in b.now x n) }
    ensures memo { Remembers (noted b.now) memo.new }
{
    if !worth(n) {
        return text::value_hash(b, t, x, n, 0);
    }
    let first = match text::value_run(b, t, x, 64, 0) {
        ControlFlow::Break(value) => return value,
        ControlFlow::Continue(g) => g,
    };
    if let Some(known) = memo::recall(memo, x, n) {
        return known;
    }
    let r = text::value_hash(b, t, x + 128, n - 64, first);
    memo::remember(memo, x, n, r);
    r
}

// The hash of the text at x, where n characters are left.
pub fn text_hash(b: &[u8], t: &HashTables, x: usize, n: usize, memo: &mut [u32; 3072]) -> usize
    requires { (x + 2 * n ≤ length b.now) × (length b.now < 2 ^ 32) × Remembers (noted b.now) memo.old }
    ensures answer { result ≡ hash_text (text_in b.now x n) }
    ensures memo { Remembers (noted b.now) memo.new }
{
    if !worth(n) {
        let whole = text::measure(b, t, x, n);
        return whole.hash;
    }
    let first = text::measure(b, t, x, 64);
    if first.length < 64 {
        return first.hash;
    }
    if let Some(known) = memo::recall(memo, x, n + 65536) {
        return known;
    }
    let m = text::measure(b, t, x, n);
    memo::remember(memo, x, n + 65536, m.hash);
    m.hash
}
