// What is remembered of a function of two numbers, as of the offset of a text and the characters left there. There are 1,024 slots, in one lent
// array of three parts: the one number, the other, and the value of the function. What falls on a slot next takes it over. An array of zeros is
// right about every function that is 0 at 0 and 0.
#![tactic(auto)]

ghost use Rattle.std.specs.Prelude.{◌≡◌, ◌<◌, ◌^◌, length};
ghost use Rattle.memo.specs.inner.Memo.{Recalled, TakenOver};

// The slot of x and n. Texts stand close together or far apart: the high bits of the product spread both.
fn slot(x: usize, n: usize) -> usize
    requires { (x < 2 ^ 32) × (n < 2 ^ 32) }
    ensures { result < 1024 }
{
    (x + n) % 4294967296 * 2654435769 / 4194304 % 1024
}

// The value at x and n, if it is remembered.
pub fn recall(memo: &[u32; 3072], x: usize, n: usize) -> Option<usize>
    requires { (x < 2 ^ 32) × (n < 2 ^ 32) }
    ensures { Recalled memo.now x n result }
{
    let s = slot(x, n);
    if le::wide(memo[s]) != x {
        return None;
    }
    if le::wide(memo[1024 + s]) != n {
        return None;
    }
    Some(le::wide(memo[2048 + s]))
}

// Remembers the value v at x and n.
pub fn remember(memo: &mut [u32; 3072], x: usize, n: usize, v: usize)
    requires { (length memo.old ≡ 3072) × (x < 2 ^ 32) × (n < 2 ^ 32) × (v < 2 ^ 32) }
    ensures { TakenOver memo.old x n v memo.new }
{
    let s = slot(x, n);
    memo[s] = x as u32;
    memo[1024 + s] = n as u32;
    memo[2048 + s] = v as u32;
}
