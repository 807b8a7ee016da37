// Whether the texts of a table fill its characters. Then the character before an address tells that it is an entry's, and no entry has to
// be looked for. Builders write texts one after the other, so this is so of an ordinary file.
ghost use Rattle.std.specs.Prelude.{◌≡◌, ◌+◌, ◌*◌, ◌≤◌, length};
ghost use Rattle.verdict.specs.Checks.{first_fault};
ghost use Rattle.verdict.specs.inner.Tells.{Sure};
ghost use Rattle.verdict.specs.Verdict.{Accepted};
ghost use Rattle.region.specs.inner.Samples.{Mapped};
ghost use Rattle.strings.specs.inner.Begins.{AllBegun};
ghost use Rattle.strings.specs.Order.{all_entry_checks};
ghost use Rattle.strings.specs.inner.Lent.{lent_table};
ghost use Rattle.positions.specs.inner.Packed.{Packed, begun_in, all_begun};

use layout::CHARACTER_SIZE;
use region::Region;
use strings::StringTable;

// At how many of the n characters at p a text can begin, which are a segment's first.
fn begun_in(b: &[u8], p: usize, n: usize) -> usize
    requires { (p + 2 * n ≤ length b.now) × (n ≤ 65535) }
    ensures { (result ≡ begun_in b.now p n) × (result ≤ n) }
{
    if n == 0 {
        return 0;
    }
    1 + text::zeros(b, p, n - 1)
}

// At how many used characters one can. Not inlined: the loop over segments then has the registers to itself.
#[inline(never)]
fn count_begun(b: &[u8], chars: Region) -> usize
    requires { Mapped 2 b.now chars.at chars }
    ensures { result ≡ all_begun b.now chars.at }
{
    let mut n = 0;
    let mut p = chars.at + 4;
    for _seg in 0..chars.count {
        n += begun_in(b, p + 8, le::u32_at(b, p + 4));
        p = region::next_start(b, p, CHARACTER_SIZE);
    }
    n
}

// Whether texts begin nowhere but at entries' addresses, when those are all places where texts can: there are as many entries as such places.
pub fn is_packed(table: &StringTable, begun: bool) -> bool
    requires { (first_fault (all_entry_checks (lent_table table.now)) ≡ Accepted) × Sure (AllBegun (lent_table table.now)) begun }
    ensures { Sure (Packed (lent_table table.now)) result }
{
    if !begun {
        return false;
    }
    count_begun(table.file, table.parts.chars) == crate::entry_total(table)
}
