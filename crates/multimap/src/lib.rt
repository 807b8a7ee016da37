// Which of up to 8,192 places hold a number below 65,536: a hash table with chains. The places are filled one after the other. They stand in one
// lent array of three parts. For each of 4,096 slots it has the last place whose number falls on the slot; for each place its number; and for each
// place the one before it on the same slot. Place i is kept as i + 1, and 0 stands for none: so an array of zeros has no place filled.
#![tactic(auto)]

ghost use Rattle.std.specs.Prelude.{◌≡◌, ◌+◌, ◌%◌, ◌≤◌, ◌<◌, ◌^◌};
ghost use Rattle.multimap.specs.inner.Multimap.{number_at, Filled, OnSlot, LastWith, PutBehind};

// Of the first m places the last one with number x. The last one on its slot is kept as c.
fn seek(map: &[u16; 20480], n: usize, m: usize, c: usize, x: usize) -> Option<usize>
    requires { Filled n map.now × (m ≤ n) × OnSlot map.now (x % 4096) m c }
    ensures { LastWith map.now m x result }
{
    let mut at = c;
    // Along the chain of the slot, which 0 ends.
    while let Some(i) = at.checked_sub(1) {
        if usize::from(map[4096 + i]) == x {
            return Some(i);
        }
        at = usize::from(map[12288 + i]);
    }
    None
}

// Of the n places the last one with number x.
pub fn last(map: &[u16; 20480], n: usize, x: usize) -> Option<usize>
    requires { Filled n map.now }
    ensures { LastWith map.now n x result }
{
    seek(map, n, n, usize::from(map[x % 4096]), x)
}

// The same of the places before place i, which has number x.
pub fn before(map: &[u16; 20480], n: usize, i: usize, x: usize) -> Option<usize>
    requires { Filled n map.now × (i < n) × (number_at map.now i ≡ x) }
    ensures { LastWith map.now i x result }
{
    seek(map, n, i, usize::from(map[12288 + i]), x)
}

// Fills place n with number x.
pub fn insert(map: &mut [u16; 20480], n: usize, x: usize)
    requires { Filled n map.old × (n < 8192) × (x < 2 ^ 16) }
    ensures { PutBehind map.old n x map.new }
{
    let s = x % 4096;
    map[4096 + n] = x as u16;
    map[12288 + n] = map[s];
    map[s] = (n + 1) as u16;
}
